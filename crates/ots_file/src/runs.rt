ghost use Rattle.std.specs.Prelude.{◌≡◌, Some, ◌≤◌, ◌+◌, ◌-◌, ◌∷◌, ℕ, List, true, false, length, take, drop, min};
ghost use Rattle.std.specs.Prelude.{is_ok, is_err, IfOk, OnOk, OnErr, MatchResult, if◌then◌else◌};
ghost use Rattle.std.specs.Io.{ReadsAtMost};
ghost use Rattle.std.specs.Option.{option_map};
ghost use Rattle.ots_base.specs.Told.{IfTold};
ghost use Rattle.ots_disk.specs.Disk.{put};
ghost use Rattle.ots_file.specs.Events.{failures, has_failed_sync, is_ready, counted};
ghost use Rattle.ots_file.specs.Events.FileEvent.{folder_synced, measured, synced as file_synced};
ghost use Rattle.ots_file.specs.Runs.{ReadsAll, ReadsPart, WritesAll, WritesPart};
ghost use Rattle.ots_file.specs.FileCalls.{bytes_told, images_told, after_opening, Leaves};
ghost use Rattle.ots_file.specs.Told.{Quiet, Grows, told_bytes, told_images};

use crate::FileCalls;
use ots_outside::Failed;

/// A sync, of which it is remembered whether it failed.
fn sync_file<F: FileCalls>(file: &mut F, sync_failed: &mut bool) -> Result<(), Failed>
    requires { sync_failed.old ≡ has_failed_sync (F.FileCalls.history file.old) }
    ensures remembered { sync_failed.new ≡ has_failed_sync (F.FileCalls.history file.new) }
    ensures stays { F.FileCalls.folder file.new ≡ F.FileCalls.folder file.old }
    ensures kept { F.FileCalls.first file.new ≡ F.FileCalls.first file.old }
    ensures quiet { Quiet (F.FileCalls.first file.old) (F.FileCalls.history file.old) (F.FileCalls.history file.new) }
    ensures counted { failures (F.FileCalls.history file.new)
        ≡ counted (is_ok result) (failures (F.FileCalls.history file.old)) }
    ensures noted { MatchResult result
        (λ _. F.FileCalls.history file.new ≡ file_synced true ∷ F.FileCalls.history file.old)
        (λ _. F.FileCalls.history file.new ≡ file_synced false ∷ F.FileCalls.history file.old) }
    ensures ready { is_ready (F.FileCalls.history file.new) ≡ is_ready (F.FileCalls.history file.old) }
{
    match file.sync() {
        Ok(()) => Ok(()),
        Err(Failed) => {
            *sync_failed = true;
            Err(Failed)
        }
    }
}

/// A sync, of which it is remembered whether it failed.
fn sync_folder<F: FileCalls>(file: &mut F, sync_failed: &mut bool) -> Result<(), Failed>
    requires { sync_failed.old ≡ has_failed_sync (F.FileCalls.history file.old) }
    ensures remembered { sync_failed.new ≡ has_failed_sync (F.FileCalls.history file.new) }
    ensures stays { F.FileCalls.folder file.new ≡ F.FileCalls.folder file.old }
    ensures kept { F.FileCalls.first file.new ≡ F.FileCalls.first file.old }
    ensures counted { failures (F.FileCalls.history file.new)
        ≡ counted (is_ok result) (failures (F.FileCalls.history file.old)) }
    ensures noted { MatchResult result
        (λ _. F.FileCalls.history file.new
        ≡ folder_synced (F.FileCalls.folder file.old) true ∷ F.FileCalls.history file.old)
        (λ _. F.FileCalls.history file.new
        ≡ folder_synced (F.FileCalls.folder file.old) false ∷ F.FileCalls.history file.old) }
{
    match file.sync_folder() {
        Ok(()) => Ok(()),
        Err(Failed) => {
            *sync_failed = true;
            Err(Failed)
        }
    }
}

/// Opens the file, so that what is read is what the device has.
#[tactic(auto, using(crate::specs::Told::stays_unready, crate::specs::Told::stays_folder))]
fn settle<F: FileCalls>(file: &mut F, sync_failed: &mut bool) -> Result<(), Failed>
    requires known { sync_failed.old ≡ has_failed_sync (F.FileCalls.history file.old) }
    requires first_time { is_ready (F.FileCalls.history file.old) ≡ false }
    ensures remembered { sync_failed.new ≡ has_failed_sync (F.FileCalls.history file.new) }
    ensures kept { F.FileCalls.first file.new ≡ F.FileCalls.first file.old }
    ensures quiet { Quiet (F.FileCalls.first file.old) (F.FileCalls.history file.old) (F.FileCalls.history file.new) }
    ensures counted { failures (F.FileCalls.history file.new)
        ≡ counted (is_ok result) (failures (F.FileCalls.history file.old)) }
    ensures ready { is_ready (F.FileCalls.history file.new) ≡ is_ok result }
    ensures noted { OnOk result
        (F.FileCalls.history file.new ≡ after_opening F.FileCalls file.old file.new) }
    ensures stays { (c : List ℕ) → images_told F.FileCalls file.old c
        → told_images (F.FileCalls.first file.old) (F.FileCalls.history file.new) c }
{
    file.open()?;
    sync_file(file, sync_failed)?;
    file.drop_pages()?;
    sync_folder(file, sync_failed)
}

/// Makes the file ready, once. After a failed sync no call is made any more.
pub fn prepare<F: FileCalls>(
    file: &mut F,
    is_open: &mut bool,
    sync_failed: &mut bool,
) -> Result<(), Failed>
    requires known { sync_failed.old ≡ has_failed_sync (F.FileCalls.history file.old) }
    requires state { is_open.old ≡ is_ready (F.FileCalls.history file.old) }
    ensures leaves { Leaves F.FileCalls file.old file.new (is_ok result) is_open.new sync_failed.new }
    ensures is_open { OnOk result (is_open.new ≡ true) }
    ensures quiet { Quiet (F.FileCalls.first file.old) (F.FileCalls.history file.old) (F.FileCalls.history file.new) }
    ensures once { is_open.old ≡ true → F.FileCalls.history file.new ≡ F.FileCalls.history file.old }
    ensures opened { is_open.old ≡ false → OnOk result
        (F.FileCalls.history file.new ≡ after_opening F.FileCalls file.old file.new) }
    ensures stays { (c : List ℕ) → images_told F.FileCalls file.old c
        → told_images (F.FileCalls.first file.old) (F.FileCalls.history file.new) c }
{
    if *sync_failed {
        return Err(Failed);
    }
    if !*is_open {
        settle(file, sync_failed)?;
        *is_open = true;
    }
    Ok(())
}

/// Writes the whole piece; a short write is carried on.
pub fn write_full<F: FileCalls>(file: &mut F, place: u64, piece: &[u8]) -> Result<(), Failed>
    requires { IfTold (bytes_told F.FileCalls file.old) (λ b. place ≤ length b) }
    ensures stays { F.FileCalls.folder file.new ≡ F.FileCalls.folder file.old }
    ensures kept { F.FileCalls.first file.new ≡ F.FileCalls.first file.old }
    ensures counted { failures (F.FileCalls.history file.new)
        ≡ counted (is_ok result) (failures (F.FileCalls.history file.old)) }
    ensures remembered { has_failed_sync (F.FileCalls.history file.new)
        ≡ has_failed_sync (F.FileCalls.history file.old) }
    ensures ready { is_ready (F.FileCalls.history file.old) ≡ true → is_ready (F.FileCalls.history file.new) ≡ true }
    ensures written { OnOk result (told_bytes (F.FileCalls.first file.old) (F.FileCalls.history file.new)
        ≡ option_map (put place piece.now) (bytes_told F.FileCalls file.old)) }
    ensures calls { MatchResult result
        (λ _. WritesAll place piece.now (F.FileCalls.history file.old) (F.FileCalls.history file.new))
        (λ _. WritesPart place piece.now (F.FileCalls.history file.old) (F.FileCalls.history file.new)) }
    ensures grows { Grows place (length piece.now)
        (F.FileCalls.first file.old) (F.FileCalls.history file.old) (F.FileCalls.history file.new) }
{
    let mut done = 0;
    while done < piece.len() {
        done += file.write_some(place.saturating_add(done as u64), &piece[done..])?;
    }
    Ok(())
}

/// Fills the buffer, or reads up to the end.
pub fn read_full<F: FileCalls>(file: &mut F, place: u64, buf: &mut [u8]) -> Result<usize, Failed>
    ensures bound { ReadsAtMost result buf.new }
    ensures stays { F.FileCalls.folder file.new ≡ F.FileCalls.folder file.old }
    ensures kept { F.FileCalls.first file.new ≡ F.FileCalls.first file.old }
    ensures quiet { Quiet (F.FileCalls.first file.old) (F.FileCalls.history file.old) (F.FileCalls.history file.new) }
    ensures counted { failures (F.FileCalls.history file.new)
        ≡ counted (is_ok result) (failures (F.FileCalls.history file.old)) }
    ensures remembered { has_failed_sync (F.FileCalls.history file.new)
        ≡ has_failed_sync (F.FileCalls.history file.old) }
    ensures ready { is_ready (F.FileCalls.history file.new) ≡ is_ready (F.FileCalls.history file.old) }
    ensures calls { MatchResult result
        (λ n. ReadsAll place (length buf.new) (take n buf.new)
        (F.FileCalls.history file.old) (F.FileCalls.history file.new))
        (λ _. ReadsPart place (length buf.new) (F.FileCalls.history file.old) (F.FileCalls.history file.new)) }
    ensures read { IfTold (bytes_told F.FileCalls file.old)
        (λ b. IfOk result (λ n. take n buf.new ≡ take n (drop place b))) }
    ensures count { IfTold (bytes_told F.FileCalls file.old)
        (λ b. IfOk result (λ n. n ≡ min (length buf.new) (length b - place))) }
{
    let mut filled = 0;
    while filled < buf.len() {
        let count = file.read_some(place.saturating_add(filled as u64), &mut buf[filled..])?;
        if count == 0 {
            break;
        }
        filled += count;
    }
    Ok(filled)
}

/// The file's length.
pub fn length_of<F: FileCalls>(
    file: &mut F,
    is_open: &mut bool,
    sync_failed: &mut bool,
) -> Result<u64, Failed>
    requires known { sync_failed.old ≡ has_failed_sync (F.FileCalls.history file.old) }
    requires state { is_open.old ≡ is_ready (F.FileCalls.history file.old) }
    ensures leaves { Leaves F.FileCalls file.old file.new (is_ok result) is_open.new sync_failed.new }
    ensures quiet { Quiet (F.FileCalls.first file.old) (F.FileCalls.history file.old) (F.FileCalls.history file.new) }
    ensures noted { is_open.old ≡ true → sync_failed.old ≡ false → MatchResult result
        (λ n. F.FileCalls.history file.new ≡ measured true n ∷ F.FileCalls.history file.old)
        (λ _. F.FileCalls.history file.new ≡ measured false 0 ∷ F.FileCalls.history file.old) }
    ensures opened { is_open.old ≡ false → IfOk result
        (λ n. F.FileCalls.history file.new ≡ measured true n ∷ after_opening F.FileCalls file.old file.new) }
    ensures length { IfTold (bytes_told F.FileCalls file.old) (λ b. IfOk result (λ n. n ≡ length b)) }
{
    prepare(file, is_open, sync_failed)?;
    file.len()
}

/// Makes all of the file durable.
pub fn sync_of<F: FileCalls>(
    file: &mut F,
    is_open: &mut bool,
    sync_failed: &mut bool,
) -> Result<(), Failed>
    requires known { sync_failed.old ≡ has_failed_sync (F.FileCalls.history file.old) }
    requires state { is_open.old ≡ is_ready (F.FileCalls.history file.old) }
    ensures leaves { Leaves F.FileCalls file.old file.new (is_ok result) is_open.new sync_failed.new }
    ensures quiet { Quiet (F.FileCalls.first file.old) (F.FileCalls.history file.old) (F.FileCalls.history file.new) }
    ensures noted { is_open.old ≡ true → sync_failed.old ≡ false → MatchResult result
        (λ _. F.FileCalls.history file.new ≡ file_synced true ∷ F.FileCalls.history file.old)
        (λ _. F.FileCalls.history file.new ≡ file_synced false ∷ F.FileCalls.history file.old) }
    ensures opened { is_open.old ≡ false → OnOk result
        (F.FileCalls.history file.new ≡ file_synced true ∷ after_opening F.FileCalls file.old file.new) }
    ensures durable { OnOk result ((c : List ℕ)
        → told_images (F.FileCalls.first file.old) (F.FileCalls.history file.new) c
        → bytes_told F.FileCalls file.old ≡ Some c) }
    ensures stays { OnErr result ((c : List ℕ)
        → images_told F.FileCalls file.old c
        → told_images (F.FileCalls.first file.old) (F.FileCalls.history file.new) c) }
{
    prepare(file, is_open, sync_failed)?;
    sync_file(file, sync_failed)
}

/// Fills the buffer from a place on, as far as the file reaches.
pub fn read_of<F: FileCalls>(
    file: &mut F,
    is_open: &mut bool,
    sync_failed: &mut bool,
    place: u64,
    buf: &mut [u8],
) -> Result<usize, Failed>
    requires known { sync_failed.old ≡ has_failed_sync (F.FileCalls.history file.old) }
    requires state { is_open.old ≡ is_ready (F.FileCalls.history file.old) }
    ensures leaves { Leaves F.FileCalls file.old file.new (is_ok result) is_open.new sync_failed.new }
    ensures quiet { Quiet (F.FileCalls.first file.old) (F.FileCalls.history file.old) (F.FileCalls.history file.new) }
    ensures bound { ReadsAtMost result buf.new }
    ensures calls { is_open.old ≡ true → sync_failed.old ≡ false → MatchResult result
        (λ n. ReadsAll place (length buf.new) (take n buf.new)
        (F.FileCalls.history file.old) (F.FileCalls.history file.new))
        (λ _. ReadsPart place (length buf.new) (F.FileCalls.history file.old) (F.FileCalls.history file.new)) }
    ensures opened { is_open.old ≡ false → IfOk result
        (λ n. ReadsAll place (length buf.new) (take n buf.new)
        (after_opening F.FileCalls file.old file.new) (F.FileCalls.history file.new)) }
    ensures read { IfTold (bytes_told F.FileCalls file.old)
        (λ b. IfOk result (λ n. take n buf.new ≡ take n (drop place b))) }
    ensures count { IfTold (bytes_told F.FileCalls file.old)
        (λ b. IfOk result (λ n. n ≡ min (length buf.new) (length b - place))) }
{
    prepare(file, is_open, sync_failed)?;
    read_full(file, place, buf)
}

/// Writes the whole piece at a place.
pub fn write_of<F: FileCalls>(
    file: &mut F,
    is_open: &mut bool,
    sync_failed: &mut bool,
    place: u64,
    piece: &[u8],
) -> Result<(), Failed>
    requires known { sync_failed.old ≡ has_failed_sync (F.FileCalls.history file.old) }
    requires state { is_open.old ≡ is_ready (F.FileCalls.history file.old) }
    requires within { IfTold (bytes_told F.FileCalls file.old) (λ b. place ≤ length b) }
    ensures leaves { Leaves F.FileCalls file.old file.new (is_ok result) is_open.new sync_failed.new }
    ensures calls { is_open.old ≡ true → sync_failed.old ≡ false → MatchResult result
        (λ _. WritesAll place piece.now (F.FileCalls.history file.old) (F.FileCalls.history file.new))
        (λ _. WritesPart place piece.now (F.FileCalls.history file.old) (F.FileCalls.history file.new)) }
    ensures opened { is_open.old ≡ false → OnOk result
        (WritesAll place piece.now (after_opening F.FileCalls file.old file.new) (F.FileCalls.history file.new)) }
    ensures written { OnOk result (told_bytes (F.FileCalls.first file.old) (F.FileCalls.history file.new)
        ≡ option_map (put place piece.now) (bytes_told F.FileCalls file.old)) }
    ensures grows { Grows place (length piece.now)
        (F.FileCalls.first file.old) (F.FileCalls.history file.old) (F.FileCalls.history file.new) }
{
    prepare(file, is_open, sync_failed)?;
    write_full(file, place, piece)
}
