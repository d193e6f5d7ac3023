ghost use Rattle.std.specs.Prelude.{◌≡◌, ◌≤◌, ◌-◌, [], ◌∷◌, ℕ, List, Option, Some, true, false, length, take, drop};
ghost use Rattle.std.specs.Prelude.{min, is_err, IfOk, OnOk, OnErr, MatchResult, if◌then◌else◌};
ghost use Rattle.std.specs.Io.{ReadsAtMost};
ghost use Rattle.std.specs.Option.{option_map};
ghost use Rattle.ots_base.specs.Cause.{HasCause, one_more};
ghost use Rattle.ots_base.specs.Told.{IfTold};
ghost use Rattle.ots_disk.specs.Disk.{put, Torn, Tears, Follows};
ghost use Rattle.ots_file.specs.Events.{has_failed_sync, is_ready};

use crate::FileCalls;
use crate::runs::{length_of, read_of, sync_of, write_of};
use ots_disk::Disk;
use ots_outside::{Count, Failed};

/// A disk over the calls of a file. The first call opens the file: it is opened, synced, its pages
/// are dropped, so that what is read is what the device holds, and its folder is synced. Where one of
/// these calls fails the next call of the disk opens it anew.
///
/// After a failed sync, of the file or of its folder, the system may have given up what was written,
/// and report no further error. So from then on each call is a counted fault, and none is made of the
/// file any more. A disk of a file of which the first bytes are not told tells nothing of its bytes.
#[derive(Drop)]
pub struct FileDisk<F: FileCalls> {
    file: F,
    is_open: bool,
    sync_failed: bool,
    faults: Count,
    ghost open: { is_open ≡ is_ready (F.FileCalls.history file) },
    ghost failed: { sync_failed ≡ has_failed_sync (F.FileCalls.history file) },
}

impl<F: FileCalls> FileDisk<F> {
    ghost use Rattle.ots_file.specs.FileDisk.{file_of, disk_faults};

    /// The disk over this file, of which no call was made yet.
    pub fn new(file: F) -> FileDisk<F>
        requires { F.FileCalls.history file ≡ [] }
        ensures file { file_of result ≡ file }
        ensures none { disk_faults result ≡ 0 }
    {
        FileDisk {
            file,
            is_open: false,
            sync_failed: false,
            faults: Count::new(),
        }
    }

    /// The file.
    pub fn file(&self) -> &F
        ensures { result.now ≡ file_of self.now }
    {
        &self.file
    }

    /// The file, with the disk given up.
    pub fn into_file(self) -> F
        ensures { result ≡ file_of self }
    {
        self.file
    }
}

impl<F: FileCalls> Disk for FileDisk<F> {
    ghost use Rattle.ots_file.specs.Events.FileEvent.{measured, synced};
    ghost use Rattle.ots_file.specs.FileDisk.{disk_faults, history_of, is_open, is_broken, opened_from, bytes_of};
    ghost use Rattle.ots_file.specs.FileDisk.{images_of, since_of, clock_of, TimePasses, Answers};
    ghost use Rattle.ots_file.specs.Runs.{ReadsAll, ReadsPart, WritesAll, WritesPart};
    ghost use Rattle.ots_file.specs.Told.{read_is_image as reads_image, counts_now as now_counts, only_now as now_only};

    ghost bytes = { bytes_of };

    ghost images = { images_of };

    ghost clock = { clock_of };

    ghost images_since = { since_of };

    ghost faults = { disk_faults };

    ghost read_is_image = { λ d. reads_image (F.FileCalls.first d.file) (F.FileCalls.history d.file) };

    ghost counts_now = { λ d. now_counts (F.FileCalls.first d.file) (F.FileCalls.history d.file) };

    ghost only_now = { λ d. now_only (F.FileCalls.first d.file) (F.FileCalls.history d.file) };

    fn faults(&self) -> u64 {
        self.faults.value()
    }

    fn len(&mut self) -> Result<u64, Failed>
        ensures length { IfTold (bytes_of self.old) (λ b. IfOk result (λ n. n ≡ length b)) }
        ensures same { bytes_of self.new ≡ bytes_of self.old }
        ensures no_more { (c : List ℕ) → images_of self.new c → images_of self.old c }
        ensures time { TimePasses self.old self.new }
        ensures cause { HasCause self.old.faults self.new.faults result }
        ensures answers { Answers self.old self.new result }
        ensures noted { is_open self.old ≡ true → is_broken self.old ≡ false → MatchResult result
            (λ n. history_of self.new ≡ measured true n ∷ history_of self.old)
            (λ _. history_of self.new ≡ measured false 0 ∷ history_of self.old) }
        ensures opened { is_open self.old ≡ false →
            IfOk result (λ n. history_of self.new ≡ measured true n ∷ opened_from self.old self.new) }
    {
        let answer = length_of(&mut self.file, &mut self.is_open, &mut self.sync_failed);
        counted(&mut self.faults, answer)
    }

    fn read_at(&mut self, place: u64, buf: &mut [u8]) -> Result<usize, Failed>
        ensures bound { ReadsAtMost result buf.new }
        ensures read { IfTold (bytes_of self.old) (λ b. IfOk result (λ n. take n buf.new ≡ take n (drop place b))) }
        ensures count { IfTold (bytes_of self.old)
            (λ b. IfOk result (λ n. n ≡ min (length buf.new) (length b - place))) }
        ensures same { bytes_of self.new ≡ bytes_of self.old }
        ensures no_more { (c : List ℕ) → images_of self.new c → images_of self.old c }
        ensures time { TimePasses self.old self.new }
        ensures cause { HasCause self.old.faults self.new.faults result }
        ensures answers { Answers self.old self.new result }
        ensures calls { is_open self.old ≡ true → is_broken self.old ≡ false → MatchResult result
            (λ n. ReadsAll place (length buf.new) (take n buf.new) (history_of self.old) (history_of self.new))
            (λ _. ReadsPart place (length buf.new) (history_of self.old) (history_of self.new)) }
        ensures opened { is_open self.old ≡ false → IfOk result
            (λ n. ReadsAll place (length buf.new) (take n buf.new)
            (opened_from self.old self.new) (history_of self.new)) }
    {
        let answer = read_of(
            &mut self.file,
            &mut self.is_open,
            &mut self.sync_failed,
            place,
            buf,
        );
        counted(&mut self.faults, answer)
    }

    fn write_at(&mut self, place: u64, piece: &[u8]) -> Result<(), Failed>
        requires { IfTold (bytes_of self.old) (λ b. place ≤ length b) }
        ensures written { OnOk result (bytes_of self.new ≡ option_map (put place piece.now) (bytes_of self.old)) }
        ensures failed { OnErr result (Tears (Torn place (length piece.now)) (bytes_of self.old) (bytes_of self.new)) }
        ensures torn { Follows (Torn place (length piece.now)) (images_of self.old) (images_of self.new) }
        ensures time { TimePasses self.old self.new }
        ensures cause { HasCause self.old.faults self.new.faults result }
        ensures answers { Answers self.old self.new result }
        ensures calls { is_open self.old ≡ true → is_broken self.old ≡ false → MatchResult result
            (λ _. WritesAll place piece.now (history_of self.old) (history_of self.new))
            (λ _. WritesPart place piece.now (history_of self.old) (history_of self.new)) }
        ensures opened { is_open self.old ≡ false →
            OnOk result (WritesAll place piece.now (opened_from self.old self.new) (history_of self.new)) }
    {
        let answer = write_of(
            &mut self.file,
            &mut self.is_open,
            &mut self.sync_failed,
            place,
            piece,
        );
        counted(&mut self.faults, answer)
    }

    fn sync(&mut self) -> Result<(), Failed>
        ensures durable { OnOk result ((c : List ℕ) → images_of self.new c → bytes_of self.old ≡ Some c) }
        ensures failed { OnErr result ((c : List ℕ) → images_of self.old c → images_of self.new c) }
        ensures same { bytes_of self.new ≡ bytes_of self.old }
        ensures no_more { (c : List ℕ) → images_of self.new c → images_of self.old c }
        ensures time { TimePasses self.old self.new }
        ensures cause { HasCause self.old.faults self.new.faults result }
        ensures answers { Answers self.old self.new result }
        ensures noted { is_open self.old ≡ true → is_broken self.old ≡ false → MatchResult result
            (λ _. history_of self.new ≡ synced true ∷ history_of self.old)
            (λ _. history_of self.new ≡ synced false ∷ history_of self.old) }
        ensures opened { is_open self.old ≡ false →
            OnOk result (history_of self.new ≡ synced true ∷ opened_from self.old self.new) }
    {
        let answer = sync_of(&mut self.file, &mut self.is_open, &mut self.sync_failed);
        counted(&mut self.faults, answer)
    }
}

/// The answer of a run of calls, whose failure is counted.
fn counted<T: Drop>(faults: &mut Count, answer: Result<T, Failed>) -> Result<T, Failed>
    ensures same { result ≡ answer }
    ensures cause { HasCause faults.old faults.new result }
    ensures count { faults.new ≡ (if is_err answer then one_more faults.old else faults.old) }
{
    match answer {
        Ok(value) => Ok(value),
        Err(Failed) => {
            faults.rise();
            Err(Failed)
        }
    }
}
