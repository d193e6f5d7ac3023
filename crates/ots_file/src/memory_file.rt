ghost use Rattle.std.specs.Prelude.{◌≡◌, ◌≤◌, ◌<◌, ◌+◌, ◌^◌, ◌-◌, true, false, Some, [], length, take, drop, min};
ghost use Rattle.std.specs.Prelude.{is_ok, vec_capacity, IfOk, OnOk, OnErr, ◌==◌};
ghost use Rattle.std.specs.List.{list_any};
ghost use Rattle.ots_disk.specs.Disk.{put};
ghost use Rattle.ots_file.specs.Events.{replay, has_failed_sync, IsHonest};
ghost use Rattle.ots_file.specs.Props.{honest_prop};
ghost use Rattle.ots_file.specs.Record.{events_of};

use crate::FileCalls;
use crate::record::Record;
use ots_base::OutOfMemory;
use ots_outside::Failed;
use std::alloc::Global;

const MAX_PLACE: u64 = (1 << 63) - 1;

/// A file in memory, for tests, with the device that it lies on, as Linux treats the two.
///
/// A write goes to the cache alone. A sync that answers `Ok` brings all that was written since to the
/// device. A sync that fails gives it up: it can still be read, but no later sync brings it to the
/// device. What is read is what the device held, and what was written since, as soon as the pages are
/// dropped; a read, a write or a length fails where they were not dropped since the file was opened.
/// After a failed sync dropping them fails, since what is read would change by it. A write past the
/// end fails.
///
/// Which call fails, and what the device holds after a failed sync, is said by no clause.
#[derive(Drop)]
pub struct MemoryFile {
    alloc: Global,
    first: Vec<u8>,
    bytes: Vec<u8>,
    // What the device holds once all that was written, and not given up, is brought to it.
    target: Vec<u8>,
    device: Vec<u8>,
    failing: Vec<u64>,
    most: usize,
    made: u64,
    is_settled: bool,
    gave_up: bool,
    log: Record,
    ghost some: { 0 < most },
    ghost truthful: { IsHonest first.items (events_of log) } by { honest_prop first.items (events_of log) },
    ghost read: { is_settled ≡ true → bytes.items ≡ (replay first.items (events_of log)).bytes },
    ghost whole: { gave_up ≡ false → target.items ≡ (replay first.items (events_of log)).bytes },
    ghost kept: { has_failed_sync (events_of log) ≡ false → gave_up ≡ false },
    ghost durable: { has_failed_sync (events_of log) ≡ false → device.items ≡ (replay first.items (events_of log)).durable },
    ghost longer: { length device.items ≤ length target.items },
}

impl MemoryFile {
    ghost use Rattle.ots_file.specs.MemoryFile.{memory_first, memory_history, memory_device};

    /// A file on a device that holds these bytes, with none of them in the cache. The calls of the
    /// numbers `failing` are to fail, the first being 1, and one read or one write takes at most so
    /// many bytes.
    pub fn new(
        alloc: Global,
        device: &[u8],
        failing: &[u64],
        most: usize,
    ) -> Result<MemoryFile, OutOfMemory>
        requires { 0 < most }
        ensures first { IfOk result (λ f. memory_first f ≡ device.now) }
        ensures fresh { IfOk result (λ f. memory_history f ≡ []) }
        ensures device { IfOk result (λ f. memory_device f ≡ device.now) }
    {
        Ok(MemoryFile {
            alloc,
            first: device.to_vec(alloc)?,
            bytes: Vec::new(alloc),
            target: device.to_vec(alloc)?,
            device: device.to_vec(alloc)?,
            failing: failing.to_vec(alloc)?,
            most,
            made: 0,
            is_settled: false,
            gave_up: false,
            log: Record::new(),
        })
    }

    /// What the device holds: where no sync failed, what the last one that answered `Ok` left.
    pub fn device(&self) -> &[u8]
        ensures value { result.now ≡ memory_device self.now }
        ensures durable { has_failed_sync (memory_history self.now) ≡ false →
            result.now ≡ (replay (memory_first self.now) (memory_history self.now)).durable }
    {
        &self.device
    }
}

impl FileCalls for MemoryFile {
    ghost history = { λ f. events_of f.log };

    ghost folder = { λ _. [] };

    ghost first = { λ f. Some f.first.items };

    ghost honest = { λ f. f.truthful };

    fn open(&mut self) -> Result<(), Failed> {
        self.is_settled = false;
        if fails(&mut self.made, &self.failing) {
            self.log.opened(&[], false);
            return Err(Failed);
        }
        self.log.opened(&[], true);
        Ok(())
    }

    fn sync_folder(&mut self) -> Result<(), Failed> {
        if fails(&mut self.made, &self.failing) {
            self.log.folder_synced(&[], false);
            return Err(Failed);
        }
        self.log.folder_synced(&[], true);
        Ok(())
    }

    fn drop_pages(&mut self) -> Result<(), Failed> {
        if fails(&mut self.made, &self.failing) || self.gave_up {
            self.log.pages_dropped(false);
            return Err(Failed);
        }
        match self.target.to_vec(self.alloc) {
            Ok(bytes) => {
                self.bytes = bytes;
                self.is_settled = true;
                self.log.pages_dropped(true);
                Ok(())
            }
            Err(_) => {
                self.log.pages_dropped(false);
                Err(Failed)
            }
        }
    }

    fn len(&mut self) -> Result<u64, Failed> {
        if fails(&mut self.made, &self.failing) || !self.is_settled {
            self.log.measured(false, 0);
            return Err(Failed);
        }
        let n = self.bytes.len() as u64;
        self.log.measured(true, n);
        Ok(n)
    }

    fn read_some(&mut self, place: u64, buf: &mut [u8]) -> Result<usize, Failed> {
        let asked = buf.len() as u64;
        if fails(&mut self.made, &self.failing) || !self.is_settled || place > MAX_PLACE {
            self.log.got(place, asked, false, &[]);
            return Err(Failed);
        }
        let n = copy_from(&self.bytes, place, self.most, buf);
        self.log.got(place, asked, true, &buf[..n]);
        Ok(n)
    }

    fn write_some(&mut self, place: u64, piece: &[u8]) -> Result<usize, Failed> {
        let end = self.bytes.len() as u64;
        if fails(&mut self.made, &self.failing) || !self.is_settled || place > end.min(MAX_PLACE) {
            self.log.wrote(place, piece, false, 0);
            return Err(Failed);
        }
        let n = piece.len().min(self.most);
        match put_in_both(
            &mut self.bytes,
            &mut self.target,
            place as usize,
            &piece[..n],
        ) {
            Ok(()) => {
                self.log.wrote(place, piece, true, n as u64);
                Ok(n)
            }
            Err(OutOfMemory) => {
                self.log.wrote(place, piece, false, 0);
                Err(Failed)
            }
        }
    }

    fn sync(&mut self) -> Result<(), Failed> {
        if fails(&mut self.made, &self.failing) || bring(&mut self.device, &self.target).is_err() {
            give_up(&mut self.target, &self.device);
            self.gave_up = true;
            self.log.synced(false);
            return Err(Failed);
        }
        self.log.synced(true);
        Ok(())
    }
}

/// Counts a call, and answers whether it is to fail.
fn fails(made: &mut u64, failing: &[u64]) -> bool
    ensures number { made.new ≡ min (made.old + 1) (2 ^ 64 - 1) }
    ensures listed { result ≡ list_any (λ number. number == made.new) failing.now }
{
    *made = made.saturating_add(1);
    failing.contains(made)
}

/// Copies at most `most` bytes from a place on to the start of a buffer.
fn copy_from(bytes: &[u8], place: u64, most: usize, buf: &mut [u8]) -> usize
    requires { 0 < most }
    ensures within { result ≤ length buf.new }
    ensures prefix { take result buf.new ≡ take result (drop place bytes.now) }
    ensures end { 0 < length buf.old → result ≡ 0 → length bytes.now ≤ place }
{
    let from = place.min(bytes.len() as u64) as usize;
    let rest = &bytes[from..];
    let count = rest.len().min(buf.len()).min(most);
    buf[..count].copy_from_slice(&rest[..count]);
    count
}

/// Writes a piece to the cache, and to what the device is to hold.
fn put_in_both(
    bytes: &mut Vec<u8>,
    target: &mut Vec<u8>,
    place: usize,
    piece: &[u8],
) -> Result<(), OutOfMemory>
    requires { place ≤ length bytes.old.items }
    ensures bytes { OnOk result (bytes.new.items ≡ put place piece.now bytes.old.items) }
    ensures same { OnErr result (bytes.new.items ≡ bytes.old.items) }
    ensures target { place ≤ length target.old.items
        → OnOk result (target.new.items ≡ put place piece.now target.old.items) }
    ensures kept { place ≤ length target.old.items
        → OnErr result (target.new.items ≡ target.old.items) }
    ensures longer { length target.old.items ≤ length target.new.items }
{
    bytes.reserve(piece.len())?;
    pad(target, place)?;
    target.reserve(piece.len())?;
    put_over(bytes, place, piece);
    put_over(target, place, piece);
    Ok(())
}

/// Fills up to a place with zeros, where what was before it was given up.
fn pad(bytes: &mut Vec<u8>, place: usize) -> Result<(), OutOfMemory>
    ensures same { place ≤ length bytes.old.items → (is_ok result ≡ true) × (bytes.new.items ≡ bytes.old.items) }
    ensures reaches { OnOk result (place ≤ length bytes.new.items) }
    ensures longer { length bytes.old.items ≤ length bytes.new.items }
{
    if bytes.len() < place {
        bytes.resize(place, 0)?;
    }
    Ok(())
}

/// Writes a piece over what is there, and past the end.
fn put_over(bytes: &mut Vec<u8>, place: usize, piece: &[u8])
    requires at { place ≤ length bytes.old.items }
    requires fits { length bytes.old.items + length piece.now ≤ vec_capacity bytes.old }
    ensures { bytes.new.items ≡ put place piece.now bytes.old.items }
{
    let over = piece.len().min(bytes.len() - place);
    copy_over(bytes, place, &piece[..over]);
    bytes.extend_from_slice(&piece[over..]).unwrap();
}

/// Copies a piece over the bytes from a place on.
fn copy_over(bytes: &mut [u8], place: usize, piece: &[u8])
    requires { place + length piece.now ≤ length bytes.old }
    ensures { bytes.new ≡ put place piece.now bytes.old }
{
    bytes[place..place + piece.len()].copy_from_slice(piece);
}

/// Brings to the device what it is to hold.
fn bring(device: &mut Vec<u8>, target: &[u8]) -> Result<(), OutOfMemory>
    requires { length device.old.items ≤ length target.now }
    ensures brought { OnOk result (device.new.items ≡ target.now) }
    ensures same { OnErr result (device.new.items ≡ device.old.items) }
{
    let more = device.len();
    device.extend_from_slice(&target[more..])?;
    device.copy_from_slice(target);
    Ok(())
}

/// Gives up what the device does not hold.
fn give_up(target: &mut Vec<u8>, device: &[u8])
    requires { length device.now ≤ length target.old.items }
    ensures { target.new.items ≡ device.now }
{
    target.truncate(device.len());
    target.copy_from_slice(device);
}
