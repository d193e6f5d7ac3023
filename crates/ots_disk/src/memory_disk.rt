//! A disk in memory, which notes its calls and fails those that it is told to fail.
ghost use Rattle.std.specs.Prelude.{◌≡◌, ◌≤◌, ◌+◌, ◌-◌, [], ℕ, List, false, length, min, take, drop, Some, IfOk, OnOk};
ghost use Rattle.std.specs.Prelude.{OnErr, is_err};
ghost use Rattle.std.specs.Io.{ReadsAtMost};
ghost use Rattle.std.specs.Option.{option_map};
ghost use Rattle.ots_base.specs.Cause.{HasCause};
ghost use Rattle.ots_base.specs.Told.{IfTold};
ghost use Rattle.ots_disk.specs.Choice.{chosen, state_in};
ghost use Rattle.ots_disk.specs.Disk.{Elapses, Follows, Tears, Torn, put};
ghost use Rattle.ots_disk.specs.History.{IsImage, ImagesSince};
ghost use Rattle.ots_disk.specs.Laws.{bytes_are_image, counts_now, only_now};
ghost use Rattle.ots_disk.specs.MemoryDisk.{MemoryDiskTold, state_of, is_past, fails, after, is_write};

use crate::contents::Contents;
use crate::image::image_in;
use crate::notes::Notes;
use crate::spare_pieces::SparePieces;
use crate::{Choice, Disk, DiskCall, DiskRoom, MadeCall};
use ots_base::OutOfMemory;
use ots_outside::{Bytes, Failed};
use std::alloc::Global;
use std::marker::Model;

/// A file in memory, which keeps a list of all calls. Its memory is reserved when it is made.
///
/// A call fails exactly where its number is listed to fail, or where it goes past the room. A
/// listed one is in the list of calls as one that failed; a listed write leaves what is read as it
/// was, and its range may hold any bytes after a crash. One past the room is not in the list, and
/// changes nothing but the count of faults.
#[derive(Drop)]
pub struct MemoryDisk {
    alloc: Global,
    first: Vec<u8>,
    contents: Contents,
    notes: Notes,
    spare: SparePieces,
}

impl Model for MemoryDisk {
    ghost use Rattle.std.specs.Prelude.{◌≡◌, ◌≤◌, ◌+◌, length};
    ghost use Rattle.ots_disk.specs.History.{start, after_calls};
    ghost use Rattle.ots_disk.specs.MemoryDisk.{MemoryDiskTold};

    ghost Value = { MemoryDiskTold };

    ghost view = { λ d. record {
      first = d.first.items;
      notes = d.notes;
      write_room = d.spare.room;
      file_room = d.contents.room;
    } };

    ghost invariant = { λ d. (d.contents.bytes ≡ (after_calls (start d.first.items) d.notes.calls).bytes)
        × (d.notes.room ≤ d.spare.left + length d.notes.calls) };
}

impl MemoryDisk {
    /// A disk with these bytes, all of them durable, and this room. The calls of the numbers
    /// `failing` fail, the first call being number 1.
    pub fn new(
        alloc: Global,
        bytes: &[u8],
        room: DiskRoom,
        failing: &[u64],
    ) -> Result<MemoryDisk, OutOfMemory>
        ensures bytes { IfOk result (λ d. d.first ≡ bytes.now) }
        ensures notes { IfOk result (λ d. d.notes ≡ record {
          calls = [];
          room = room.calls;
          failing = failing.now;
          faults = 0;
        }) }
        ensures write_room { IfOk result (λ d. d.write_room ≡ room.write) }
        ensures file_room { IfOk result (λ d. d.file_room ≡ room.file) }
    {
        Ok(MemoryDisk {
            alloc,
            first: bytes.to_vec(alloc)?,
            contents: Contents::new(alloc, bytes, room.file)?,
            notes: Notes::new(alloc, room.calls, failing)?,
            spare: SparePieces::new(alloc, room.calls, room.write)?,
        })
    }

    /// The bytes that a read gives.
    pub fn bytes(&self) -> &[u8]
        ensures { result.now ≡ (state_of self.now).bytes }
    {
        self.contents.bytes()
    }

    /// The calls made, in order.
    pub fn calls(&self) -> &[MadeCall]
        ensures { result.now ≡ self.now.notes.calls }
    {
        self.notes.calls()
    }

    /// One of the images that a crash in the middle of a call may leave, by the call's number, of
    /// which the first is 1. The pending writes are those since the last sync before it that
    /// answered `Ok`, with that of this call. One more than the number of calls is now.
    pub fn image(&self, moment: u64, choice: Choice) -> Result<Bytes, OutOfMemory>
        requires first { 1 ≤ moment }
        requires last { moment ≤ length self.now.notes.calls + 1 }
        ensures chosen { IfOk result (λ image. image ≡ chosen choice (state_in self.now moment).durable
            (state_in self.now moment).pending) }
        ensures is_image { IfOk result (λ image. IsImage (state_in self.now moment) image) }
    {
        let before = moment as usize - 1;
        let calls = self.notes.calls();
        let image = image_in(self.alloc, &self.first, calls, before, choice)?;
        Ok(Bytes::from_vec(image))
    }

    /// Whether a write goes past what was reserved.
    fn is_past(&self, place: u64, piece: &[u8]) -> bool
        ensures { result ≡ is_past self.now (DiskCall.Write place piece.now) }
    {
        let room = self.contents.room();
        piece.len() > self.spare.room() || piece.len() > room || place > (room - piece.len()) as u64
    }

    /// Makes a call that writes nothing.
    fn make(&mut self, call: DiskCall) -> Result<(), Failed>
        requires { is_write call ≡ false }
        ensures failed { is_err result ≡ fails self.old call }
        ensures noted { self.new ≡ after self.old call }
        ensures same { (state_of self.new).bytes ≡ (state_of self.old).bytes }
        ensures cause { HasCause self.old.notes.faults self.new.notes.faults result }
    {
        self.notes.note(call)
    }

    /// Makes a call that writes.
    fn make_write(&mut self, place: u64, piece: &[u8]) -> Result<(), Failed>
        requires { place ≤ length (state_of self.old).bytes }
        ensures failed { is_err result ≡ fails self.old (DiskCall.Write place piece.now) }
        ensures noted { self.new ≡ after self.old (DiskCall.Write place piece.now) }
        ensures cause { HasCause self.old.notes.faults self.new.notes.faults result }
    {
        if self.is_past(place, piece) || self.notes.is_full() {
            self.notes.refuse();
            return Err(Failed);
        }
        let copy = self.spare.fill(piece);
        match self.notes.note(DiskCall::Write(place, copy)) {
            Ok(()) => {
                self.contents.put(place as usize, piece);
                Ok(())
            }
            Err(Failed) => Err(Failed),
        }
    }
}

impl Disk for MemoryDisk {
    ghost bytes = { λ d. Some (state_of d).bytes };

    ghost images = { λ d. IsImage (state_of d) };

    ghost clock = { λ d. length d.notes.calls };

    ghost images_since = { λ d. ImagesSince d.first d.notes.calls };

    ghost faults = { λ d. d.notes.faults };

    ghost read_is_image = { λ d. bytes_are_image d.first d.notes.calls };

    ghost counts_now = { λ d. counts_now d.first d.notes.calls };

    ghost only_now = { λ d. only_now d.first d.notes.calls };

    fn faults(&self) -> u64 {
        self.notes.faults()
    }

    fn len(&mut self) -> Result<u64, Failed>
        ensures length { IfOk result (λ n. n ≡ length (state_of self.old).bytes) }
        ensures same { Some (state_of self.new).bytes ≡ Some (state_of self.old).bytes }
        ensures no_more { (c : List ℕ) → IsImage (state_of self.new) c → IsImage (state_of self.old) c }
        ensures time { Elapses (length self.old.notes.calls) (length self.new.notes.calls)
            (ImagesSince self.old.first self.old.notes.calls) (ImagesSince self.new.first self.new.notes.calls)
            (IsImage (state_of self.new)) }
        ensures cause { HasCause self.old.notes.faults self.new.notes.faults result }
        ensures failed { is_err result ≡ fails self.old DiskCall.Length }
        ensures noted { self.new ≡ after self.old DiskCall.Length }
    {
        let length = self.contents.bytes().len() as u64;
        if self.make(DiskCall::Length).is_err() {
            return Err(Failed);
        }
        Ok(length)
    }

    fn read_at(&mut self, place: u64, buf: &mut [u8]) -> Result<usize, Failed>
        ensures bound { ReadsAtMost result buf.new }
        ensures read { IfOk result (λ n. take n buf.new ≡ take n (drop place (state_of self.old).bytes)) }
        ensures count { IfOk result (λ n. n ≡ min (length buf.new) (length (state_of self.old).bytes - place)) }
        ensures same { Some (state_of self.new).bytes ≡ Some (state_of self.old).bytes }
        ensures no_more { (c : List ℕ) → IsImage (state_of self.new) c → IsImage (state_of self.old) c }
        ensures time { Elapses (length self.old.notes.calls) (length self.new.notes.calls)
            (ImagesSince self.old.first self.old.notes.calls) (ImagesSince self.new.first self.new.notes.calls)
            (IsImage (state_of self.new)) }
        ensures cause { HasCause self.old.notes.faults self.new.notes.faults result }
        ensures failed { is_err result ≡ fails self.old DiskCall.Read }
        ensures noted { self.new ≡ after self.old DiskCall.Read }
    {
        if self.make(DiskCall::Read).is_err() {
            return Err(Failed);
        }
        Ok(copy_from(self.contents.bytes(), place, buf))
    }

    fn write_at(&mut self, place: u64, piece: &[u8]) -> Result<(), Failed>
        requires { place ≤ length (state_of self.old).bytes }
        ensures written { OnOk result (Some (state_of self.new).bytes
            ≡ Some (put place piece.now (state_of self.old).bytes)) }
        ensures failed_write { OnErr result (Torn place (length piece.now) (state_of self.old).bytes
            (state_of self.new).bytes) }
        ensures torn { Follows (Torn place (length piece.now)) (IsImage (state_of self.old))
            (IsImage (state_of self.new)) }
        ensures time { Elapses (length self.old.notes.calls) (length self.new.notes.calls)
            (ImagesSince self.old.first self.old.notes.calls) (ImagesSince self.new.first self.new.notes.calls)
            (IsImage (state_of self.new)) }
        ensures cause { HasCause self.old.notes.faults self.new.notes.faults result }
        ensures failed { is_err result ≡ fails self.old (DiskCall.Write place piece.now) }
        ensures noted { self.new ≡ after self.old (DiskCall.Write place piece.now) }
    {
        self.make_write(place, piece)
    }

    fn sync(&mut self) -> Result<(), Failed>
        ensures durable { OnOk result ((c : List ℕ) → IsImage (state_of self.new) c
            → Some (state_of self.old).bytes ≡ Some c) }
        ensures failed_sync { OnErr result ((c : List ℕ) → IsImage (state_of self.old) c
            → IsImage (state_of self.new) c) }
        ensures same { Some (state_of self.new).bytes ≡ Some (state_of self.old).bytes }
        ensures no_more { (c : List ℕ) → IsImage (state_of self.new) c → IsImage (state_of self.old) c }
        ensures time { Elapses (length self.old.notes.calls) (length self.new.notes.calls)
            (ImagesSince self.old.first self.old.notes.calls) (ImagesSince self.new.first self.new.notes.calls)
            (IsImage (state_of self.new)) }
        ensures cause { HasCause self.old.notes.faults self.new.notes.faults result }
        ensures failed { is_err result ≡ fails self.old DiskCall.Sync }
        ensures noted { self.new ≡ after self.old DiskCall.Sync }
    {
        self.make(DiskCall::Sync)
    }
}

/// Copies the bytes from a place on to the start of a buffer, as many as there are room and bytes.
fn copy_from(bytes: &[u8], place: u64, buf: &mut [u8]) -> usize
    ensures count { result ≡ min (length buf.new) (length bytes.now - place) }
    ensures prefix { take result buf.new ≡ take result (drop place bytes.now) }
{
    let from = place.min(bytes.len() as u64) as usize;
    let rest = &bytes[from..];
    let count = rest.len().min(buf.len());
    buf[..count].copy_from_slice(&rest[..count]);
    count
}
