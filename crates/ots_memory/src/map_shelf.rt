ghost use Rattle.std.specs.Prelude.{◌≡◌, ◌<◌, ℕ, [], length, min, Option, Some, None, IsTrue, is_err, IsErrOf, IfOk};
ghost use Rattle.std.specs.Prelude.{OnErr, MatchOption, is_ok, if◌then◌else◌, unwrap_or};
ghost use Rattle.std.specs.FinMap as map;
ghost use Rattle.std.specs.Io.{ReadsAtMost, WritesAtMost};
ghost use Rattle.std.specs.Result.{result_err};
ghost use Rattle.ots_base.specs.Cause.{HasCause, HasCauseWhere, CountsWhere};
ghost use Rattle.ots_memory.specs.Calls.{is_next_listed, after_call, faults_after};
ghost use Rattle.ots_memory.specs.Entries.{IsConsistent, HasMemory};
ghost use Rattle.ots_memory.specs.MapShelfTold.{is_name_refused as refused_name};
ghost use Rattle.ots_outside.specs.Streams.{Reads};
ghost use Rattle.ots_outside.specs.Shelf.{closed, OnlyOpening, OnlyReading, OnlyWriting, is_reading, is_writing};
ghost use Rattle.ots_outside.specs.Shelf.{left_of, name_of, SameButSlot, SameButNames, Stays, Opens, OpensWhere};
ghost use Rattle.ots_outside.specs.Shelf.{Creates, CreatesWhere, WritesTo};

use crate::append::is_append_refused;
use crate::calls::Calls;
use crate::entries::{Entry, SlotState, add_entry, add_slot, find_entry, spare_entries};
use crate::{PutError, ShelfRoom};
use ots_base::OutOfMemory;
use ots_outside::{Count, CreateError, Failed, OpenError, Shelf, Slot};
use std::alloc::Global;

/// Names with bytes, in memory that is reserved when the shelf is made.
///
/// A call of `open`, `read`, `create` or `write` that is not refused as `NotThere` or `Exists`
/// fails exactly where its number is listed to fail, or where it passes the room that is left. A
/// name that is opened is read up to where it ended at that moment, also if it is written later.
#[derive(Drop)]
pub struct MapShelf {
    entries: Vec<Entry>,
    spare: Vec<Entry>,
    slots: Vec<SlotState>,
    opened_places: Vec<usize>,
    room: ShelfRoom,
    calls: Calls,
    open_faults: Count,
    read_faults: Count,
    write_faults: Count,
    ghost consistent: { IsConsistent entries.items slots.items opened_places.items },
    ghost memory: { HasMemory entries spare slots opened_places room },
}

impl MapShelf {
    ghost use Rattle.ots_memory.specs.MapShelf.{tells};
    ghost use Rattle.ots_memory.specs.MapShelfTold.{put_refusal, with_name_less};

    /// A shelf with no names and this room. The calls of the numbers `failing` fail: `open`,
    /// `read`, `create` and `write` are counted together, the first being number 1.
    pub fn new(alloc: Global, room: ShelfRoom, failing: &[u64]) -> Result<MapShelf, OutOfMemory>
        ensures names { IfOk result (λ shelf. (tells shelf).names ≡ map.empty) }
        ensures opened { IfOk result (λ shelf. (tells shelf).opened ≡ []) }
        ensures slots { IfOk result (λ shelf. (k : ℕ) → (tells shelf).slots k ≡ closed) }
        ensures room { IfOk result (λ shelf. (tells shelf).room ≡ room) }
        ensures calls { IfOk result (λ shelf. (tells shelf).calls ≡ record { failing = failing.now; made = 0 }) }
        ensures faults { IfOk result (λ shelf. (tells shelf).faults
            ≡ record { opening = 0; reading = 0; writing = 0 }) }
    {
        Ok(MapShelf {
            entries: Vec::with_capacity(alloc, room.names)?,
            spare: spare_entries(alloc, room)?,
            slots: Vec::with_capacity(alloc, room.slots as usize)?,
            opened_places: Vec::with_capacity(alloc, room.slots as usize)?,
            room,
            calls: Calls::new(alloc, failing)?,
            open_faults: Count::new(),
            read_faults: Count::new(),
            write_faults: Count::new(),
        })
    }

    /// Puts a name with these bytes, as before a test. It is no call of the shelf's, so it is not
    /// counted, and takes no slot.
    pub fn put(&mut self, name: &str, bytes: &[u8]) -> Result<(), PutError>
        ensures refusal { result_err result ≡ put_refusal (tells self.old) name.now bytes.now }
        ensures names { (tells self.new).names ≡ (if is_ok result
            then map.insert (tells self.old).names name.now bytes.now else (tells self.old).names) }
        ensures opened { (tells self.new).opened ≡ (tells self.old).opened }
        ensures slots { (k : ℕ) → (tells self.new).slots k ≡ (tells self.old).slots k }
        ensures room { (tells self.new).room ≡ (if is_ok result then with_name_less (tells self.old).room
            else (tells self.old).room) }
        ensures calls { (tells self.new).calls ≡ (tells self.old).calls }
        ensures faults { (tells self.new).faults ≡ (tells self.old).faults }
    {
        if find_entry(&self.entries, name).is_some() {
            return Err(PutError::Exists);
        }
        if is_name_refused(self.room, name, bytes) {
            return Err(PutError::NoRoom);
        }
        add_entry(&mut self.entries, &mut self.spare, self.room, name, bytes);
        self.room.names -= 1;
        Ok(())
    }

    /// The bytes that a name holds, where it is there.
    pub fn bytes_of(&self, name: &str) -> Option<&[u8]>
        ensures { MatchOption result (map.get (tells self.now).names name.now ≡ None)
            (λ bytes. map.get (tells self.now).names name.now ≡ Some bytes.now) }
    {
        let entry = find_entry(&self.entries, name)?;
        Some(&self.entries[entry].bytes)
    }
}

impl Shelf for MapShelf {
    ghost use Rattle.ots_memory.specs.MapShelf.{tells};
    ghost use Rattle.ots_memory.specs.MapShelfTold.{shelf_told, open_refusal, create_refusal, is_append_refused};
    ghost use Rattle.ots_memory.specs.MapShelfTold.{with_slot_less, with_name_less, faults_after_open};
    ghost use Rattle.ots_memory.specs.MapShelfTold.{faults_after_create};

    ghost told = { λ s. shelf_told (tells s) };

    ghost faults = { λ s. (tells s).faults };

    fn open(&mut self, name: &str) -> Result<Slot, OpenError>
        ensures ok { IfOk result (λ slot. Opens name.now slot.0 (shelf_told (tells self.old))
            (shelf_told (tells self.new))) }
        ensures err { OnErr result (Stays (shelf_told (tells self.old)) (shelf_told (tells self.new))) }
        ensures not_there { OpensWhere (map.get (tells self.old).names name.now) result }
        ensures cause { HasCauseWhere (IsErrOf result OpenError.Failed) (tells self.old).faults.opening
            (tells self.new).faults.opening }
        ensures counts { OnlyOpening (tells self.old).faults (tells self.new).faults }
        ensures short { CountsWhere (IsErrOf result OpenError.OutOfMemory) (shelf_told (tells self.old)).short
            (shelf_told (tells self.new)).short }
        ensures refusal { result_err result ≡ open_refusal (tells self.old) name.now }
        ensures room { (tells self.new).room ≡ (if is_ok result then with_slot_less (tells self.old).room
            else (tells self.old).room) }
        ensures calls { (tells self.new).calls ≡ after_call (tells self.old).calls }
        ensures faults { (tells self.new).faults.opening ≡ faults_after_open (tells self.old).faults.opening result }
    {
        let listed = self.calls.count();
        let Some(entry) = find_entry(&self.entries, name) else {
            return Err(OpenError::NotThere);
        };
        if listed || self.room.slots == 0 {
            self.open_faults.rise();
            return Err(OpenError::Failed);
        }
        let end = self.entries[entry].bytes.len();
        let reading = SlotState::Reading {
            entry,
            place: 0,
            end,
        };
        self.opened_places.push(entry).unwrap();
        Ok(add_slot(&mut self.slots, &mut self.room.slots, reading))
    }

    fn read(&mut self, slot: Slot, buf: &mut [u8]) -> Result<usize, Failed>
        requires { IsTrue (is_reading ((tells self.old).slots slot.0)) }
        ensures bound { ReadsAtMost result buf.new }
        ensures bytes { Reads (left_of ((tells self.old).slots slot.0)) (left_of ((tells self.new).slots slot.0)) result
            buf.new }
        ensures cause { HasCause (tells self.old).faults.reading (tells self.new).faults.reading result }
        ensures counts { OnlyReading (tells self.old).faults (tells self.new).faults }
        ensures open { IsTrue (is_reading ((tells self.new).slots slot.0)) }
        ensures others { SameButSlot slot.0 (shelf_told (tells self.old)) (shelf_told (tells self.new)) }
        ensures failed { is_err result ≡ is_next_listed (tells self.old).calls }
        ensures count { IfOk result
            (λ count. count ≡ min (length (unwrap_or (left_of ((tells self.old).slots slot.0)) [])) (length buf.old)) }
        ensures room { (tells self.new).room ≡ (tells self.old).room }
        ensures calls { (tells self.new).calls ≡ after_call (tells self.old).calls }
        ensures faults { (tells self.new).faults.reading ≡ faults_after (tells self.old).faults.reading result }
    {
        if self.calls.count() {
            self.read_faults.rise();
            return Err(Failed);
        }
        let at = slot.0 as usize;
        let SlotState::Reading { entry, place, end } = self.slots[at] else {
            unreachable!()
        };
        let bytes: &[u8] = &self.entries[entry].bytes;
        let rest = &bytes[place..end];
        let count = rest.len().min(buf.len());
        buf[..count].copy_from_slice(&rest[..count]);
        let place = place + count;
        self.slots[at] = SlotState::Reading { entry, place, end };
        Ok(count)
    }

    fn create(&mut self, name: &str) -> Result<Slot, CreateError>
        ensures ok { IfOk result (λ slot. Creates name.now slot.0 (shelf_told (tells self.old))
            (shelf_told (tells self.new))) }
        ensures err { OnErr result (Stays (shelf_told (tells self.old)) (shelf_told (tells self.new))) }
        ensures exists { CreatesWhere (map.get (tells self.old).names name.now) result }
        ensures cause { HasCauseWhere (IsErrOf result CreateError.Failed) (tells self.old).faults.writing
            (tells self.new).faults.writing }
        ensures counts { OnlyWriting (tells self.old).faults (tells self.new).faults }
        ensures short { CountsWhere (IsErrOf result CreateError.OutOfMemory) (shelf_told (tells self.old)).short
            (shelf_told (tells self.new)).short }
        ensures refusal { result_err result ≡ create_refusal (tells self.old) name.now }
        ensures room { (tells self.new).room ≡ (if is_ok result
            then with_slot_less (with_name_less (tells self.old).room) else (tells self.old).room) }
        ensures calls { (tells self.new).calls ≡ after_call (tells self.old).calls }
        ensures faults { (tells self.new).faults.writing ≡ faults_after_create (tells self.old).faults.writing result }
    {
        let listed = self.calls.count();
        if find_entry(&self.entries, name).is_some() {
            return Err(CreateError::Exists);
        }
        if listed || self.room.slots == 0 || is_name_refused(self.room, name, b"") {
            self.write_faults.rise();
            return Err(CreateError::Failed);
        }
        let writing = SlotState::Writing {
            entry: self.entries.len(),
        };
        add_entry(&mut self.entries, &mut self.spare, self.room, name, b"");
        self.room.names -= 1;
        Ok(add_slot(&mut self.slots, &mut self.room.slots, writing))
    }

    fn write(&mut self, slot: Slot, piece: &[u8]) -> Result<usize, Failed>
        requires { IsTrue (is_writing ((tells self.old).slots slot.0)) }
        ensures bound { WritesAtMost result piece.now }
        ensures some { 0 < length piece.now → IfOk result (λ count. 0 < count) }
        ensures bytes { WritesTo (name_of ((tells self.old).slots slot.0)) (shelf_told (tells self.old))
            (shelf_told (tells self.new)) result piece.now }
        ensures cause { HasCause (tells self.old).faults.writing (tells self.new).faults.writing result }
        ensures counts { OnlyWriting (tells self.old).faults (tells self.new).faults }
        ensures others { SameButNames (shelf_told (tells self.old)) (shelf_told (tells self.new)) }
        ensures failed { is_err result ≡ is_append_refused (tells self.old) (name_of ((tells self.old).slots slot.0))
            piece.now }
        ensures count { IfOk result (λ count. count ≡ length piece.now) }
        ensures room { (tells self.new).room ≡ (tells self.old).room }
        ensures calls { (tells self.new).calls ≡ after_call (tells self.old).calls }
        ensures faults { (tells self.new).faults.writing ≡ faults_after (tells self.old).faults.writing result }
    {
        let SlotState::Writing { entry } = self.slots[slot.0 as usize] else {
            unreachable!()
        };
        let held = self.entries[entry].bytes.len();
        let listed = self.calls.count();
        if is_append_refused(listed, self.room.bytes, held, piece.len()) {
            self.write_faults.rise();
            return Err(Failed);
        }
        let bytes = &mut self.entries[entry].bytes;
        bytes.extend_from_slice(piece).unwrap();
        Ok(piece.len())
    }

    fn close(&mut self, slot: Slot)
        ensures closed { (tells self.new).slots slot.0 ≡ closed }
        ensures others { SameButSlot slot.0 (shelf_told (tells self.old)) (shelf_told (tells self.new)) }
        ensures faults { (tells self.new).faults ≡ (tells self.old).faults }
        ensures room { (tells self.new).room ≡ (tells self.old).room }
        ensures calls { (tells self.new).calls ≡ (tells self.old).calls }
    {
        if let Some(state) = self.slots.get_mut(slot.0 as usize) {
            *state = SlotState::Closed;
        }
    }
}

/// Whether there is no room for a new name with these bytes.
fn is_name_refused(room: ShelfRoom, name: &str, bytes: &[u8]) -> bool
    ensures { result ≡ refused_name room name.now bytes.now }
{
    room.names == 0 || room.name_length < name.len() || room.bytes < bytes.len()
}
