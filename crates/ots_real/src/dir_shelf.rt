ghost use Rattle.std.specs.Prelude.{◌≡◌, ◌≢◌, ◌<◌, ◌∷◌, [], ℕ, length, IfOk, OnOk, OnErr, IsErrOf, IsTrue};
ghost use Rattle.std.specs.Io.{ReadsAtMost, WritesAtMost};
ghost use Rattle.std.specs.Io.KnownBytes.{ReadConsumes};
ghost use Rattle.ots_base.specs.Cause.{CountsWhere, HasCause, HasCauseWhere};
ghost use Rattle.ots_outside.specs.Shelf.{closed, OnlyOpening, OnlyReading, OnlyWriting, is_reading, is_writing};
ghost use Rattle.ots_outside.specs.Shelf.{left_of, Creates, Opens, SameButNames, SameButSlot, Stays};
ghost use Rattle.ots_outside.specs.Streams.{Reads};
ghost use Rattle.ots_real.specs.Counting.{count_after, count_after_create, count_after_open};
ghost use Rattle.ots_real.specs.DirShelf.{files_told, file_faults, file_at, calls_at};
ghost use Rattle.ots_real.specs.FileCalls.{folder_of, is_durable, Writes};
ghost use Rattle.ots_real.specs.FileCalls.FileCall.{created, folder_synced};
ghost use Rattle.ots_real.specs.NewFile.{AppendsSome};
ghost use Rattle.ots_real.specs.OpenFile.{left_in, taken_in};

use crate::StdSource;
use crate::new_file::{NewFile, NotCreated};
use crate::open_file::OpenFile;
use ots_outside::{Count, CreateError, Failed, OpenError, Shelf, Slot};
use std::alloc::Global;
use std::fs::File;
use std::io::ErrorKind;
use std::rt::Files;

/// The files of the file system by their paths, a relative one from the working folder. It tells
/// nothing of what they hold, and counts each fault.
///
/// `create` makes a new file and never overwrites one: a name that is there is `Exists`, also
/// where it came between a test and the call. The folder in which the name stands is synced then,
/// and the file after each write, before the call answers: so whatever the device says, `create` or
/// `write` passes on as a fault, and what was written stays when power goes. A folder that can't be
/// opened, and so not be synced, gets no file. After a fault of `write` each further write of the
/// slot is one.
///
/// A write that takes nothing of a piece that isn't empty is a fault, and so is one that would begin
/// at [`size_limit`](crate::size_limit) or past it. A call that a signal cut short is made again.
/// `close` has no answer: after the sync of the last write an error of the system's has nothing left
/// to tell.
#[derive(Drop)]
pub struct DirShelf<R: Files> {
    rt: R,
    files: Vec<OpenFile<R::File>>,
    open_faults: Count,
    read_faults: Count,
    write_faults: Count,
    short: Count,
}

impl<R: Files> DirShelf<R> {
    /// The file system that the runtime gives, with no slot in use.
    pub fn new(rt: R, alloc: Global) -> DirShelf<R>
        ensures slots { (k : ℕ) → (files_told result).slots k ≡ closed }
        ensures short { (files_told result).short ≡ 0 }
        ensures faults { file_faults result ≡ record { opening = 0; reading = 0; writing = 0 } }
    {
        DirShelf {
            rt,
            files: Vec::new(alloc),
            open_faults: Count::new(),
            read_faults: Count::new(),
            write_faults: Count::new(),
            short: Count::new(),
        }
    }
}

#[tactic(auto, using(crate::proofs::Slots::slots))]
impl<R: Files> Shelf for DirShelf<R> {
    ghost use Rattle.ots_real.specs.DirShelf.{files_told, file_faults};

    ghost told = { files_told };

    ghost faults = { file_faults };

    fn open(&mut self, name: &str) -> Result<Slot, OpenError>
        ensures ok { IfOk result (λ slot. Opens name.now slot.0 (files_told self.old) (files_told self.new)) }
        ensures err { OnErr result (Stays (files_told self.old) (files_told self.new)) }
        ensures cause { HasCauseWhere (IsErrOf result OpenError.Failed) (file_faults self.old).opening
            (file_faults self.new).opening }
        ensures counted { (file_faults self.new).opening ≡ count_after_open (file_faults self.old).opening result }
        ensures counts { OnlyOpening (file_faults self.old) (file_faults self.new) }
        ensures short { CountsWhere (IsErrOf result OpenError.OutOfMemory) (files_told self.old).short
            (files_told self.new).short }
    {
        let Ok(slot) = u32::try_from(self.files.len()) else {
            self.open_faults.rise();
            return Err(OpenError::Failed);
        };
        match File::open(&self.rt, name) {
            Ok(file) => {
                let reading = OpenFile::Reading(StdSource::new(file));
                if self.files.push(reading).is_err() {
                    self.short.rise();
                    return Err(OpenError::OutOfMemory);
                }
                Ok(Slot(slot))
            }
            Err(error) if error.kind() == ErrorKind::NotFound => Err(OpenError::NotThere),
            Err(_) => {
                self.open_faults.rise();
                Err(OpenError::Failed)
            }
        }
    }

    fn read(&mut self, slot: Slot, buf: &mut [u8]) -> Result<usize, Failed>
        requires { IsTrue (is_reading ((files_told self.old).slots slot.0)) }
        ensures bound { ReadsAtMost result buf.new }
        ensures file { ReadConsumes (left_in R.File.remaining (file_at self.old slot.0))
            (left_in R.File.remaining (file_at self.new slot.0)) result buf.new }
        ensures bytes { Reads (left_of ((files_told self.old).slots slot.0))
            (left_of ((files_told self.new).slots slot.0)) result buf.new }
        ensures cause { HasCause (file_faults self.old).reading (file_faults self.new).reading result }
        ensures counted { (file_faults self.new).reading ≡ count_after (file_faults self.old).reading result }
        ensures counts { OnlyReading (file_faults self.old) (file_faults self.new) }
        ensures open { IsTrue (is_reading ((files_told self.new).slots slot.0)) }
        ensures others { SameButSlot slot.0 (files_told self.old) (files_told self.new) }
        ensures other_files { (k : ℕ) → k ≢ slot.0 → file_at self.new k ≡ file_at self.old k }
    {
        match self.files[slot.0 as usize].read(buf) {
            Ok(count) => Ok(count),
            Err(Failed) => {
                self.read_faults.rise();
                Err(Failed)
            }
        }
    }

    fn create(&mut self, name: &str) -> Result<Slot, CreateError>
        ensures ok { IfOk result (λ slot. Creates name.now slot.0 (files_told self.old) (files_told self.new)) }
        ensures err { OnErr result (Stays (files_told self.old) (files_told self.new)) }
        ensures made { IfOk result
            (λ slot. calls_at self.new slot.0 ≡ folder_synced (folder_of name.now) ∷ created name.now ∷ []) }
        ensures cause { HasCauseWhere (IsErrOf result CreateError.Failed) (file_faults self.old).writing
            (file_faults self.new).writing }
        ensures counted { (file_faults self.new).writing ≡ count_after_create (file_faults self.old).writing result }
        ensures counts { OnlyWriting (file_faults self.old) (file_faults self.new) }
        ensures short { CountsWhere (IsErrOf result CreateError.OutOfMemory) (files_told self.old).short
            (files_told self.new).short }
    {
        let Ok(slot) = u32::try_from(self.files.len()) else {
            self.write_faults.rise();
            return Err(CreateError::Failed);
        };
        // The room comes first, so that want of memory leaves no file after.
        if self.files.reserve(1).is_err() {
            self.short.rise();
            return Err(CreateError::OutOfMemory);
        }
        match NewFile::create(&self.rt, name) {
            Ok(file) => {
                self.files.push(OpenFile::Writing(file)).unwrap();
                Ok(Slot(slot))
            }
            Err(NotCreated::Exists) => Err(CreateError::Exists),
            Err(NotCreated::Failed) => {
                self.write_faults.rise();
                Err(CreateError::Failed)
            }
        }
    }

    fn write(&mut self, slot: Slot, piece: &[u8]) -> Result<usize, Failed>
        requires { IsTrue (is_writing ((files_told self.old).slots slot.0)) }
        ensures bound { WritesAtMost result piece.now }
        ensures some { 0 < length piece.now → IfOk result (λ count. 0 < count) }
        ensures file { AppendsSome (taken_in R.File.contents (file_at self.old slot.0))
            (taken_in R.File.contents (file_at self.new slot.0)) result piece.now }
        ensures calls { Writes (calls_at self.old slot.0) (calls_at self.new slot.0) result }
        ensures durable { OnOk result (IsTrue (is_durable (calls_at self.new slot.0))) }
        ensures cause { HasCause (file_faults self.old).writing (file_faults self.new).writing result }
        ensures counted { (file_faults self.new).writing ≡ count_after (file_faults self.old).writing result }
        ensures counts { OnlyWriting (file_faults self.old) (file_faults self.new) }
        ensures others { SameButNames (files_told self.old) (files_told self.new) }
        ensures other_files { (k : ℕ) → k ≢ slot.0 → file_at self.new k ≡ file_at self.old k }
    {
        match self.files[slot.0 as usize].write(piece) {
            Ok(count) => Ok(count),
            Err(Failed) => {
                self.write_faults.rise();
                Err(Failed)
            }
        }
    }

    fn close(&mut self, slot: Slot) {
        let at = slot.0 as usize;
        if at + 1 == self.files.len() {
            self.files.pop();
        } else if let Some(file) = self.files.get_mut(at) {
            *file = OpenFile::Closed;
        }
    }
}
