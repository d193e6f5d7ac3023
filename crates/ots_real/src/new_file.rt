//! A file that this process makes, of which each write is on the device before it is answered.
ghost use Rattle.std.specs.Prelude.{◌≡◌, ◌∷◌, [], ◌<◌, length, IfOk, OnOk, IsTrue};
ghost use Rattle.std.specs.Io.{WritesAtMost};
ghost use Rattle.ots_base.specs.Cause.{HasCause};
ghost use Rattle.ots_real.specs.FileCalls.{folder_of, is_durable, Writes};
ghost use Rattle.ots_real.specs.FileCalls.FileCall.{created, folder_synced};

use crate::counted::write_counted;
use crate::file_log::FileLog;
use crate::file_size::size_limit;
use ots_outside::{Count, Failed};
use std::fs;
use std::fs::{File, Files};
use std::io::{ErrorKind, Write};
use std::path::Path;

/// Why a file was not made.
#[derive(Clone, Copy, PartialEq, Eq)]
pub enum NotCreated {
    /// Something has this name already.
    Exists,
    /// A call failed.
    Failed,
}

/// A file that was made under a name that nothing had, and is written from its start on. Its name
/// is on the device once it is made, and its bytes once a write is answered, so far as the system
/// says so: the folder is synced after the file is made, and the file after each write.
///
/// After a write or a sync that failed each further write fails. The system may have given up what
/// was written before, and it reports that once.
#[derive(Drop)]
pub struct NewFile<F: Write + fs::OpenFile> {
    file: F,
    length: u64,
    log: FileLog,
    faults: Count,
}

impl<F: Write + fs::OpenFile> NewFile<F> {
    ghost use Rattle.ots_real.specs.NewFile.{calls_of, file_in, new_faults, AppendsSome};

    /// Makes a new file of this name, with no bytes, and syncs the folder in which the name stands.
    /// Where the folder can't be opened, no file is made; where its sync fails, the empty file stays.
    pub fn create<R: Files<File = F>>(rt: &R, name: &str) -> Result<NewFile<F>, NotCreated>
        ensures made { IfOk result
            (λ file. calls_of file ≡ folder_synced (folder_of name.now) ∷ created name.now ∷ []) }
    {
        let folder = folder_of(name);
        let Ok(opened) = File::open(rt, folder) else {
            // A name that is there is told as such, also where its folder may not be read.
            return Err(match fs::symlink_metadata(rt, name) {
                Ok(_) => NotCreated::Exists,
                Err(_) => NotCreated::Failed,
            });
        };
        match File::create_new(rt, name) {
            Ok(file) => match opened.sync_all() {
                Ok(()) => Ok(NewFile {
                    file,
                    length: 0,
                    log: FileLog::new(name, folder),
                    faults: Count::new(),
                }),
                Err(_) => Err(NotCreated::Failed),
            },
            Err(error) if error.kind() == ErrorKind::AlreadyExists => Err(NotCreated::Exists),
            Err(_) => Err(NotCreated::Failed),
        }
    }

    /// Writes once at the end, and syncs what was taken. A write that would begin at the size up to
    /// which the system lets a file grow fails before the system is asked.
    pub fn write(&mut self, piece: &[u8]) -> Result<usize, Failed>
        ensures bound { WritesAtMost result piece.now }
        ensures some { 0 < length piece.now → IfOk result (λ count. 0 < count) }
        ensures file { AppendsSome (F.contents (file_in self.old)) (F.contents (file_in self.new)) result piece.now }
        ensures calls { Writes (calls_of self.old) (calls_of self.new) result }
        ensures durable { OnOk result (IsTrue (is_durable (calls_of self.new))) }
        ensures cause { HasCause (new_faults self.old) (new_faults self.new) result }
    {
        if self.log.has_failed() || self.length >= size_limit() {
            self.faults.rise();
            return Err(Failed);
        }
        let Ok(count) = write_counted(&mut self.file, &mut self.faults, piece) else {
            self.log.not_written();
            return Err(Failed);
        };
        if self.file.sync_data().is_err() {
            self.log.not_synced(count as u64);
            self.faults.rise();
            return Err(Failed);
        }
        self.log.written(count as u64);
        self.length = self.length.saturating_add(count as u64);
        Ok(count)
    }
}

/// The folder in which a name stands: the working folder for a name without one.
fn folder_of(name: &str) -> &str
    ensures { result.now ≡ folder_of name.now }
{
    match Path::new(name).parent() {
        Some(folder) if !folder.as_os_str().is_empty() => folder.as_os_str(),
        _ => ".",
    }
}
