ghost use Rattle.std.specs.Prelude.{◌≡◌, ◌<◌, ◌≤◌, ◌^◌, Some, None, [], length, IfOk};
ghost use Rattle.std.specs.Path.{path_buf_bytes};

use crate::FileCalls;
use crate::record::Record;
use ots_outside::Failed;
use ots_real::size_limit;
use std::fs::{File, OpenOptions};
use std::io::ErrorKind;
use std::os::fd::AsRawFd;
use std::os::unix::fs::{FileExt, MetadataExt};
use std::path::PathBuf;
use std::rt::Files;
use std::{fs, io};

const MAX_PLACE: u64 = (1 << 63) - 1;

/// A named file of the system, which one holder at a time may have open. Each method makes the call
/// that it notes; so far as the proofs go it might not, so these are to be read.
///
/// The name is resolved when the file is opened, as a link leads, and no link is followed after that.
/// A file is made where nothing stands at the name; a link that leads nowhere is refused, and no file
/// is made elsewhere. What is opened has to be a regular file, and the one that stands at the resolved
/// name. Its folder is the one that the resolved name stands in. A second hard link is not refused.
/// The system's lock on the file is taken, and held until the value is dropped or opened anew.
///
/// A call that a signal cut short is made again, and only its last answer is noted. A write that would
/// begin at the size up to which the system lets a file grow fails, and the system is not asked: it
/// would end the process by a signal. Nothing is done
/// here for the standard streams: descriptors 0 to 2 are taken before any file is opened, by the
/// program, so that nothing that is meant for one of them lands in the file.
#[derive(Drop)]
pub struct SystemFile<R: Files<File = File> + AllocGlobal> {
    rt: R,
    name: String,
    file: Option<File>,
    folder: PathBuf,
    log: Record,
}

impl<R: Files<File = File> + AllocGlobal> SystemFile<R> {
    ghost use Rattle.ots_file.specs.SystemFile.{system_history};

    /// The file of this name, not opened yet. A name without a folder stands in the working folder.
    pub fn new(rt: R, name: String) -> SystemFile<R>
        ensures { system_history result ≡ [] }
    {
        let folder = PathBuf::new(rt.alloc());
        SystemFile {
            rt,
            name,
            file: None,
            folder,
            log: Record::new(),
        }
    }
}

impl<R: Files<File = File> + AllocGlobal> FileCalls for SystemFile<R> {
    ghost use Rattle.ots_file.specs.Record.{events_of};

    ghost history = { λ f. events_of f.log };

    ghost folder = { λ f. path_buf_bytes f.folder };

    ghost first = { λ _. None };

    ghost honest = { λ f. tt };

    fn open(&mut self) -> Result<(), Failed> {
        self.file = None;
        match open_locked(&self.rt, &self.name) {
            Ok((file, folder)) => {
                self.file = Some(file);
                self.folder = folder;
                self.log.opened(self.folder.as_str().as_bytes(), true);
                Ok(())
            }
            Err(_) => {
                self.log.opened(&[], false);
                Err(Failed)
            }
        }
    }

    fn sync_folder(&mut self) -> Result<(), Failed> {
        let folder = self.folder.as_str();
        match sync_of_folder(&self.rt, folder) {
            Ok(()) => {
                self.log.folder_synced(folder.as_bytes(), true);
                Ok(())
            }
            Err(_) => {
                self.log.folder_synced(folder.as_bytes(), false);
                Err(Failed)
            }
        }
    }

    fn drop_pages(&mut self) -> Result<(), Failed> {
        match dropped(&self.file) {
            Ok(()) => {
                self.log.pages_dropped(true);
                Ok(())
            }
            Err(_) => {
                self.log.pages_dropped(false);
                Err(Failed)
            }
        }
    }

    fn len(&mut self) -> Result<u64, Failed> {
        match measured(&self.file) {
            Ok(n) => {
                self.log.measured(true, n);
                Ok(n)
            }
            Err(_) => {
                self.log.measured(false, 0);
                Err(Failed)
            }
        }
    }

    fn read_some(&mut self, place: u64, buf: &mut [u8]) -> Result<usize, Failed> {
        let asked = buf.len() as u64;
        match read(&self.file, place, buf) {
            Ok(n) => {
                self.log.got(place, asked, true, &buf[..n]);
                Ok(n)
            }
            Err(_) => {
                self.log.got(place, asked, false, &[]);
                Err(Failed)
            }
        }
    }

    fn write_some(&mut self, place: u64, piece: &[u8]) -> Result<usize, Failed> {
        match write(&self.file, place, piece) {
            Ok(n) => {
                self.log.wrote(place, piece, true, n as u64);
                Ok(n)
            }
            Err(_) => {
                self.log.wrote(place, piece, false, 0);
                Err(Failed)
            }
        }
    }

    fn sync(&mut self) -> Result<(), Failed> {
        match synced(&self.file) {
            Ok(()) => {
                self.log.synced(true);
                Ok(())
            }
            Err(_) => {
                self.log.synced(false);
                Err(Failed)
            }
        }
    }
}

/// The open file.
fn held(file: &Option<File>) -> io::Result<&File>
    ensures { IfOk result (λ held. file.now ≡ Some held.now) }
{
    match file {
        Some(file) => Ok(file),
        None => Err(io::Error::from(ErrorKind::NotFound)),
    }
}

fn dropped(file: &Option<File>) -> io::Result<()> {
    let advised = libc::posix_fadvise(held(file)?.as_raw_fd(), 0, 0, libc::POSIX_FADV_DONTNEED);
    if advised != 0 {
        return Err(io::Error::from_raw_os_error(advised));
    }
    Ok(())
}

fn measured(file: &Option<File>) -> io::Result<u64> {
    Ok(held(file)?.metadata()?.len())
}

fn synced(file: &Option<File>) -> io::Result<()> {
    held(file)?.sync_all()
}

fn read(file: &Option<File>, place: u64, buf: &mut [u8]) -> io::Result<usize>
    ensures { IfOk result (λ n. (n ≤ length buf.old) × (place < 2 ^ 63)) }
{
    if place > MAX_PLACE {
        return Err(io::Error::from(ErrorKind::InvalidInput));
    }
    let file = held(file)?;
    for _ in 0..u64::MAX {
        match file.read_at(buf, place) {
            Err(error) if error.kind() == ErrorKind::Interrupted => {}
            answer => return answer,
        }
    }
    Err(io::Error::from(ErrorKind::Interrupted))
}

fn write(file: &Option<File>, place: u64, piece: &[u8]) -> io::Result<usize>
    ensures { IfOk result (λ n. (0 < n) × (n ≤ length piece.now) × (place < 2 ^ 63)) }
{
    if place > MAX_PLACE {
        return Err(io::Error::from(ErrorKind::InvalidInput));
    }
    if place >= size_limit() {
        return Err(io::Error::from(ErrorKind::FileTooLarge));
    }
    let file = held(file)?;
    for _ in 0..u64::MAX {
        match file.write_at(piece, place) {
            Err(error) if error.kind() == ErrorKind::Interrupted => {}
            Ok(0) => return Err(io::Error::from(ErrorKind::WriteZero)),
            answer => return answer,
        }
    }
    Err(io::Error::from(ErrorKind::Interrupted))
}

/// Opens the regular file that stands at the name and holds it, with the folder that it stands in.
fn open_locked<R: Files<File = File> + AllocGlobal>(
    rt: &R,
    name: &str,
) -> io::Result<(File, PathBuf)> {
    let mut path = resolve(rt, name)?;
    let file = open_or_make(rt, path.as_str())?;
    let (found, named) = (file.metadata()?, fs::symlink_metadata(rt, path.as_str())?);
    if !found.is_file() || found.dev() != named.dev() || found.ino() != named.ino() {
        return Err(io::Error::from(ErrorKind::Unsupported));
    }
    file.try_lock()?;
    path.pop();
    Ok((file, path))
}

/// The path with no link in it. The file is made where nothing stands at the name.
fn resolve<R: Files<File = File> + AllocGlobal>(rt: &R, name: &str) -> io::Result<PathBuf> {
    match fs::canonicalize(rt, name) {
        Err(error) if error.kind() == ErrorKind::NotFound => {
            open_or_make(rt, name)?;
            fs::canonicalize(rt, name)
        }
        found => found,
    }
}

/// A regular file for reading and writing, made where nothing stands at the path. No link is followed.
fn open_or_make<R: Files<File = File>>(rt: &R, path: &str) -> io::Result<File> {
    let mut options = OpenOptions::new();
    options.read(true);
    options.write(true);
    options.create_new(true);
    match options.open(rt, path) {
        Err(error) if error.kind() == ErrorKind::AlreadyExists => {
            if !fs::symlink_metadata(rt, path)?.is_file() {
                return Err(io::Error::from(ErrorKind::Unsupported));
            }
            options.create_new(false);
            options.open(rt, path)
        }
        made => made,
    }
}

fn sync_of_folder<R: Files<File = File>>(rt: &R, folder: &str) -> io::Result<()> {
    File::open(rt, folder)?.sync_all()
}
