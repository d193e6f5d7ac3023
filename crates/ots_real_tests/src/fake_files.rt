// A file system in memory that holds nothing, of which one call may fail.
use std::alloc::Allocator;
use std::fs::{Files, Metadata, OpenFile, OpenOptions};
use std::io;
use std::io::{ErrorKind, Read, Seek, SeekFrom, Write};
use std::sync::atomic::{AtomicU64, Ordering};

/// What is called, each as a decimal digit.
const OPEN: u64 = 1;

const SYNC_FOLDER: u64 = 2;

const WRITE: u64 = 3;

const SYNC: u64 = 4;

/// The calls that were made, and which is to fail.
#[derive(Drop)]
pub struct Calls {
    made: AtomicU64,
    before: AtomicU64,
}

impl Calls {
    /// The call after so many others fails.
    pub fn failing_after(before: u64) -> Calls {
        Calls {
            made: AtomicU64::new(0),
            before: AtomicU64::new(before),
        }
    }

    /// The digits of the calls, from the first on: 1 opens a name, 2 syncs a folder, 3 writes, and 4
    /// syncs a file's bytes.
    pub fn made(&self) -> u64 {
        self.made.load(Ordering::SeqCst)
    }

    fn make(&self, call: u64) -> io::Result<()> {
        let made = self.made.load(Ordering::SeqCst);
        self.made
            .store(made.wrapping_mul(10).wrapping_add(call), Ordering::SeqCst);
        match self.before.load(Ordering::SeqCst).checked_sub(1) {
            Some(before) => {
                self.before.store(before, Ordering::SeqCst);
                Ok(())
            }
            None => {
                self.before.store(u64::MAX, Ordering::SeqCst);
                Err(io::Error::from(ErrorKind::StorageFull))
            }
        }
    }
}

/// The file system.
#[derive(Clone, Copy)]
pub struct FakeFiles<'a> {
    pub calls: &'a Calls,
}

/// An open file or folder.
#[derive(Drop)]
pub struct FakeFile<'a> {
    calls: &'a Calls,
}

fn none<T: Drop>() -> io::Result<T> {
    Err(io::Error::from(ErrorKind::Unsupported))
}

impl<'a> Read for FakeFile<'a> {
    fn read(&mut self, _buf: &mut [u8]) -> io::Result<usize> {
        Ok(0)
    }
}

impl<'a> Write for FakeFile<'a> {
    fn write(&mut self, buf: &[u8]) -> io::Result<usize> {
        self.calls.make(WRITE)?;
        Ok(buf.len())
    }

    fn flush(&mut self) -> io::Result<()> {
        Ok(())
    }
}

impl<'a> Seek for FakeFile<'a> {
    fn seek(&mut self, _to: SeekFrom) -> io::Result<u64> {
        none()
    }
}

impl<'a> OpenFile for FakeFile<'a> {
    fn metadata(&self) -> io::Result<Metadata> {
        none()
    }

    fn set_len(&self, _size: u64) -> io::Result<()> {
        none()
    }

    fn sync_all(&self) -> io::Result<()> {
        self.calls.make(SYNC_FOLDER)
    }

    fn sync_data(&self) -> io::Result<()> {
        self.calls.make(SYNC)
    }
}

impl<'a> Files for FakeFiles<'a> {
    type File = FakeFile<'a>;

    type Dir = FakeFile<'a>;

    fn open_file(&self, _how: &OpenOptions, _path: &str) -> io::Result<FakeFile<'a>> {
        self.calls.make(OPEN)?;
        Ok(FakeFile { calls: self.calls })
    }

    fn open_dir(&self, _path: &str) -> io::Result<FakeFile<'a>> {
        none()
    }

    fn metadata(&self, _path: &str) -> io::Result<Metadata> {
        none()
    }

    fn symlink_metadata(&self, _path: &str) -> io::Result<Metadata> {
        none()
    }

    fn copy(&self, _from: &str, _to: &str) -> io::Result<u64> {
        none()
    }

    fn rename(&self, _from: &str, _to: &str) -> io::Result<()> {
        none()
    }

    fn remove_file(&self, _path: &str) -> io::Result<()> {
        none()
    }

    fn create_dir(&self, _path: &str) -> io::Result<()> {
        none()
    }

    fn remove_dir(&self, _path: &str) -> io::Result<()> {
        none()
    }

    fn remove_dir_all<B: Allocator>(&self, _alloc: B, _path: &str) -> io::Result<()> {
        none()
    }
}
