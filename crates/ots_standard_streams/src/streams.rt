//! Descriptors 0, 1 and 2 are the standard streams', also where the program was started without them.
use std::fs::File;
use std::io;
use std::rt::Files;

const NULL_DEVICE: &str = "/dev/null";

/// The standard descriptors, kept from every file and socket that is opened while this value is held.
///
/// What a process opens gets the lowest descriptor that is free (POSIX, "File Descriptor Allocation").
/// Of a program that was started with standard output closed the first file would get descriptor 1,
/// and what the program prints would be written into that file.
#[derive(Drop)]
pub struct StandardStreams {
    _first: File,
    _second: File,
    _third: File,
}

impl StandardStreams {
    /// Opens the null device three times, so that each standard descriptor that was free is taken. It
    /// is opened for reading alone: printing to a stream that was closed still fails, as it did.
    /// `Err` where the system has no null device or no descriptors left.
    pub fn keep<R: Files<File = File>>(rt: &R) -> io::Result<StandardStreams> {
        Ok(StandardStreams {
            _first: File::open(rt, NULL_DEVICE)?,
            _second: File::open(rt, NULL_DEVICE)?,
            _third: File::open(rt, NULL_DEVICE)?,
        })
    }
}
