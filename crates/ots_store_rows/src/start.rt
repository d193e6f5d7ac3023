// What a script says of a disk before it is opened.
use crate::spelling::{number_of, split_number};
use ots_disk::DiskRoom;
use std::alloc::Global;

/// What a disk in memory begins as, and how long a journal on it may be.
#[derive(Drop)]
pub struct Start {
    pub bytes: Vec<u8>,
    pub failing: Vec<u64>,
    pub room: DiskRoom,
    pub limit: u64,
}

impl Start {
    /// A disk without bytes, of which no call fails.
    pub fn new(alloc: Global) -> Start {
        Start {
            bytes: Vec::new(alloc),
            failing: Vec::new(alloc),
            room: DiskRoom {
                calls: 40,
                write: 400,
                file: 1000,
            },
            limit: 1000,
        }
    }
}

/// How much a disk can do: its calls, the bytes of a write, and those of the file.
pub fn room_of(text: &str) -> DiskRoom {
    let (calls, rest) = split_number(text);
    let (write, file) = split_number(rest);
    DiskRoom {
        calls: calls as usize,
        write: write as usize,
        file: number_of(file) as usize,
    }
}
