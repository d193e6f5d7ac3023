//! The disk that a journal lies on: one file, and what a crash at any moment may leave of it.
//! [`MemoryDisk`] is one in memory, with a list of all calls, which gives images of any moment.
#![tactic(auto)]

mod choice;
mod contents;
mod disk;
mod disk_call;
mod disk_room;
mod image;
mod memory_disk;
mod notes;
mod spare_pieces;

pub use choice::Choice;
pub use disk::Disk;
pub use disk_call::{DiskCall, MadeCall};
pub use disk_room::DiskRoom;
pub use memory_disk::MemoryDisk;
