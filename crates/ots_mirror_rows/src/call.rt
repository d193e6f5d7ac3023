// The one call of the mirror, of whose clauses nothing is carried on.
use ots_disk::Disk;
use ots_io::{Dialer, Sink};
use ots_mirror::run_mirror;
use std::alloc::Global;

/// A run of the mirror over any objects: the number that it ends with, and the disk. What its clauses say is left here:
/// the transcript says what came of it.
pub fn call<D: Disk, K: Sink, T: Dialer>(
    alloc: Global,
    words: &[String],
    disk: D,
    out: &mut K,
    dialer: &mut T,
) -> (u8, D) {
    let (status, disk) = run_mirror(alloc, words, disk, out, dialer);
    (status.number(), disk)
}
