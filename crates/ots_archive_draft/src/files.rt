//! The files that drafts are made of.
ghost use Rattle.std.specs.Prelude.{◌≡◌, ◌<◌, Some, length, IfOk};
ghost use Rattle.std.specs.List.{slice_get};
ghost use Rattle.ots_archive_draft.specs.Files.{AreLong, HashesAll, NamesLines, result_digests, result_names};
ghost use Rattle.ots_arguments.specs.Values.{texts};
ghost use Rattle.ots_sums.specs.Sums.{digests};

use ots_archive_inputs::TargetReader;
use ots_archive_steps::{need, refuse};
use ots_archive_text::ArchiveStatus;
use ots_archive_words::MAX_NAMES;
use ots_archive_world::World;
use ots_base::OutOfMemory;
use ots_ops::Digest;
use ots_sums::Sums;
use std::alloc::Global;

/// The SHA-256 of each of these files, in order. Where one can't be read, the run ends with the line that tells why.
pub fn hash_files<W: World>(
    alloc: Global,
    names: &[&str],
    world: &mut W,
) -> Result<Vec<Digest>, ArchiveStatus>
    ensures hashes { HashesAll (texts names.entry.now) (W.told world.old) (W.told world.new) (result_digests result) }
    ensures long { IfOk result (λ digests. AreLong digests.items) }
{
    let mut digests = Vec::new(alloc);
    for name in names {
        match need(alloc, name, &TargetReader, world) {
            Ok(digest) => match digests.push(digest) {
                Ok(()) => {}
                Err(_) => return Err(ArchiveStatus::OutOfMemory),
            },
            Err(status) => return Err(status),
        }
    }
    Ok(digests)
}

/// The names of the lines of a file of sums: at most 65,536, and each of UTF-8. Where there are more, or one is not, the
/// run ends with the line that tells so.
pub fn names_of_lines<'a, W: World>(
    alloc: Global,
    sums: &'a Sums,
    world: &mut W,
) -> Result<Vec<&'a str>, ArchiveStatus>
    ensures { NamesLines sums.entry.now (W.told world.old) (W.told world.new) (result_names result) }
{
    if sums.len() > MAX_NAMES {
        let first = ArchiveStatus::BadSums(MAX_NAMES as u64 + 1);
        return Err(refuse(b"", first, world));
    }
    let mut names = Vec::new(alloc);
    for index in 0..sums.len() {
        let bytes = sums.name(index);
        match str::from_utf8(bytes) {
            Ok(name) => match names.push(name) {
                Ok(()) => {}
                Err(_) => return Err(ArchiveStatus::OutOfMemory),
            },
            Err(_) => return Err(refuse(bytes, ArchiveStatus::BadName, world)),
        }
    }
    Ok(names)
}

/// The digests of the lines of a file of sums.
pub fn digests_of_lines(alloc: Global, sums: &Sums) -> Result<Vec<Digest>, OutOfMemory>
    ensures digests { IfOk result (λ found. found.items ≡ digests sums.now) }
    ensures long { IfOk result (λ found. AreLong found.items) }
{
    let mut digests = Vec::with_capacity(alloc, sums.len())?;
    for index in 0..sums.len() {
        digests.push(digest_of_line(sums, index))?;
    }
    Ok(digests)
}

/// The digest of a line.
fn digest_of_line(sums: &Sums, index: usize) -> Digest
    requires { index < length sums.now }
    ensures at { slice_get (digests sums.now) index ≡ Some result }
    ensures long { length result ≡ 32 }
{
    Digest::new(sums.digest(index)).unwrap()
}
