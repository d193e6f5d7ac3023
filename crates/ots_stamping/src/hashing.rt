//! The files that are stamped are hashed, after the list of calendars is read.
ghost use Rattle.std.specs.Prelude.{◌≡◌, length, map, IfOk};
ghost use Rattle.std.specs.List.{All};
ghost use Rattle.ots_arguments.specs.Values.{texts};
ghost use Rattle.ots_client_endings.specs.Outside.{Outside};
ghost use Rattle.ots_client_endings.specs.Reading.{Reads};
ghost use Rattle.ots_client_inputs.specs.Inputs.{target_under};
ghost use Rattle.ots_client_words.specs.Words.{read_stamping};
ghost use Rattle.ots_stamping.specs.Answered.{IsSubmissionOf};
ghost use Rattle.ots_stamping.specs.Hashing.{AreHashed, RefusesOne};
ghost use Rattle.ots_stamping.specs.Stamp.{StampsFiles, inputs_stamped};

use crate::submission::Submission;
use ots_client_inputs::{hash_target, read_list};
use ots_client_text::Status;
use ots_client_words::Stamping;
use ots_inputs::Stop;
use ots_ops::{Digest, HashOp};
use ots_outside::Shelf;
use std::alloc::Global;

/// The calendars of a list and the hashes of files, or the first of these that gave none.
pub fn read_submission<'a, S: Shelf>(
    alloc: Global,
    stamping: Stamping<'a>,
    shelf: &mut S,
) -> Result<Submission<'a>, Stop<'a, Status>>
    ensures { (o : Outside) → Reads (inputs_stamped (read_stamping stamping.entry))
        (λ told. IsSubmissionOf told (read_stamping stamping.entry))
        (λ told. StampsFiles o told (read_stamping stamping.entry)) (S.told shelf.old) (S.told shelf.new)
        (S.faults shelf.old) (S.faults shelf.new) result }
{
    match read_list(alloc, stamping.calendars) {
        Ok(calendars) => match hash_targets(alloc, &stamping.files, shelf) {
            Ok(digests) => Ok(Submission {
                calendars,
                least: stamping.least,
                files: stamping.files,
                digests,
            }),
            Err(stop) => Err(stop),
        },
        Err(stop) => Err(stop),
    }
}

/// The SHA-256 of the whole input of each name, in order, or the first name that gave none.
fn hash_targets<'a, S: Shelf>(
    alloc: Global,
    names: &[&'a str],
    shelf: &mut S,
) -> Result<Vec<Digest>, Stop<'a, Status>>
    ensures reads { Reads (map target_under (texts names.entry.now))
        (λ told digests. AreHashed told (texts names.entry.now) digests.items)
        (λ told. RefusesOne told (texts names.entry.now))
        (S.told shelf.old) (S.told shelf.new) (S.faults shelf.old) (S.faults shelf.new) result }
    ensures each { IfOk result (λ digests. length digests.items ≡ length names.entry.now) }
    ensures sha256 { IfOk result (λ digests. All (λ digest. length digest ≡ 32) digests.items) }
{
    let mut digests = Vec::with_capacity(alloc, names.len())?;
    for name in names {
        match hash_target(name, HashOp::Sha256, shelf) {
            Ok(digest) => digests.push(digest)?,
            Err(stop) => return Err(stop),
        }
    }
    Ok(digests)
}
