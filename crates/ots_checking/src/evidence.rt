//! What a verdict rests on.
ghost use Rattle.std.specs.Option.{option_map};
ghost use Rattle.ots_checking.specs.Verified.{HasPerhapsTable, ReadsEvidence, RefusesPerhapsTable, RunsShort};
ghost use Rattle.ots_checking.specs.Verified.{perhaps_headers};
ghost use Rattle.ots_client_endings.specs.Reading.{Reads};
ghost use Rattle.ots_client_words.specs.Words.{read_header_file, read_verification};
ghost use Rattle.ots_inputs.specs.Input.{RanOut};

use ots_client_inputs::{check_proof, hash_target, read_headers};
use ots_client_text::Status;
use ots_client_words::{HeaderFile, Verification};
use ots_headers::Headers;
use ots_inputs::Stop;
use ots_ops::Digest;
use ots_outside::Shelf;
use ots_verifier::{Checked, Verifier};
use std::alloc::Global;

/// What a verdict rests on, once all is read.
#[derive(Drop)]
pub struct Evidence {
    /// What the proof is of, and what it confirms by the headers.
    pub checked: Checked,
    /// The digest of the target, by the hash of the proof.
    pub digest: Digest,
}

/// All that a verdict rests on: the headers of Bitcoin, those of Litecoin where they are given, the proof and the
/// target, in this order. The proof is verified as it is read.
pub fn read_evidence<'a, S: Shelf>(
    alloc: Global,
    asked: Verification<'a>,
    shelf: &mut S,
) -> Result<Evidence, Stop<'a, Status>>
    ensures reads { ReadsEvidence (read_verification asked.entry) (S.told shelf.old) (S.told shelf.new)
        (S.faults shelf.old) (S.faults shelf.new) result }
    ensures bounded { RanOut result → RunsShort (read_verification asked.entry) (S.told shelf.old) (S.told shelf.new) }
{
    let bitcoin = match read_headers(alloc, asked.bitcoin, shelf) {
        Ok(bitcoin) => bitcoin,
        Err(stop) => return Err(stop),
    };
    let litecoin = match read_perhaps_headers(alloc, asked.litecoin, shelf) {
        Ok(litecoin) => litecoin,
        Err(stop) => return Err(stop),
    };
    let verifier = Verifier::begin(alloc, &bitcoin, litecoin.as_ref())?;
    let checked = match check_proof(asked.proof, verifier, shelf) {
        Ok(checked) => checked,
        Err(stop) => return Err(stop),
    };
    match hash_target(asked.target, checked.hash, shelf) {
        Ok(digest) => Ok(Evidence { checked, digest }),
        Err(stop) => Err(stop),
    }
}

/// The headers that may be given.
fn read_perhaps_headers<'a, S: Shelf>(
    alloc: Global,
    file: Option<HeaderFile<'a>>,
    shelf: &mut S,
) -> Result<Option<Headers>, Stop<'a, Status>>
    ensures { Reads (perhaps_headers (option_map read_header_file file.entry))
        (λ told. HasPerhapsTable told (option_map read_header_file file.entry))
        (λ told. RefusesPerhapsTable told (option_map read_header_file file.entry))
        (S.told shelf.old) (S.told shelf.new) (S.faults shelf.old) (S.faults shelf.new) result }
{
    match file {
        Some(file) => match read_headers(alloc, file, shelf) {
            Ok(headers) => Ok(Some(headers)),
            Err(stop) => Err(stop),
        },
        None => Ok(None),
    }
}
