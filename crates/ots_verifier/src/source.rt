//! Verifying the proof file that an input is.
ghost use Rattle.std.specs.Prelude.{◌≡◌, ◌+◌, ◌<◌, ◌≤◌, [], length, IfOk, IsErrOf};
ghost use Rattle.ots_base.specs.Cause.{HasCause, HasCauseWhere};
ghost use Rattle.ots_outside.specs.Streams.{Reads};
ghost use Rattle.ots_verifier.specs.Source.{ChecksSource, answered};
ghost use Rattle.ots_verifier.specs.declared.source.SourceError.TheVariants.{ReadFault};

use crate::checked::{CheckError, Checked};
use crate::verifier::Verifier;
use ots_base::MAX_PROOF_FILE;
use ots_outside::{Failed, Source};
use ots_reader::Fault;

/// How many bytes are read at once, at most.
const PIECE: usize = 65_536;

/// Why an input was not verified.
#[derive(Clone, Copy, Debug, PartialEq, Eq)]
pub enum SourceError {
    /// A read failed, and the source has counted the fault.
    ReadFault,
    /// The input has more than 4,194,304 bytes.
    TooBig,
    /// The input is no proof file: where and why.
    BadProof(Fault),
}

impl From<Failed> for SourceError {
    ghost from_gives = { λ _ e. e ≡ ReadFault };

    fn from(_: Failed) -> Self {
        SourceError::ReadFault
    }
}

/// What the proof confirms whose file a source's whole input is, by a verifier to which nothing was fed.
/// It reads at most 4,194,305 bytes, in pieces of at most 65,536, and takes no memory.
///
/// `ReadFault` comes only where the source's count of faults rose, `TooBig` exactly where more than
/// 4,194,304 bytes came, whatever they are, and `BadProof` with the fault of the input.
pub fn check_source<S: Source>(
    verifier: Verifier<'_>,
    source: &mut S,
) -> Result<Checked, SourceError>
    requires { verifier.bytes ≡ [] }
    ensures input { ChecksSource verifier.entry.bitcoin verifier.entry.litecoin (S.left source.old) (S.left source.new)
        result }
    ensures cause { HasCauseWhere (IsErrOf result SourceError.ReadFault) (S.faults source.old) (S.faults source.new) }
    ensures same { S.same source.old source.new }
{
    let mut verifier = verifier;
    let mut piece = [0; PIECE];
    let mut came = 0;
    while came <= MAX_PROOF_FILE {
        let count = read_piece(source, &mut piece, MAX_PROOF_FILE - came)?;
        if count == 0 {
            return answered(verifier.finish());
        }
        verifier.feed(&piece[..count]);
        came += count;
    }
    Err(SourceError::TooBig)
}

/// Reads into the start of a piece, at most one byte more than `left`.
fn read_piece<S: Source>(source: &mut S, piece: &mut [u8], left: usize) -> Result<usize, Failed>
    requires room { 0 < length piece.old }
    requires small { left ≤ MAX_PROOF_FILE }
    ensures room { IfOk result (λ count. count ≤ length piece.new) }
    ensures bound { IfOk result (λ count. count ≤ left + 1) }
    ensures bytes { Reads (S.left source.old) (S.left source.new) result piece.new }
    ensures cause { HasCause (S.faults source.old) (S.faults source.new) result }
    ensures same { S.same source.old source.new }
{
    let most = (left + 1).min(piece.len());
    source.read(&mut piece[..most])
}

/// What a verifier answers, of a whole input.
fn answered(answer: Result<Checked, CheckError>) -> Result<Checked, SourceError>
    ensures { result ≡ answered answer }
{
    match answer {
        Ok(checked) => Ok(checked),
        Err(CheckError::TooBig) => Err(SourceError::TooBig),
        Err(CheckError::BadProof(fault)) => Err(SourceError::BadProof(fault)),
    }
}
