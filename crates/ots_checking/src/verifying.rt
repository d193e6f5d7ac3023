//! The command `verify`.
ghost use Rattle.std.specs.Prelude.{◌≡◌};
ghost use Rattle.ots_checking.specs.Verified.{RunsShort, Verifies, inputs_verified};
ghost use Rattle.ots_client_endings.specs.Runs.{Runs, at};
ghost use Rattle.ots_client_words.specs.Words.{read_verification};

use crate::evidence::read_evidence;
use ots_client_endings::{print, refuse_stop};
use ots_client_text::{Status, put_verdict, verdict_status};
use ots_client_words::Verification;
use ots_outputs::PrintedText;
use ots_outside::{Shelf, Sink};
use ots_printer::Printer;
use ots_verdicts::Verdict;
use std::alloc::Global;

/// The line of a verdict.
#[derive(Clone, Copy)]
struct VerdictLine(Verdict);

impl PrintedText for VerdictLine {
    ghost use Rattle.std.specs.Prelude.{◌≡◌};
    ghost use Rattle.ots_client_text.specs.Lines.{verdict_text};

    ghost is_text = { λ t bytes. bytes ≡ verdict_text t.0 };

    fn put<K: Sink>(&self, out: &mut Printer<'_, K>) {
        put_verdict(self.0, out)
    }
}

/// Prints whether some path of a proof takes the digest of a file to the Merkle root of the given header at the
/// attested height. Memory is taken before the proof is opened: from then on only the shelf can run out of it.
pub fn verify<S: Shelf, K: Sink>(
    alloc: Global,
    asked: Verification<'_>,
    shelf: &mut S,
    out: &mut K,
) -> Status
    ensures runs { Runs (λ told. Verifies told (read_verification asked.entry))
        (inputs_verified (read_verification asked.entry))
        (at S.told S.faults K.taken K.faults shelf.old out.old)
        (at S.told S.faults K.taken K.faults shelf.new out.new) result }
    ensures bounded { result ≡ Status.OutOfMemory
        → RunsShort (read_verification asked.entry) (S.told shelf.old) (S.told shelf.new) }
    ensures same { K.same out.old out.new }
{
    match read_evidence(alloc, asked, shelf) {
        Ok(evidence) => {
            let verdict = evidence.checked.verdict(&evidence.digest);
            print(&VerdictLine(verdict), verdict_status(verdict), out)
        }
        Err(stop) => refuse_stop(stop, out),
    }
}
