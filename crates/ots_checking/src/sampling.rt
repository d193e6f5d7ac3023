//! The command `sample`.
ghost use Rattle.std.specs.Prelude.{◌≡◌, ◌⊎◌};
ghost use Rattle.ots_checking.specs.Sampled.{Samples};
ghost use Rattle.ots_client_endings.specs.Runs.{Finishes, Moment};
ghost use Rattle.ots_outside.specs.Shelf.{ShelfFaults, ShelfTold};

use ots_base::OutOfMemory;
use ots_client_endings::print;
use ots_client_text::{Status, put_sample, verdict_status};
use ots_client_words::Sampling;
use ots_outputs::PrintedText;
use ots_outside::Sink;
use ots_printer::Printer;
use ots_sample::Sample;
use std::alloc::Global;

/// What is printed of a sample.
#[derive(Clone, Copy)]
struct SampleText<'a>(&'a Sample);

impl PrintedText for SampleText<'_> {
    ghost use Rattle.std.specs.Prelude.{◌≡◌};
    ghost use Rattle.ots_client_text.specs.Lines.{sample_text};

    ghost is_text = { λ t bytes. bytes ≡ sample_text t.0.now };

    fn put<K: Sink>(&self, out: &mut Printer<'_, K>) {
        put_sample(self.0, out)
    }
}

/// Makes a proof by the rule, verifies it, and prints what it confirms. Where memory runs out first, nothing is
/// printed.
pub fn sample<K: Sink>(alloc: Global, asked: Sampling, out: &mut K) -> Status
    ensures finishes { (shelf : ShelfTold) (faults : ShelfFaults) → Finishes (Samples asked.paths)
        (record { shelf = shelf; faults = faults; taken = K.taken out.old; lost = K.faults out.old })
        (record { shelf = shelf; faults = faults; taken = K.taken out.new; lost = K.faults out.new }) result
        ⊎ (result ≡ Status.OutOfMemory) × (out.new ≡ out.old) }
    ensures same { K.same out.old out.new }
{
    match ots_sample::sample(alloc, asked.paths) {
        Ok(sample) => print(&SampleText(&sample), verdict_status(sample.verdict), out),
        Err(OutOfMemory) => Status::OutOfMemory,
    }
}
