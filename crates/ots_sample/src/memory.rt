//! A proof's file in memory.
ghost use Rattle.std.specs.Prelude.{◌≡◌, Some, IfOk};
ghost use Rattle.ots_detached.specs.File.{file_of};

use ots_base::OutOfMemory;
use ots_detached::write_file;
use ots_outside::{Count, Failed, Sink};
use ots_tree::{Detached, WriteFault};
use std::alloc::Global;

/// The bytes of a proof's file.
pub fn file_in_memory(alloc: Global, proof: &Detached) -> Result<Vec<u8>, OutOfMemory>
    ensures { IfOk result (λ file. file.items ≡ file_of proof.now) }
{
    let mut kept = Kept {
        bytes: Vec::new(alloc),
        faults: Count::new(),
    };
    match write_file(proof, &mut kept) {
        Ok(()) => Ok(kept.bytes),
        // The sink below has no other fault.
        Err(WriteFault) => Err(OutOfMemory),
    }
}

/// A sink that keeps what it takes. A write fails only where memory runs out.
#[derive(Drop)]
struct Kept {
    bytes: Vec<u8>,
    faults: Count,
}

impl Sink for Kept {
    ghost taken = { λ s. Some s.bytes.items };

    ghost faults = { λ s. s.faults };

    ghost same = { λ s t. Unit {0} };

    ghost same_refl = { λ s. tt };

    ghost same_trans = { λ s t u first second. tt };

    fn write(&mut self, piece: &[u8]) -> Result<usize, Failed> {
        if self.bytes.extend_from_slice(piece).is_err() {
            self.faults.rise();
            return Err(Failed);
        }
        Ok(piece.len())
    }
}
