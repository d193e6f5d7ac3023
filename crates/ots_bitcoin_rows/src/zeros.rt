//! A source that keeps no bytes.
ghost use Rattle.std.specs.Prelude.{None};

use ots_io::{Failed, Source};

/// So many zeros. It tells nothing.
#[derive(Drop)]
pub struct Zeros {
    left: u64,
}

impl Zeros {
    /// A source of this number of zeros.
    pub fn new(left: u64) -> Zeros {
        Zeros { left }
    }

    /// How many zeros are left.
    pub fn left(&self) -> u64 {
        self.left
    }
}

impl Source for Zeros {
    ghost left = { λ s. None };

    ghost faults = { λ s. 0 };

    ghost same = { λ s t. Unit {0} };

    ghost same_refl = { λ s. tt };

    ghost same_trans = { λ s t u first second. tt };

    fn read(&mut self, buf: &mut [u8]) -> Result<usize, Failed> {
        let count = self.left.min(buf.len() as u64);
        buf[..count as usize].fill(0);
        self.left -= count;
        Ok(count as usize)
    }
}
