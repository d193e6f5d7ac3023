//! The argument of an append or a prepend.
ghost use Rattle.std.specs.Prelude.{◌≡◌, ◌≤◌, length, IfOk};
ghost use Rattle.ots_base.specs.Memory.{UnlessOutOfMemory};
ghost use Rattle.ots_ops.specs.Arg.{IsArg};
ghost use Rattle.ots_ops.specs.NewArg.{new_arg};

use crate::arg_ref::ArgRef;
use ots_base::{MAX_ARGUMENT, OutOfMemory};
use std::alloc::Global;
use std::marker::Model;
use thiserror::Error;

/// The bytes that an append or a prepend adds to a message: 1 to `MAX_ARGUMENT` of them, 4096.
///
/// Contracts see the list of these bytes.
#[derive(Debug, Drop)]
pub struct Arg {
    // in a box, so that a token of a tree without an argument is small
    bytes: Box<Vec<u8>>,
}

impl Model for Arg {
    ghost use Rattle.std.specs.Prelude.{ℕ, List};
    ghost use Rattle.ots_ops.specs.Arg.{IsArg};

    ghost Value = { List ℕ };

    ghost view = { λ a. a.bytes.value.items };

    ghost invariant = { λ a. IsArg a.bytes.value.items };
}

/// Why bytes are no argument.
#[derive(Clone, Copy, Debug, PartialEq, Eq, Error)]
pub enum ArgError {
    /// There are no bytes.
    #[error("an argument has at least 1 byte")]
    Empty,
    /// The number of bytes, which is more than 4096.
    #[error("an argument of {0} bytes is longer than 4096")]
    TooLong(u64),
    /// Memory ran out.
    #[error("out of memory")]
    OutOfMemory,
}

impl Arg {
    /// The argument of these bytes, in memory of `alloc`, which it keeps.
    ///
    /// `Empty` exactly for no bytes, `TooLong` with their number exactly for more than 4096, and
    /// `OutOfMemory` never in their place.
    pub fn new(alloc: Global, bytes: &[u8]) -> Result<Arg, ArgError>
        ensures value { UnlessOutOfMemory ArgError.OutOfMemory result (new_arg bytes.now) }
        ensures short { result ≡ Err ArgError.OutOfMemory → new_arg bytes.now ≡ Ok bytes.now }
    {
        match ArgRef::new(bytes)?.to_owned(alloc) {
            Ok(argument) => Ok(argument),
            Err(_) => Err(ArgError::OutOfMemory),
        }
    }

    /// The argument of 1 to 4096 bytes, in memory of `alloc`, which it keeps.
    pub fn copy_of(alloc: Global, bytes: &[u8]) -> Result<Arg, OutOfMemory>
        requires least { 1 ≤ length bytes.now }
        requires greatest { length bytes.now ≤ MAX_ARGUMENT }
        ensures { IfOk result (λ argument. argument ≡ bytes.now) }
    {
        let bytes = Vec::from_slice(alloc, bytes)?;
        Ok(Arg {
            bytes: Box::new(alloc, bytes)?,
        })
    }

    /// The same argument, whose bytes stand in this one. It takes no memory.
    pub fn borrowed(&self) -> ArgRef<'_>
        ensures argument { result.bytes.now ≡ self.now }
        ensures limits { IsArg self.now }
    {
        ArgRef::of(self.bytes())
    }

    /// The bytes, 1 to 4096 of them.
    pub fn bytes(&self) -> &[u8]
        ensures bytes { result.now ≡ self.now }
        ensures limits { IsArg self.now }
    {
        self.bytes.as_slice()
    }

    /// An argument of the same bytes, in memory of this one's allocator.
    pub fn copy(&self) -> Result<Arg, OutOfMemory>
        ensures { IfOk result (λ copied. copied ≡ self.now) }
    {
        let bytes = self.bytes.clone()?;
        Ok(Arg { bytes })
    }
}
