//! The argument of an append or a prepend, where it stands.
ghost use Rattle.std.specs.Prelude.{◌≡◌, ◌≤◌, length, Ok, Err, IfOk, IfErr};
ghost use Rattle.ots_base.specs.declared.limits.TheConstants.{MAX_ARGUMENT};
ghost use Rattle.ots_ops.specs.Arg.{IsArg};
ghost use Rattle.ots_ops.specs.NewArg.{new_arg};

use crate::arg::{Arg, ArgError};
use ots_base::{MAX_ARGUMENT, OutOfMemory, are_bytes};
use std::alloc::Global;

/// An argument whose bytes stand elsewhere, as in those that it was read from: 1 to `MAX_ARGUMENT`
/// of them, 4096.
#[derive(Clone, Copy)]
pub struct ArgRef<'a> {
    /// The bytes, 1 to 4096 of them.
    pub bytes: &'a [u8],
    ghost least: { 1 ≤ length bytes.now },
    ghost greatest: { length bytes.now ≤ MAX_ARGUMENT },
}

impl<'a> ArgRef<'a> {
    /// The argument of these bytes. It takes no memory.
    ///
    /// `Empty` exactly for no bytes, `TooLong` with their number exactly for more than 4096, and
    /// never `OutOfMemory`.
    pub fn new(bytes: &'a [u8]) -> Result<ArgRef<'a>, ArgError>
        ensures ok { IfOk result (λ argument. new_arg bytes.now ≡ Ok argument.bytes.now) }
        ensures err { IfErr result (λ e. new_arg bytes.now ≡ Err e) }
    {
        if bytes.is_empty() {
            return Err(ArgError::Empty);
        }
        if bytes.len() > MAX_ARGUMENT {
            return Err(ArgError::TooLong(bytes.len() as u64));
        }
        Ok(ArgRef { bytes })
    }

    /// The argument of these bytes, 1 to 4096 of them.
    pub(crate) fn of(bytes: &'a [u8]) -> ArgRef<'a>
        requires { IsArg bytes.now }
        ensures { result.bytes.now ≡ bytes.now }
    {
        ArgRef { bytes }
    }

    /// The bytes, 1 to 4096 of them.
    pub fn bytes(self) -> &'a [u8]
        ensures bytes { result.now ≡ self.entry.bytes.now }
        ensures limits { IsArg self.entry.bytes.now }
    {
        are_bytes(self.bytes);
        self.bytes
    }

    /// The argument of these bytes, in memory of `alloc`, which it keeps.
    pub fn to_owned(self, alloc: Global) -> Result<Arg, OutOfMemory>
        ensures { IfOk result (λ owned. owned ≡ self.entry.bytes.now) }
    {
        Arg::copy_of(alloc, self.bytes())
    }
}
