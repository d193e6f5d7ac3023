//! Why names give nothing.
ghost use Rattle.std.specs.Prelude.{◌≡◌};
ghost use Rattle.ots_inputs.specs.Input.{refused_open};
ghost use Rattle.ots_inputs.specs.declared.error.InputError.TheVariants.{OutOfMemory, ReadFault};

use ots_base::OutOfMemory as NoMemory;
use ots_outside::{Failed, OpenError};
use std::alloc::{AllocError, AllocFailed};

/// Why a name gave no input.
#[derive(Clone, Copy, Debug, PartialEq, Eq)]
pub enum InputError<R> {
    /// The shelf has no such name.
    NoFile,
    /// The shelf counted a fault while the name was opened or read.
    ReadFault,
    /// What is under the name is not what was asked for.
    Refused(R),
    /// Memory ran out.
    OutOfMemory,
}

/// Where reading stopped: a name that gave no input, and why.
#[derive(Clone, Copy)]
pub struct Stop<'a, R> {
    /// The name, or none where what was read is no file.
    pub name: &'a str,
    /// Why it gave no input.
    pub why: InputError<R>,
}

impl<R> From<OpenError> for InputError<R> {
    ghost from_gives = { λ e r. r ≡ refused_open e };

    fn from(error: OpenError) -> Self {
        match error {
            OpenError::NotThere => InputError::NoFile,
            OpenError::Failed => InputError::ReadFault,
            OpenError::OutOfMemory => InputError::OutOfMemory,
        }
    }
}

impl<R> From<Failed> for InputError<R> {
    ghost from_gives = { λ _ e. e ≡ ReadFault };

    fn from(_: Failed) -> Self {
        InputError::ReadFault
    }
}

impl<R> From<AllocError> for InputError<R> {
    ghost from_gives = { λ _ e. e ≡ OutOfMemory };

    fn from(_: AllocError) -> Self {
        InputError::OutOfMemory
    }
}

impl<T: Drop, R> From<AllocFailed<T>> for InputError<R> {
    ghost from_gives = { λ _ e. e ≡ OutOfMemory };

    fn from(_: AllocFailed<T>) -> Self {
        InputError::OutOfMemory
    }
}

impl<'a, R> From<AllocError> for Stop<'a, R> {
    ghost from_gives = { λ _ stop. stop.why ≡ OutOfMemory };

    fn from(_: AllocError) -> Self {
        Stop {
            name: "",
            why: InputError::OutOfMemory,
        }
    }
}

impl<'a, T: Drop, R> From<AllocFailed<T>> for Stop<'a, R> {
    ghost from_gives = { λ _ stop. stop.why ≡ OutOfMemory };

    fn from(_: AllocFailed<T>) -> Self {
        Stop {
            name: "",
            why: InputError::OutOfMemory,
        }
    }
}

impl<'a, R> From<NoMemory> for Stop<'a, R> {
    ghost from_gives = { λ _ stop. stop.why ≡ OutOfMemory };

    fn from(_: NoMemory) -> Self {
        Stop {
            name: "",
            why: InputError::OutOfMemory,
        }
    }
}
