//! What is wrong with bytes that are no proof, and where.
ghost use Rattle.std.specs.Prelude.{◌≡◌};
ghost use Rattle.ots_reader.specs.Printed.{printed};

use ots_base::OutOfMemory;
use std::alloc::AllocFailed;
use std::fmt;

/// Why bytes are no proof.
#[derive(Clone, Copy, Debug, PartialEq, Eq)]
pub enum Reason {
    /// The bytes end within a token, or before the tree does.
    Truncated,
    /// No operation, attestation or fork has this tag.
    UnknownOp,
    /// The tag of KECCAK-256, `67`, which the reference library knows and this one doesn't.
    Keccak,
    /// A fork directly after a fork.
    ForkFork,
    /// A length is not in its shortest form.
    NonMinimal,
    /// A length is 2^64 or more.
    VaruintTooLarge,
    /// An argument has no bytes.
    ArgEmpty,
    /// An argument has more than 4096 bytes.
    ArgTooLong,
    /// A payload has more than 8192 bytes.
    PayloadTooLong,
    /// A URI has more than 1000 bytes, or a character that isn't allowed.
    BadUri,
    /// Bytes follow the URI or the height in a payload.
    PayloadRest,
    /// A payload ends within its number or its URI.
    PayloadShort,
    /// A payload's number is not in its shortest form, or is 2^64 or more.
    PayloadVaruint,
    /// The result of an operation has more than 4096 bytes, or more than 2048 are hexlified.
    ResultTooLong,
    /// An operation on a path that has 255 operations already.
    TooDeep,
    /// A file's first 31 bytes are others.
    BadMagic,
    /// A file's version isn't 1.
    BadVersion,
    /// A file's digest is of no hash that is known.
    BadHashOp,
    /// Bytes follow the tree.
    TrailingBytes,
}

impl Reason {
    /// The words that it prints as.
    pub fn words(self) -> &'static str
        ensures { result.now ≡ printed self }
    {
        match self {
            Reason::Truncated => "truncated",
            Reason::UnknownOp => "unknown operation",
            Reason::Keccak => "keccak",
            Reason::ForkFork => "fork after fork",
            Reason::NonMinimal => "non-minimal number",
            Reason::VaruintTooLarge => "number too large",
            Reason::ArgEmpty => "empty argument",
            Reason::ArgTooLong => "argument too long",
            Reason::PayloadTooLong => "payload too long",
            Reason::BadUri => "bad uri",
            Reason::PayloadRest => "payload rest",
            Reason::PayloadShort => "payload short",
            Reason::PayloadVaruint => "payload number",
            Reason::ResultTooLong => "result too long",
            Reason::TooDeep => "too deep",
            Reason::BadMagic => "bad magic",
            Reason::BadVersion => "bad version",
            Reason::BadHashOp => "bad hash operation",
            Reason::TrailingBytes => "trailing bytes",
        }
    }
}

impl fmt::Display for Reason {
    ghost use Rattle.std.specs.Prelude.{Some};
    ghost use Rattle.ots_reader.specs.Printed.{printed};

    ghost output = { λ reason. Some (printed reason) };

    fn fmt<W: fmt::Write>(&self, f: &mut fmt::Formatter<W>) -> fmt::Result {
        f.write_str(self.words())
    }
}

/// Where bytes are no proof, and why.
#[derive(Clone, Copy, Debug, PartialEq, Eq)]
pub struct Fault {
    /// The first byte of the token that is wrong, counted from 0.
    pub place: u64,
    /// What is wrong with it.
    pub reason: Reason,
}

/// Why no tree was read.
#[derive(Clone, Copy, Debug, PartialEq, Eq)]
pub enum ReadError {
    /// The bytes begin with no tree.
    Fault(Fault),
    /// Memory ran out.
    OutOfMemory,
}

impl From<Fault> for ReadError {
    ghost use Rattle.std.specs.Prelude.{◌≡◌};
    ghost use Rattle.ots_reader.specs.declared.fault.ReadError.TheVariants.{Fault};

    ghost from_gives = { λ f e. e ≡ Fault f };

    fn from(fault: Fault) -> ReadError {
        ReadError::Fault(fault)
    }
}

impl From<OutOfMemory> for ReadError {
    ghost use Rattle.std.specs.Prelude.{◌≡◌};
    ghost use Rattle.ots_reader.specs.declared.fault.ReadError.TheVariants.{OutOfMemory};

    ghost from_gives = { λ _ e. e ≡ OutOfMemory };

    fn from(_: OutOfMemory) -> ReadError {
        ReadError::OutOfMemory
    }
}

impl<T: Drop> From<AllocFailed<T>> for ReadError {
    ghost use Rattle.std.specs.Prelude.{◌≡◌};
    ghost use Rattle.ots_reader.specs.declared.fault.ReadError.TheVariants.{OutOfMemory};

    ghost from_gives = { λ _ e. e ≡ OutOfMemory };

    fn from(_: AllocFailed<T>) -> ReadError {
        ReadError::OutOfMemory
    }
}
