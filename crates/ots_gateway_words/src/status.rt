//! How a run ends.
ghost use Rattle.std.specs.Prelude.{◌≡◌};
ghost use Rattle.ots_gateway_words.specs.Status.{number};

/// How a run of the gateway ended. A program ends with the status's number, which is the one that the
/// calendar's program has for the same.
#[derive(Clone, Copy, Debug, PartialEq, Eq)]
pub enum GateStatus {
    /// No connection is to come any more, or as many were accepted as the words ask for.
    Done,
    /// The words are not of the form.
    Usage,
    /// The sink counted a fault.
    WriteFault,
    /// A calendar's address is not of its form.
    BadAddress {
        /// The place of its first byte in the list of addresses.
        place: u64,
        /// Whether it begins with `https://`.
        https: bool,
    },
    /// Memory ran out.
    OutOfMemory,
    /// The accepter counted a fault.
    AcceptFault,
}

impl GateStatus {
    /// The number that a program with this status ends with.
    pub fn number(self) -> u8
        ensures { result ≡ number self }
    {
        match self {
            GateStatus::Done => 0,
            GateStatus::Usage => 2,
            GateStatus::WriteFault => 7,
            GateStatus::BadAddress { .. } => 14,
            GateStatus::OutOfMemory => 20,
            GateStatus::AcceptFault => 32,
        }
    }
}
