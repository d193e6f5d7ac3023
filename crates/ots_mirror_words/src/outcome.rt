/// What came of a round, in which a calendar was asked for the page at the mirror's own count of
/// records.
#[derive(Clone, Copy, Debug, PartialEq, Eq)]
pub enum RoundOutcome {
    /// The page had this many entries, 1 to 128, which the journal holds now.
    Took(u64),
    /// The page had no entry: the calendar has no record that the mirror lacks.
    Current,
    /// The body of the reply is no page for that count, or one of its entries spells no record, or
    /// none that may follow the records before it. None of it is taken.
    BadPage,
    /// The conversation failed, and the dialer has counted the fault.
    Unreachable,
    /// The calendar answered with another status than 200.
    Status(u16),
    /// The body of the reply has more than 10,000 bytes.
    TooLong,
    /// What the calendar answered is no HTTP reply.
    BadHttp,
}
