//! What the words ask for.
ghost use Rattle.std.specs.Prelude.{◌≤◌};
ghost use Rattle.ots_gateway_words.specs.declared.limits.TheConstants.{MAX_ROUND, MAX_TREES};

/// What the words ask for: `--calendars LIST --min M --port P --round K`, and perhaps `--accept N`.
#[derive(Clone, Copy)]
pub struct Gathering<'a> {
    /// The list of calendar addresses, as it was given.
    pub calendars: &'a str,
    /// How many calendars' trees a round needs, 1 to [`MAX_TREES`](crate::MAX_TREES).
    pub min: u32,
    /// The port, at least 1.
    pub port: u16,
    /// How many links a round has at most, 1 to [`MAX_ROUND`](crate::MAX_ROUND).
    pub round: u32,
    /// After how many connections serving ends, 1 to 2^32 - 1. Where it is not given, nothing bounds
    /// them.
    pub accept: Option<u64>,
    pub ghost min_some: { 1 ≤ min },
    pub ghost min_few: { min ≤ MAX_TREES },
    pub ghost round_some: { 1 ≤ round },
    pub ghost round_few: { round ≤ MAX_ROUND },
}
