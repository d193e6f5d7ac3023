//! The commands.
ghost use Rattle.std.specs.Prelude.{◌<◌, ◌≤◌, ◌^◌};

/// What the words ask for, of the journal that the first of them names.
#[derive(Clone, Copy)]
pub enum DaemonCommand<'a> {
    /// `serve --key FILE --uri URI --port P --workers W --accept N`: answer connections.
    Serve(Serving<'a>),
    /// `batch --key FILE --uri URI DIGESTS`: put each line of a file under one commitment.
    Batch(Batch<'a>),
    /// `tip`: the root that is to be put into a block.
    Tip,
    /// `anchor BLOCK --height H`: find that root in a block.
    Anchor(Anchoring<'a>),
    /// `list`: print the records.
    List,
    /// `migrate OLD`: carry the journal of version 1 under this name over.
    Migrate(&'a str),
}

/// How connections are answered.
#[derive(Clone, Copy)]
pub struct Serving<'a> {
    /// The file of the operator's key.
    pub key: &'a str,
    /// The calendar's address.
    pub uri: &'a str,
    /// The port, at least 1.
    pub port: u16,
    /// How many workers there are, 1 to 64.
    pub workers: u64,
    /// After how many connections serving ends, 1 to 2^32 - 1. Where it is not given, nothing bounds
    /// them.
    pub accept: Option<u64>,
    pub ghost workers_some: { 1 ≤ workers },
    pub ghost workers_few: { workers ≤ 64 },
}

/// What is put under one commitment.
#[derive(Clone, Copy)]
pub struct Batch<'a> {
    /// The file of the operator's key.
    pub key: &'a str,
    /// The calendar's address.
    pub uri: &'a str,
    /// The file of the digests, a line each.
    pub digests: &'a str,
}

/// The block that a tip is to be anchored in.
#[derive(Clone, Copy)]
pub struct Anchoring<'a> {
    /// Its file.
    pub block: &'a str,
    /// Its height, below 2^63.
    pub height: u64,
    pub ghost height_small: { height < 2 ^ 63 },
}
