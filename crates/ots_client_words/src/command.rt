//! The commands.
ghost use Rattle.std.specs.Prelude.{◌-◌, ◌^◌, ◌≤◌, length};
ghost use Rattle.ots_client_words.specs.declared.limits.TheConstants.{MAX_PATHS, MAX_STAMPED};

/// What the words ask for.
#[derive(Drop)]
pub enum ClientCommand<'a> {
    /// `info PROOF`: print what this proof says.
    Info(&'a str),
    /// `canon IN OUT`: write the canonical form of the proof under the first name as the second.
    Canon(&'a str, &'a str),
    /// `merge A B OUT`: join the proofs under the first two names, and write that as the third.
    Merge(&'a str, &'a str, &'a str),
    /// `prune IN OUT`: prune the proof under the first name, and write that as the second.
    Prune(&'a str, &'a str),
    /// `verify FILE PROOF HEADERS --from N`: say whether the proof confirms the file.
    Verify(Verification<'a>),
    /// `stamp --calendars LIST --min M FILE..`: make a proof of each of these files that calendars
    /// timestamp.
    Stamp(Stamping<'a>),
    /// `upgrade --calendars LIST IN OUT`: ask calendars to complete the proof under the first name,
    /// and write that as the second.
    Upgrade(Upgrading<'a>),
    /// `sample N`: make a proof of N paths by a rule, verify it, and print what it comes to.
    Sample(Sampling),
    /// `chain HEADERS --from N --pins PINS`, of which `--pins` may be absent: say whether the headers are one chain,
    /// and have the block hashes that the pins name.
    Chain(Chaining<'a>),
}

/// What `stamp` is to do.
#[derive(Drop)]
pub struct Stamping<'a> {
    /// The list of calendar addresses, as it was given.
    pub calendars: &'a str,
    /// How many calendars have to timestamp the files, 1 to 16.
    pub least: u32,
    /// The files, at least one and at most [`MAX_STAMPED`](crate::MAX_STAMPED).
    pub files: Vec<&'a str>,
    pub ghost wanted: { 1 ≤ least },
    pub ghost some: { 1 ≤ length files.items },
    pub ghost most: { length files.items ≤ MAX_STAMPED },
}

/// What `upgrade` is to do.
#[derive(Clone, Copy)]
pub struct Upgrading<'a> {
    /// The list of calendar addresses, as it was given.
    pub calendars: &'a str,
    /// The file of the proof.
    pub proof: &'a str,
    /// The name under which the completed proof is written.
    pub to: &'a str,
}

/// What `sample` is to make.
#[derive(Clone, Copy)]
pub struct Sampling {
    /// How many paths the proof has, 1 to [`MAX_PATHS`](crate::MAX_PATHS).
    pub paths: u32,
    pub ghost some: { 1 ≤ paths },
    pub ghost most: { paths ≤ MAX_PATHS },
}

/// What `chain` is to check.
#[derive(Clone, Copy)]
pub struct Chaining<'a> {
    /// The headers.
    pub headers: HeaderFile<'a>,
    /// The file of pins, where it is given.
    pub pins: Option<&'a str>,
}

/// What `verify` is to check.
#[derive(Clone, Copy)]
pub struct Verification<'a> {
    /// The file that the proof is about.
    pub target: &'a str,
    /// The file of the proof.
    pub proof: &'a str,
    /// The headers of Bitcoin.
    pub bitcoin: HeaderFile<'a>,
    /// The headers of Litecoin, where they are given.
    pub litecoin: Option<HeaderFile<'a>>,
}

/// A file of block headers.
#[derive(Clone, Copy)]
pub struct HeaderFile<'a> {
    /// Its name.
    pub name: &'a str,
    /// The height of its first header, at most 2^63 - 1.
    pub first: u64,
    pub ghost first_small: { first ≤ 2 ^ 63 - 1 },
}
