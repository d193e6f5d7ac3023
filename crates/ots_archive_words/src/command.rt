//! The commands.
ghost use Rattle.std.specs.Prelude.{◌≤◌};
ghost use Rattle.ots_archive_words.specs.Names.{AreFew};
ghost use Rattle.ots_archive_words.specs.declared.limits.TheConstants.{MAX_WANTED};

use crate::names::Names;

/// What the words ask for. Where a command names files, `--sums SUMS` may stand in the place of the names.
#[derive(Drop)]
pub enum ArchiveCommand<'a> {
    /// `draft --calendars LIST FILE..`: write a draft of a proof for each of these files.
    Draft(Drafting<'a>),
    /// `ask --calendars LIST --all SHEET PROOF..`, of which `--all` may be absent: write a sheet of what these calendars
    /// are to be asked for the proofs.
    Ask(Asking<'a>),
    /// `take --min M --into FOLDER REPLIES PROOF..`: complete the proofs by a sheet of replies, and write them into a
    /// folder.
    Take(Taking<'a>),
}

/// What `draft` is to do.
#[derive(Drop)]
pub struct Drafting<'a> {
    /// The list of calendar addresses, as it was given.
    pub calendars: &'a str,
    /// The files.
    pub names: Names<'a>,
    pub ghost few: { AreFew names },
}

/// What `ask` is to do.
#[derive(Drop)]
pub struct Asking<'a> {
    /// The list of calendar addresses, as it was given.
    pub calendars: &'a str,
    /// Whether `--all` is given.
    pub all: bool,
    /// The name under which the sheet is written.
    pub sheet: &'a str,
    /// The proofs, or what has them by the names of their files.
    pub names: Names<'a>,
    pub ghost few: { AreFew names },
}

/// What `take` is to do.
#[derive(Drop)]
pub struct Taking<'a> {
    /// How many calendars have to timestamp a draft, 1 to [`MAX_WANTED`](crate::MAX_WANTED).
    pub least: u32,
    /// The folder into which the proofs are written.
    pub into: &'a str,
    /// The file of the sheet of replies.
    pub replies: &'a str,
    /// The proofs, or what has them by the names of their files.
    pub names: Names<'a>,
    pub ghost some_wanted: { 1 ≤ least },
    pub ghost few_wanted: { least ≤ MAX_WANTED },
    pub ghost few: { AreFew names },
}
