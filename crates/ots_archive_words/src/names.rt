//! Names of files, or a file that has them.

/// The files that a command is about.
#[derive(Drop)]
pub enum Names<'a> {
    /// These, each of at least one byte: at least one and at most [`MAX_NAMES`](crate::MAX_NAMES).
    Given(Vec<&'a str>),
    /// Those of the file of sums with this name.
    Sums(&'a str),
}
