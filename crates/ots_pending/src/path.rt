//! The messages on the path of a walk, and their numbers.
use crate::lazy_path::LazyPath;

/// The messages on the path to where a walk over a tree is, by their depths.
#[derive(Drop)]
pub(crate) struct Path<'a> {
    /// The messages.
    pub(crate) messages: LazyPath<'a>,
    /// The numbers of those that were asked for.
    pub(crate) numbers: Vec<Option<usize>>,
}
