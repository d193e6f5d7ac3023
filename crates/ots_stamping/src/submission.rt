//! The files that are to be stamped, and whom to ask.
ghost use Rattle.std.specs.Prelude.{◌≡◌, ◌≤◌, length};
ghost use Rattle.std.specs.List.{All};
ghost use Rattle.ots_client_words.specs.declared.limits.TheConstants.{MAX_STAMPED};

use ots_address::Address;
use ots_ops::Digest;

/// Files that calendars are asked to timestamp.
#[derive(Drop)]
pub struct Submission<'a> {
    pub calendars: Vec<Address>,
    /// How many of the calendars have to do so.
    pub least: u32,
    /// The names of the files.
    pub files: Vec<&'a str>,
    /// The SHA-256 of each.
    pub digests: Vec<Digest>,
    pub ghost wanted: { 1 ≤ least },
    pub ghost some: { 1 ≤ length files.items },
    pub ghost most: { length files.items ≤ MAX_STAMPED },
    pub ghost each: { length digests.items ≡ length files.items },
    pub ghost sha256: { All (λ digest. length digest ≡ 32) digests.items },
}
