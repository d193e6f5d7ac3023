//! Which of the calendars' trees are taken.
ghost use Rattle.std.specs.Prelude.{◌≡◌, ◌≤◌, ◌<◌, ◌+◌, length, IfSome, IfNone};
ghost use Rattle.ots_base.specs.declared.limits.TheConstants.{MAX_REPLY_BODY};
ghost use Rattle.ots_gateway.specs.Taking.{size, taking};
ghost use Rattle.ots_stamp.specs.Stamped.{good_trees};

use ots_asking::Outcome;
use ots_base::MAX_REPLY_BODY;
use ots_tree::{Tree, spelled_length};

/// Goes through the good trees in the order of the calendars, and takes each that still fits into a
/// reply below a way of this many bytes, at most `MAX_REPLY_BODY`, 10,000: with those taken before it
/// and one byte between each two of them. One that does not fit is told as too long. It answers how
/// many are taken.
pub fn take_trees(outcomes: &mut [Outcome], way: u64) -> usize
    requires { way ≤ MAX_REPLY_BODY }
    ensures outcomes { outcomes.new ≡ taking way outcomes.old }
    ensures count { result ≡ length (good_trees outcomes.new) }
{
    let mut used = way;
    let mut taken = 0;
    for outcome in outcomes.iter_mut() {
        if let Outcome::Tree(tree) = outcome {
            match size_within(tree, used) {
                Some(size) => {
                    used += size + 1;
                    taken += 1;
                }
                None => *outcome = Outcome::TooLong,
            }
        }
    }
    taken
}

/// How many bytes a tree has, where it fits into a reply in which so many are used.
fn size_within(tree: &Tree, used: u64) -> Option<u64>
    requires { used ≤ MAX_REPLY_BODY + 1 }
    ensures fits { IfSome result (λ n. (n ≡ size tree.now) × (used + n ≤ MAX_REPLY_BODY)) }
    ensures over { IfNone result (MAX_REPLY_BODY < used + size tree.now) }
{
    let most = MAX_REPLY_BODY as u64;
    let size = spelled_length(tree);
    if size > most || used + size > most {
        return None;
    }
    Some(size)
}
