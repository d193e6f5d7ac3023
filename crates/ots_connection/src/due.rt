//! What is due for a request.
ghost use Rattle.std.specs.Prelude.{◌≡◌, ◌≤◌, length, Some};
ghost use Rattle.ots_base.specs.declared.limits.TheConstants.{MAX_PROOF_FILE, MAX_REPLY_BODY};
ghost use Rattle.ots_http.specs.ReplyText.{IsReply, status_of};
ghost use Rattle.ots_tree.specs.Wire.{spelled};
ghost use Rattle.ots_http.specs.ReplyText.{refusal};
ghost use Rattle.ots_connection.specs.Replies.{in_words, with_tree, paged, stamp};

use crate::Served;
use ots_calendar::Receipt;
use ots_http::{Reply, Word};
use ots_outside::Bytes;
use ots_tree::Tree;

/// The most tokens of a tree that is sent. A stamp has at most 37, and the tree of a commitment that is
/// anchored at most 202.
pub(crate) const MAX_TOKENS: usize = 256;

/// The reply that is due, and how the connection ended once it is written.
#[derive(Debug, Drop)]
pub(crate) struct Due {
    pub(crate) reply: Reply,
    pub(crate) served: Served,
}

/// The reply with this status and the words that stand with it.
pub(crate) fn in_words(status: u16, word: Word) -> Due
    requires { status ≡ status_of word }
    ensures due { result ≡ in_words word }
    ensures reply { IsReply result.reply }
{
    Due {
        reply: Reply::Text(status, word),
        served: Served::Replied(status),
    }
}

/// The reply to a request that is refused with this status.
pub(crate) fn refusal(status: u16) -> Due
    ensures due { result ≡ in_words (refusal status) }
    ensures reply { IsReply result.reply }
{
    let word = Word::of_refused(status);
    in_words(word.status(), word)
}

/// The reply with the tree of a commitment.
pub(crate) fn with_tree(tree: Tree) -> Due
    requires { length tree ≤ MAX_TOKENS }
    ensures due { result ≡ with_tree tree }
    ensures reply { IsReply result.reply }
{
    fits(&tree);
    Due {
        reply: Reply::Tree(tree),
        served: Served::Replied(200),
    }
}

/// The reply with a page of records.
pub(crate) fn with_page(page: Bytes) -> Due
    requires { length page ≤ MAX_REPLY_BODY }
    ensures due { result ≡ paged (Some page) }
    ensures reply { IsReply result.reply }
{
    Due {
        reply: Reply::Page(page),
        served: Served::Replied(200),
    }
}

/// The reply with the tree of a digest.
pub(crate) fn stamp(tree: Tree, receipt: Receipt) -> Due
    requires { length tree ≤ MAX_TOKENS }
    ensures due { result ≡ stamp tree receipt }
    ensures reply { IsReply result.reply }
{
    fits(&tree);
    Due {
        reply: Reply::Tree(tree),
        served: Served::Stamped(receipt),
    }
}

/// A tree with so few tokens fits a reply. It does nothing.
fn fits(tree: &Tree)
    requires { length tree.now ≤ MAX_TOKENS }
    ensures { length (spelled tree.now) ≤ MAX_PROOF_FILE }
{
    tree.tokens();
}
