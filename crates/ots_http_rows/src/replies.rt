// Replies of a calendar, by their words.
ghost use Rattle.std.specs.Prelude.{◌≡◌, true};
ghost use Rattle.ots_http.specs.ReplyText.{IsReply};

use ots_base::{MAX_PROOF_FILE, MAX_REPLY_BODY};
use ots_http::{Reply, Word};
use ots_tree::spelled_length;

/// The reply of these words, where there is one.
pub fn text_reply(words: &str) -> Option<Reply> {
    let word = word_of(words)?;
    Some(Reply::Text(word.status(), word))
}

/// Whether a calendar may write this reply: its status is that of its words, its tree is no longer than a proof, or
/// its page no longer than a body that a client takes.
pub fn is_reply(reply: &Reply) -> bool
    ensures { result ≡ true → IsReply reply.now }
{
    match reply {
        Reply::Tree(tree) => spelled_length(tree) <= MAX_PROOF_FILE as u64,
        Reply::Page(page) => page.items().len() <= MAX_REPLY_BODY,
        Reply::Text(status, word) => *status == word.status(),
    }
}

/// The words of a reply, as a script has them.
fn word_of(words: &str) -> Option<Word> {
    match words {
        "bad request" => Some(Word::BadRequest),
        "not found" => Some(Word::NotFound),
        "pending" => Some(Word::Pending),
        "method not allowed" => Some(Word::MethodNotAllowed),
        "length required" => Some(Word::LengthRequired),
        "too large" => Some(Word::TooLarge),
        "clock" => Some(Word::Clock),
        "busy" => Some(Word::Busy),
        "disk" => Some(Word::Disk),
        "nonce" => Some(Word::Nonce),
        "upstream" => Some(Word::Upstream),
        "journal full" => Some(Word::JournalFull),
        _ => None,
    }
}
