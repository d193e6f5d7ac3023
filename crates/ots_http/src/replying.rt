//! Replies that a calendar writes.
ghost use Rattle.std.specs.Prelude.{◌≡◌, ◌≤◌, ◌<◌, [], length, codes};
ghost use Rattle.ots_base.specs.Cause.{HasCause};
ghost use Rattle.ots_tree.specs.Wire.{spelled};
ghost use Rattle.ots_http.specs.ReplyText.{IsReply, reply_bytes, reply_head, text_reply, octets_reply, status_of};
ghost use Rattle.ots_http.specs.Written.{WritesAll};

use crate::draft::{Draft, ROOM};
use crate::draft_sink::add_tree;
use crate::word::Word;
use crate::writing::{LinkFault, write_bytes};
use ots_base::{MAX_PROOF_FILE, MAX_REPLY_BODY};
use ots_outside::{Bytes, Link, LinkSink};
use ots_tree::{Tree, spell_to, spelled_length};

/// More bytes than the head of a reply has.
const HEAD_ROOM: usize = 256;

/// The room of a reply in words, which is filled with zeros in a moment.
const TEXT_ROOM: usize = 512;

/// A reply of a calendar.
#[derive(Debug, Drop)]
pub enum Reply {
    /// Status 200 and this tree, whose spelling has at most `MAX_PROOF_FILE` bytes.
    Tree(Tree),
    /// Status 200 and these bytes, a page of records of at most `MAX_REPLY_BODY` bytes.
    Page(Bytes),
    /// A status and the words that stand with it.
    Text(u16, Word),
}

/// Writes a reply, in one piece where its body has at most `MAX_REPLY_BODY` bytes, and a longer tree
/// after its head as `spell_to` spells it.
///
/// `LinkFault` comes only where the link's count of faults rose, and the link has then taken a prefix
/// of the reply. It takes no memory.
pub fn write_reply<L: Link>(link: &mut L, reply: &Reply) -> Result<(), LinkFault>
    requires { IsReply reply.now }
    ensures written { WritesAll (reply_bytes reply.now) (L.told link.old) (L.told link.new) result }
    ensures cause { HasCause (L.faults link.old) (L.faults link.new) result }
    ensures same { L.same link.old link.new }
{
    match reply {
        Reply::Tree(tree) => write_tree(link, tree),
        Reply::Page(page) => write_page(link, page.items()),
        Reply::Text(status, word) => write_text(link, *status, *word),
    }
}

/// Writes the reply with this status and these words.
fn write_text<L: Link>(link: &mut L, status: u16, word: Word) -> Result<(), LinkFault>
    ensures written { WritesAll (text_reply status word) (L.told link.old) (L.told link.new) result }
    ensures cause { HasCause (L.faults link.old) (L.faults link.new) result }
    ensures same { L.same link.old link.new }
{
    let words = word.words();
    let size = words.len() as u64 + 1;
    let mut draft = Draft::<TEXT_ROOM>::new();
    add_head(&mut draft, status, word.phrase(), "text/plain", size);
    draft.add(words.as_bytes());
    draft.add(b"\n");
    write_bytes(link, draft.text())
}

/// Writes the reply with this tree.
fn write_tree<L: Link>(link: &mut L, tree: &Tree) -> Result<(), LinkFault>
    requires { length (spelled tree.now) ≤ MAX_PROOF_FILE }
    ensures written { WritesAll (octets_reply (spelled tree.now)) (L.told link.old) (L.told link.new) result }
    ensures cause { HasCause (L.faults link.old) (L.faults link.new) result }
    ensures same { L.same link.old link.new }
{
    let size = size_of(tree);
    let mut draft = Draft::<ROOM>::new();
    add_octets_head(&mut draft, size);
    if size <= MAX_REPLY_BODY as u64 {
        add_tree(&mut draft, tree);
        return write_bytes(link, draft.text());
    }
    match write_bytes(link, draft.text()) {
        Ok(()) => write_spelling(link, tree),
        Err(_) => Err(LinkFault),
    }
}

/// How many bytes the spelling of a tree has that fits into a proof file.
fn size_of(tree: &Tree) -> u64
    requires { length (spelled tree.now) ≤ MAX_PROOF_FILE }
    ensures { result ≡ length (spelled tree.now) }
{
    spelled_length(tree)
}

/// Writes the reply with this page.
fn write_page<L: Link>(link: &mut L, page: &[u8]) -> Result<(), LinkFault>
    requires { length page.now ≤ MAX_REPLY_BODY }
    ensures written { WritesAll (octets_reply page.now) (L.told link.old) (L.told link.new) result }
    ensures cause { HasCause (L.faults link.old) (L.faults link.new) result }
    ensures same { L.same link.old link.new }
{
    let mut draft = Draft::<ROOM>::new();
    add_octets_head(&mut draft, page.len() as u64);
    draft.add(page);
    write_bytes(link, draft.text())
}

/// Writes the bytes of a tree.
fn write_spelling<L: Link>(link: &mut L, tree: &Tree) -> Result<(), LinkFault>
    ensures written { WritesAll (spelled tree.now) (L.told link.old) (L.told link.new) result }
    ensures cause { HasCause (L.faults link.old) (L.faults link.new) result }
    ensures same { L.same link.old link.new }
{
    match spell_to(tree, &mut LinkSink::new(link)) {
        Ok(()) => Ok(()),
        Err(_) => Err(LinkFault),
    }
}

/// Begins a reply with as many bytes, of a tree or of a page.
fn add_octets_head(draft: &mut Draft<ROOM>, size: u64)
    requires { draft.old ≡ [] }
    ensures head { draft.new ≡ reply_head 200 (codes "OK") (codes "application/octet-stream") size }
    ensures short { length draft.new < HEAD_ROOM }
{
    add_head(draft, 200, "OK", "application/octet-stream", size);
}

/// Begins a reply with its head.
fn add_head<const N: usize>(draft: &mut Draft<N>, status: u16, phrase: &str, kind: &str, size: u64)
    requires room { HEAD_ROOM ≤ N }
    requires empty { draft.old ≡ [] }
    requires phrase { length phrase.now ≤ 32 }
    requires kind { length kind.now ≤ 32 }
    ensures head { draft.new ≡ reply_head status phrase.now kind.now size }
    ensures short { length draft.new < HEAD_ROOM }
{
    draft.add(b"HTTP/1.1 ");
    draft.add_number(u64::from(status));
    draft.add(b" ");
    draft.add(phrase.as_bytes());
    draft.add(b"\r\nContent-Type: ");
    draft.add(kind.as_bytes());
    draft.add(b"\r\nContent-Length: ");
    draft.add_number(size);
    draft.add(b"\r\nConnection: close\r\n\r\n");
}
