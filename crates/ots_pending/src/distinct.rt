//! Distinct messages, each with a number.
ghost use Rattle.std.specs.Prelude.{◌≡◌, ◌≤◌, ◌↔◌, [], length, IfOk, OnErr, OnOk, IsTrue, Some};
ghost use Rattle.sha2.specs.Sha256.{sha256};
ghost use Rattle.ots_pending.specs.Distinct.{AreDistinct, IsIndexed, IsNotedIn, IsNumbered, IsPlaceOf};
ghost use Rattle.std.specs.List.{slice_get};

use ots_base::{MAX_MESSAGE, OutOfMemory};
use ots_ops::Message;
use sha2::{Digest, Sha256};
use std::alloc::Global;
use std::collections::BTreeMap;
use std::marker::Model;

/// Distinct messages, numbered from 0 in the order in which they came.
///
/// They are found by their SHA-256. A message whose digest is another one's too is looked for among
/// all, so that numbers are right whatever the digests are.
///
/// Contracts see the list of these messages.
#[derive(Drop)]
pub(crate) struct Distinct {
    items: Vec<Message>,
    by_digest: BTreeMap<[u8; 32], usize>,
}

impl Model for Distinct {
    ghost use Rattle.std.specs.Prelude.{ℕ, List};
    ghost use Rattle.ots_pending.specs.Distinct.{IsIndexed};

    ghost Value = { List (List ℕ) };

    ghost view = { λ d. d.items.items };

    ghost invariant = { λ d. IsIndexed d.items.items d.by_digest.entries };
}

impl Distinct {
    /// No message yet.
    pub(crate) fn new(alloc: Global) -> Distinct
        ensures { result ≡ [] }
    {
        Distinct {
            items: Vec::new(alloc),
            by_digest: BTreeMap::new(alloc),
        }
    }

    /// The messages by their numbers.
    pub(crate) fn items(&self) -> &[Message]
        ensures items { result.now ≡ self.now }
        ensures distinct { AreDistinct self.now }
    {
        self.items.as_slice()
    }

    /// The number of a message, where it is among them.
    pub(crate) fn place(&self, bytes: &[u8]) -> Option<usize>
        ensures { IsPlaceOf self.now bytes.now result }
    {
        place_of(&self.items, &self.by_digest, &digest_of(bytes), bytes)
    }

    /// The number of a message of at most 4096 bytes, which is added where it is new. Where memory ran
    /// out they are as before.
    pub(crate) fn number(&mut self, alloc: Global, bytes: &[u8]) -> Result<usize, OutOfMemory>
        requires { length bytes.now ≤ MAX_MESSAGE }
        ensures numbered { IfOk result (IsNumbered self.old self.new bytes.now) }
        ensures distinct { AreDistinct self.new }
        ensures as_before { OnErr result (self.new ≡ self.old) }
    {
        let digest = digest_of(bytes);
        if let Some(number) = place_of(&self.items, &self.by_digest, &digest, bytes) {
            return Ok(number);
        }
        let number = self.items.len();
        let item = Message::new(alloc, bytes)?;
        self.items.reserve(1)?;
        note(&mut self.by_digest, digest, number)?;
        self.items.push_reserved(item);
        Ok(number)
    }
}

/// The SHA-256 of these bytes.
fn digest_of(bytes: &[u8]) -> [u8; 32]
    ensures { result ≡ sha256 bytes.now }
{
    Sha256::digest(bytes)
}

/// The place of a message with this digest.
fn place_of(
    items: &[Message],
    by_digest: &BTreeMap<[u8; 32], usize>,
    digest: &[u8; 32],
    bytes: &[u8],
) -> Option<usize>
    requires indexed { IsIndexed items.now by_digest.now.entries }
    requires digest { digest.now ≡ sha256 bytes.now }
    ensures { IsPlaceOf items.now bytes.now result }
{
    let number = *by_digest.get(digest)?;
    if stands_at(items, number, bytes) {
        return Some(number);
    }
    place_among(items, bytes)
}

/// The place of a message among all.
fn place_among(items: &[Message], bytes: &[u8]) -> Option<usize>
    ensures { IsPlaceOf items.now bytes.now result }
{
    for place in 0..items.len() {
        if stands_at(items, place, bytes) {
            return Some(place);
        }
    }
    None
}

/// Whether the message stands at this place.
fn stands_at(items: &[Message], place: usize, bytes: &[u8]) -> bool
    ensures { IsTrue result ↔ (slice_get items.now place ≡ Some bytes.now) }
{
    match items.get(place) {
        Some(item) => item.bytes() == bytes,
        None => false,
    }
}

/// Notes the number of a message with this digest, where none is noted there.
fn note(
    by_digest: &mut BTreeMap<[u8; 32], usize>,
    digest: [u8; 32],
    number: usize,
) -> Result<(), OutOfMemory>
    ensures there { OnOk result (IsNotedIn by_digest.old.entries digest by_digest.new.entries) }
    ensures as_before { OnErr result (by_digest.new.entries ≡ by_digest.old.entries) }
{
    if by_digest.contains_key(&digest) {
        return Ok(());
    }
    by_digest.insert(digest, number)?;
    Ok(())
}
