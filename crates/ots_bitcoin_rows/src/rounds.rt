// Keys, keyed hashes, and the commitments of rounds.
//
// | line | its answer |
// |---|---|
// | `round key BYTES` | whether they are a key |
// | `round hmac BYTES \| BYTES` | the keyed hash under a key of a message |
// | `round of SECOND I \| KEY \| TICKET \| ..` | the leaves of the tickets, their commitment, the way of ticket I |
//
// A ticket is the 16 bytes of a nonce, and then those of a digest. Its way is the operations from there to the
// commitment, as they are spelled.
use crate::names::Names;
use crate::said::Said;
use crate::trees::say_ops;
use crate::words::{array_of, bytes_of, number_of, split_bar, split_number, split_word};
use ots_merkle::{path, root};
use ots_outside::Leaf;
use ots_round::{
    BadKey, Key, MAX_KEY, Ticket, commitment, hmac_sha256, leaf_hashes, way_to_commitment,
};
use std::alloc::Global;

/// The most tickets, and the most bytes of a message.
const MOST: usize = 65_536;

/// The bytes of a nonce.
const NONCE: usize = 16;

/// Answers a question about rounds.
pub fn answer(names: &Names, text: &str, said: &mut Said) {
    let (word, rest) = split_word(text);
    match word {
        "key" => key(&bytes_of(names, rest), said),
        "hmac" => hmac(names, rest, said),
        _ => of(names, rest, said),
    }
}

fn key(bytes: &[u8], said: &mut Said) {
    match Key::new(bytes) {
        Ok(_) => said.word("a key"),
        Err(BadKey(length)) => {
            said.word("bad key of");
            said.number(length);
        }
    }
}

fn hmac(names: &Names, text: &str, said: &mut Said) {
    let (key, message) = split_bar(text);
    let key = bytes_of(names, key);
    let message = bytes_of(names, message);
    if !key.is_empty() && key.len() <= MAX_KEY && message.len() <= MOST {
        said.bytes(&hmac_sha256(&key, &message));
    }
}

fn of(names: &Names, text: &str, said: &mut Said) {
    let (numbers, rest) = split_bar(text);
    let (second, i) = split_number(numbers);
    let second = second.min(u64::from(u32::MAX)) as u32;
    let i = number_of(i) as usize;
    let (key, tickets) = split_bar(rest);
    let tickets = tickets_of(names, tickets);
    if let Ok(key) = Key::new(&bytes_of(names, key)) {
        say_round(names.allocator(), &key, second, &tickets, i, said);
    }
}

/// The tickets of these words.
fn tickets_of(names: &Names, text: &str) -> Vec<Ticket> {
    let mut tickets = Vec::new(names.allocator());
    for part in text.split(" | ") {
        let bytes = bytes_of(names, part);
        if let Ok(leaf) = Leaf::new(bytes.get(NONCE..).unwrap_or(&[])) {
            let _ = tickets.push(Ticket {
                number: 0,
                leaf,
                nonce: array_of(&bytes),
            });
        }
    }
    tickets
}

/// Says the leaves and the commitment of a round, and the way of a ticket.
fn say_round(alloc: Global, key: &Key, second: u32, tickets: &[Ticket], i: usize, said: &mut Said) {
    if let Ok(leaves) = leaf_hashes(alloc, tickets)
        && i < leaves.len()
        && leaves.len() <= MOST
        && let Some(ticket) = tickets.get(i)
        && let Ok(path) = path(alloc, &leaves, i)
    {
        let made = commitment(key, second, &root(&leaves));
        for leaf in &leaves {
            said.bytes(leaf);
        }
        said.bytes(&made);
        if let Ok(ops) = way_to_commitment(alloc, &ticket.nonce, &path, &made) {
            say_ops(alloc, ops.items(), said);
        }
    }
}
