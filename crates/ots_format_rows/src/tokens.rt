// The bytes of tokens.
use crate::names::Names;
use crate::trees::spelled;
use ots_attest::{MAX_SPELLED_ATTESTATION, spell_attestation};
use ots_ops::{MAX_SPELLED_OP, spell_op};
use ots_row_words::Said;
use ots_tree::{Token, Tree, spelled_length};

/// The longest bytes of a tree that are told token by token.
const MOST: u64 = 2000;

/// Appends the bytes of a token.
pub fn push_spelled(token: &Token, bytes: &mut Vec<u8>) {
    match token {
        Token::Fork => {
            let _ = bytes.push(0xff);
        }
        Token::Op(op) => {
            let mut out = [0; MAX_SPELLED_OP];
            let length = spell_op(op, &mut out);
            push_prefix(&out, length, bytes);
        }
        Token::Attestation(attestation) => {
            let mut out = [0; MAX_SPELLED_ATTESTATION];
            let length = spell_attestation(attestation, &mut out);
            push_prefix(&out, length, bytes);
        }
    }
}

/// Appends the first bytes, so many.
fn push_prefix(out: &[u8], length: usize, bytes: &mut Vec<u8>) {
    if let Some(prefix) = out.get(..length) {
        let _ = bytes.extend_from_slice(prefix);
    }
}

/// Says the bytes of a tree token by token, and those of an attestation by their name, if they have one.
/// Those of a long tree are said by their number and their SHA-256.
pub fn say_tree(names: &Names, tree: &Tree, said: &mut Said) {
    if spelled_length(tree) > MOST {
        said.bytes(&spelled(names.allocator(), tree));
    } else {
        for token in tree.tokens() {
            say_spelled(names, token, said);
        }
    }
}

/// Says the bytes of a token, or their name.
fn say_spelled(names: &Names, token: &Token, said: &mut Said) {
    let mut bytes = Vec::new(names.allocator());
    push_spelled(token, &mut bytes);
    match names.name_of(&bytes) {
        Some(name) => said.word(name),
        None => said.bytes(&bytes),
    }
}
