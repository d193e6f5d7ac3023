// Attestations, and the URIs of calendars.
//
// | line | its answer |
// |---|---|
// | `attestation read KIND BYTES` | the attestation of this kind and payload, and that read where the bytes stand |
// | `attestation spell KIND BYTES` | the spelling of its copy in bytes 55, whether others stay, and its length twice |
// | `attestation order KIND BYTES \| ..` | how each compares with each |
// | `attestation uri BYTES` | the URI of these bytes, its copy, and that where they stand |
// | `attestation check BYTES` | whether they are a URI |
use crate::names::Names;
use crate::operations::say_spelled;
use crate::orders::say_order;
use crate::words::{bytes_of, split_word};
use ots_attest::{
    Attestation, AttestationRef, MAX_SPELLED_ATTESTATION, PayloadError, Uri, UriError, UriRef,
    from_payload, read_payload, spell_attestation,
};
use ots_row_words::Said;
use std::alloc::Global;

/// The longest payload.
const MOST: usize = 8192;

/// Answers a question about attestations.
pub fn answer(names: &Names, text: &str, said: &mut Said) {
    let (word, rest) = split_word(text);
    match word {
        "read" => read(names, rest, said),
        "spell" => spell(names, rest, said),
        "order" => order(names, rest, said),
        "uri" => uri(names.allocator(), &bytes_of(names, rest), said),
        _ => check(&bytes_of(names, rest), said),
    }
}

/// The kind of a word. One of other than eight bytes is zeros.
pub fn kind_of(names: &Names, word: &str) -> [u8; 8] {
    <[u8; 8]>::try_from(bytes_of(names, word).as_slice()).unwrap_or([0; 8])
}

/// The kind and the payload of these words.
fn parts_of(names: &Names, text: &str) -> ([u8; 8], Vec<u8>) {
    let (kind, rest) = split_word(text);
    (kind_of(names, kind), bytes_of(names, rest))
}

fn read(names: &Names, text: &str, said: &mut Said) {
    let (kind, payload) = parts_of(names, text);
    match owned(names.allocator(), kind, &payload) {
        Ok(attestation) => say_attestation(&attestation, said),
        Err(error) => say_refusal(error, said),
    }
    said.word("where it stands");
    standing(names.allocator(), kind, &payload, said);
}

/// The attestation of a kind and a payload.
pub fn owned(alloc: Global, kind: [u8; 8], payload: &[u8]) -> Result<Attestation, PayloadError> {
    if payload.len() > MOST {
        return Err(PayloadError::OutOfMemory);
    }
    from_payload(alloc, kind, payload)
}

/// Says the same, read where it stands, and then owned.
fn standing(alloc: Global, kind: [u8; 8], payload: &[u8], said: &mut Said) {
    if payload.len() <= MOST {
        match read_payload(kind, payload) {
            Ok(attestation) => say_owned(alloc, attestation, said),
            Err(error) => say_refusal(error, said),
        }
    }
}

/// Says an attestation whose URI or payload stands elsewhere.
fn say_owned(alloc: Global, attestation: AttestationRef<'_>, said: &mut Said) {
    if let Ok(owned) = attestation.to_owned(alloc) {
        say_attestation(&owned, said);
    }
}

/// Says why a payload is none.
fn say_refusal(error: PayloadError, said: &mut Said) {
    said.word(match error {
        PayloadError::BadUri => "bad uri",
        PayloadError::PayloadRest => "payload rest",
        PayloadError::PayloadShort => "payload short",
        PayloadError::PayloadVaruint => "payload number",
        PayloadError::OutOfMemory => "out of memory",
    });
}

/// Says an attestation.
pub fn say_attestation(attestation: &Attestation, said: &mut Said) {
    match attestation {
        Attestation::Bitcoin(height) => say_height("bitcoin", *height, said),
        Attestation::Litecoin(height) => say_height("litecoin", *height, said),
        Attestation::Pending(uri) => say_uri(uri.text(), said),
        Attestation::Unknown(other) => {
            said.word("unknown");
            said.bytes(other.kind());
            said.bytes(other.payload().bytes());
        }
    }
}

fn say_height(chain: &str, height: u64, said: &mut Said) {
    said.word(chain);
    said.number(height);
}

/// Says a URI in quotes.
pub fn say_uri(text: &str, said: &mut Said) {
    said.word("\"");
    said.push(text);
    said.push("\"");
}

/// Says the spelling of the attestation of a kind and a payload, as of its copy.
fn spell(names: &Names, text: &str, said: &mut Said) {
    let (kind, payload) = parts_of(names, text);
    if let Ok(attestation) = owned(names.allocator(), kind, &payload)
        && let Ok(copy) = attestation.copy()
    {
        say_spelling(&copy, said);
    }
}

fn say_spelling(attestation: &Attestation, said: &mut Said) {
    let mut out = [0x55; MAX_SPELLED_ATTESTATION];
    let length = spell_attestation(attestation, &mut out);
    say_spelled(&out, length, 0x55, said);
    said.count(length);
    said.count(attestation.spelled_length());
}

fn order(names: &Names, text: &str, said: &mut Said) {
    let mut attestations = Vec::new(names.allocator());
    for part in text.split(" | ") {
        push_attestation(names, part, &mut attestations);
    }
    say_order(&attestations, said);
}

/// Appends the attestation of a kind and a payload.
fn push_attestation(names: &Names, text: &str, attestations: &mut Vec<Attestation>) {
    let (kind, payload) = parts_of(names, text);
    if let Ok(attestation) = owned(names.allocator(), kind, &payload) {
        let _ = attestations.push(attestation);
    }
}

fn uri(alloc: Global, bytes: &[u8], said: &mut Said) {
    if let Ok(text) = str::from_utf8(bytes) {
        owned_uri(alloc, text, said);
        said.word("where it stands");
        match UriRef::new(text) {
            Ok(uri) => say_uri(uri.text(), said),
            Err(error) => say_error(error, said),
        }
    }
}

/// Says the copy of the URI of a text.
fn owned_uri(alloc: Global, text: &str, said: &mut Said) {
    match Uri::new(alloc, text) {
        Ok(uri) => say_copy(&uri, said),
        Err(error) => say_error(error, said),
    }
}

fn say_copy(uri: &Uri, said: &mut Said) {
    if let Ok(copy) = uri.copy() {
        say_uri(copy.text(), said);
    }
}

fn check(bytes: &[u8], said: &mut Said) {
    match Uri::check(bytes) {
        Ok(()) => said.word("a uri"),
        Err(error) => say_error(error, said),
    }
}

/// Says why bytes are no URI.
fn say_error(error: UriError, said: &mut Said) {
    match error {
        UriError::TooLong(length) => {
            said.word("too long");
            said.number(length);
        }
        UriError::BadChar(place) => {
            said.word("bad byte at");
            said.count(place);
        }
        UriError::OutOfMemory => said.word("out of memory"),
    }
}
