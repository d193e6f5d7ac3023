//! The text that `ots info` prints of a proof, put piece after piece: a line for the file's hash and
//! digest, then one for each operation and attestation.
ghost use Rattle.std.specs.Prelude.{◌≡◌, ◌++◌, ℕ, List, length};
ghost use Rattle.std.specs.List.{flat_map};
ghost use Rattle.hex.specs.Hex.{encode_lower};
ghost use Rattle.ots_printer.specs.Printing.{Puts};
ghost use Rattle.ots_tree.specs.Kept.{beside};
ghost use Rattle.ots_info.specs.Listing.{IsInfoText, attestation_words, file_line, hash_words, item_line, item_words};
ghost use Rattle.ots_info.specs.Listing.{op_words, or_dash, pair_words};

use ots_attest::Attestation;
use ots_ops::{Digest, HashOp, Op};
use ots_outside::Sink;
use ots_printer::Printer;
use ots_tree::{Detached, Token};

/// Puts what `info` prints: the line of the file, then that of each item.
pub fn put_proof<K: Sink>(proof: &Detached, out: &mut Printer<'_, K>)
    ensures { (bytes : List ℕ) × IsInfoText proof.now bytes × Puts K.taken K.faults K.same bytes out.old out.new }
{
    put_file(proof.hash, &proof.digest, out);
    put_items(proof.tree.tokens(), proof.tree.depths(), out);
}

/// Puts the line of a file.
fn put_file<K: Sink>(hash: HashOp, digest: &Digest, out: &mut Printer<'_, K>)
    ensures { Puts K.taken K.faults K.same (file_line hash digest.now) out.old out.new }
{
    out.word("file ");
    put_pair(hash, digest, out);
    out.word("\n");
}

/// Puts a hash and a digest.
pub fn put_pair<K: Sink>(hash: HashOp, digest: &Digest, out: &mut Printer<'_, K>)
    ensures { Puts K.taken K.faults K.same (pair_words hash digest.now) out.old out.new }
{
    out.word(word_of(hash));
    out.word(" ");
    out.hex(digest.bytes());
}

/// The word for a hash.
fn word_of(hash: HashOp) -> &'static str
    ensures { result.now ≡ hash_words hash }
{
    match hash {
        HashOp::Sha1 => "sha1",
        HashOp::Ripemd160 => "ripemd160",
        HashOp::Sha256 => "sha256",
    }
}

/// Puts the line of each item, beside which stands the number of operations before it.
fn put_items<K: Sink>(tokens: &[Token], depths: &[u32], out: &mut Printer<'_, K>)
    requires { length depths.now ≡ length tokens.now }
    ensures { Puts K.taken K.faults K.same (flat_map item_line (beside tokens.now depths.now)) out.old out.new }
{
    for (at, token) in tokens.iter().enumerate() {
        put_item(depths[at], token, out);
    }
}

/// Puts the line of an item; a fork has none.
fn put_item<K: Sink>(depth: u32, token: &Token, out: &mut Printer<'_, K>)
    ensures { Puts K.taken K.faults K.same (item_words depth token.now) out.old out.new }
{
    match token {
        Token::Fork => {}
        Token::Op(op) => {
            out.number(depth as u64);
            out.word(" ");
            put_op(op, out);
            out.word("\n");
        }
        Token::Attestation(attestation) => {
            out.number(depth as u64);
            out.word(" ");
            put_attestation(attestation, out);
            out.word("\n");
        }
    }
}

/// Puts the words of an operation.
fn put_op<K: Sink>(op: &Op, out: &mut Printer<'_, K>)
    ensures { Puts K.taken K.faults K.same (op_words op.now) out.old out.new }
{
    match op {
        Op::Sha1 => out.word("sha1"),
        Op::Ripemd160 => out.word("ripemd160"),
        Op::Sha256 => out.word("sha256"),
        Op::Append(argument) => put_with_hex("append ", argument.bytes(), out),
        Op::Prepend(argument) => put_with_hex("prepend ", argument.bytes(), out),
        Op::Reverse => out.word("reverse"),
        Op::Hexlify => out.word("hexlify"),
    }
}

/// Puts a word, and bytes in hexadecimal.
fn put_with_hex<K: Sink>(word: &str, bytes: &[u8], out: &mut Printer<'_, K>)
    ensures { Puts K.taken K.faults K.same (word.now ++ encode_lower bytes.now) out.old out.new }
{
    out.word(word);
    out.hex(bytes);
}

/// Puts the words of an attestation.
fn put_attestation<K: Sink>(attestation: &Attestation, out: &mut Printer<'_, K>)
    ensures { Puts K.taken K.faults K.same (attestation_words attestation.now) out.old out.new }
{
    match attestation {
        Attestation::Pending(uri) => {
            out.word("pending ");
            put_uri(uri.text(), out);
        }
        Attestation::Bitcoin(height) => {
            out.word("bitcoin ");
            out.number(*height);
        }
        Attestation::Litecoin(height) => {
            out.word("litecoin ");
            out.number(*height);
        }
        Attestation::Unknown(other) => {
            put_with_hex("unknown ", other.kind(), out);
            out.word(" ");
            put_payload(other.payload().bytes(), out);
        }
    }
}

/// Puts a URI, a dash where it is empty.
fn put_uri<K: Sink>(uri: &str, out: &mut Printer<'_, K>)
    ensures { Puts K.taken K.faults K.same (or_dash uri.now) out.old out.new }
{
    out.word(if uri.is_empty() { "-" } else { uri });
}

/// Puts a payload in hexadecimal, a dash where it is empty.
fn put_payload<K: Sink>(payload: &[u8], out: &mut Printer<'_, K>)
    ensures { Puts K.taken K.faults K.same (or_dash (encode_lower payload.now)) out.old out.new }
{
    if payload.is_empty() {
        out.word("-");
    } else {
        out.hex(payload);
    }
}
