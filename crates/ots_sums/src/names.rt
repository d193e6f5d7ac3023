//! Names of files as `sha256sum` spells them.
ghost use Rattle.std.specs.Prelude.{◌≡◌, ◌≢◌, ◌≤◌, ◌++◌, ℕ, List, length, drop, true, false, is_ok, if◌then◌else◌};
ghost use Rattle.std.specs.Prelude.{OnOk, OnErr, MatchOption};
ghost use Rattle.ots_sums.specs.Names.{escape_of, escaped, mark_of, needs_escape, spelled};
ghost use Rattle.ots_sums.specs.inner.Parts.{PutsWhere, Spells, SpellsName, Starts};

use ots_base::OutOfMemory;

/// Whether `sha256sum` escapes a name: it has a backslash, a line feed or a carriage return.
pub fn is_escaped(name: &[u8]) -> bool
    ensures { result ≡ needs_escape name.now }
{
    name.iter().any(|byte| escape_of(*byte).is_some())
}

/// Puts a name after other bytes as `sha256sum` shows it. One that is escaped has a backslash before it. Where memory
/// ran out, only a part of it may have been put.
pub fn put_escaped(out: &mut Vec<u8>, name: &[u8]) -> Result<(), OutOfMemory>
    ensures ok { OnOk result (out.new.items ≡ out.old.items ++ (mark_of name.now ++ escaped name.now)) }
    ensures err { OnErr result ((part : List ℕ) × (out.new.items ≡ out.old.items ++ part)) }
{
    if !is_escaped(name) {
        out.extend_from_slice(name)?;
        return Ok(());
    }
    out.push(b'\\')?;
    for byte in name {
        put_byte(out, *byte)?;
    }
    Ok(())
}

/// Puts one byte of a name that is escaped.
fn put_byte(out: &mut Vec<u8>, byte: u8) -> Result<(), OutOfMemory>
    ensures { out.new.items ≡ (if is_ok result then out.old.items ++ spelled byte (escape_of byte) else out.old.items) }
{
    match escape_of(byte) {
        Some(mark) => out.extend_from_slice(&[b'\\', mark])?,
        None => out.push(byte)?,
    }
    Ok(())
}

/// What stands after the backslash in place of a byte that is escaped.
fn escape_of(byte: u8) -> Option<u8>
    ensures { result ≡ escape_of byte }
{
    match byte {
        b'\\' => Some(b'\\'),
        b'\n' => Some(b'n'),
        b'\r' => Some(b'r'),
        _ => None,
    }
}

/// The byte that is escaped by this one.
fn meant_by(mark: u8) -> Option<u8>
    ensures { MatchOption result ((byte : ℕ) → escape_of byte ≡ Some mark → ⊥)
        (λ byte. (escape_of byte ≡ Some mark) × (byte ≢ 0)) }
{
    match mark {
        b'\\' => Some(b'\\'),
        b'n' => Some(b'\n'),
        b'r' => Some(b'\r'),
        _ => None,
    }
}

/// Puts the name that a text spells after other bytes, with escapes or without, and answers whether it spells one.
pub(crate) fn put_name(
    names: &mut Vec<u8>,
    text: &[u8],
    is_escaped: bool,
) -> Result<bool, OutOfMemory>
    ensures { PutsWhere (SpellsName text.now is_escaped) names.old.items names.new.items result }
{
    if is_escaped {
        put_marked(names, text)
    } else {
        put_plain(names, text)
    }
}

/// Puts a name that is spelled with escapes, one at least.
fn put_marked(names: &mut Vec<u8>, text: &[u8]) -> Result<bool, OutOfMemory>
    ensures { PutsWhere (SpellsName text.now true) names.old.items names.new.items result }
{
    let start = names.len();
    if !put_unescaped(names, text)? {
        return Ok(false);
    }
    if names.len() - start >= text.len() {
        return Ok(false);
    }
    Ok(true)
}

/// Puts a name that is spelled without escapes.
fn put_plain(names: &mut Vec<u8>, text: &[u8]) -> Result<bool, OutOfMemory>
    ensures { PutsWhere (SpellsName text.now false) names.old.items names.new.items result }
{
    if text.is_empty() || text.contains(&0) || is_escaped(text) {
        return Ok(false);
    }
    names.extend_from_slice(text)?;
    Ok(true)
}

/// Puts a name that is spelled with escapes or without. It may have no byte.
fn put_unescaped(names: &mut Vec<u8>, text: &[u8]) -> Result<bool, OutOfMemory>
    ensures { PutsWhere (Spells text.now) names.old.items names.new.items result }
{
    let mut at = 0;
    while at < text.len() {
        let Some((byte, length)) = first_byte(&text[at..]) else {
            return Ok(false);
        };
        names.push(byte)?;
        at += length;
    }
    Ok(true)
}

/// The byte that is spelled at the start of a text, and by how many bytes. It is not 0.
fn first_byte(text: &[u8]) -> Option<(u8, usize)>
    ensures { MatchOption result ((byte : ℕ) (rest : List ℕ) → Starts text.now byte rest → ⊥)
        (λ first. Starts text.now first.0 (drop first.1 text.now) × (1 ≤ first.1) × (first.1 ≤ length text.now)) }
{
    match text {
        [b'\\', mark, ..] => meant_by(*mark).map(|byte| (byte, 2)),
        [b'\\'] | [0 | b'\n' | b'\r', ..] | [] => None,
        [byte, ..] => Some((*byte, 1)),
    }
}
