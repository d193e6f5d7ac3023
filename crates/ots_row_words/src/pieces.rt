// How a script spells bytes.
use crate::table::Table;
use crate::words::{Braces, braces_in, malformed, text_of};
use hex::decode;
use std::alloc::{AllocError, Global};
use std::io;

/// The bytes of these pieces, where these have names.
pub fn bytes_of(alloc: Global, named: &Table, pieces: &[String]) -> io::Result<Vec<u8>> {
    let mut bytes = Vec::new(alloc);
    for piece in pieces {
        push_piece(alloc, named, &mut bytes, piece.as_str())?;
    }
    Ok(bytes)
}

/// Appends the bytes of a piece.
fn push_piece(alloc: Global, named: &Table, bytes: &mut Vec<u8>, piece: &str) -> io::Result<()> {
    if piece.starts_with('"') {
        bytes.extend_from_slice(text_of(alloc, piece)?.as_bytes())?;
    } else if let Some(name) = piece.strip_prefix('$') {
        bytes.extend_from_slice(named_bytes(named, name)?)?;
    } else {
        push_digits(alloc, bytes, piece)?;
    }
    Ok(())
}

/// Appends the bytes of a piece of digits.
fn push_digits(alloc: Global, bytes: &mut Vec<u8>, piece: &str) -> io::Result<()> {
    if let Some((digits, count)) = piece.split_once('*') {
        push_times(bytes, &digits_of(alloc, digits)?, count)
    } else if let Some(braces) = braces_in(piece)? {
        push_numbered(alloc, bytes, braces)
    } else {
        bytes.extend_from_slice(&digits_of(alloc, piece)?)?;
        Ok(())
    }
}

/// The bytes of these digits.
fn digits_of(alloc: Global, digits: &str) -> io::Result<Vec<u8>> {
    decode(alloc, digits).map_err(|_| malformed())
}

/// The bytes that have a name, or the prefix of them: `NAME[..7]` is the first seven.
fn named_bytes<'a>(named: &'a Table, name: &str) -> io::Result<&'a [u8]> {
    match name.split_once("[..") {
        Some((name, end)) => prefix(find(named, name)?, end.trim_end_matches(']')),
        None => find(named, name),
    }
}

/// The bytes that have a name.
fn find<'a>(named: &'a Table, name: &str) -> io::Result<&'a [u8]> {
    named.get(name).ok_or_else(malformed)
}

/// The prefix of some bytes, by its length.
fn prefix<'a>(bytes: &'a [u8], length: &str) -> io::Result<&'a [u8]> {
    match length.parse::<usize>() {
        Ok(length) => bytes.get(..length).ok_or_else(malformed),
        Err(_) => Err(malformed()),
    }
}

/// Appends bytes so many times.
fn push_times(bytes: &mut Vec<u8>, part: &[u8], count: &str) -> io::Result<()> {
    let count = count.parse::<u32>().map_err(|_| malformed())?;
    for _ in 0..count {
        bytes.extend_from_slice(part)?;
    }
    Ok(())
}

/// Appends each number as two bytes, the high one first, between what stands around it.
fn push_numbered(alloc: Global, bytes: &mut Vec<u8>, braces: Braces<'_>) -> io::Result<()> {
    let before = digits_of(alloc, braces.before)?;
    let after = digits_of(alloc, braces.after)?;
    for number in braces.first..=braces.last {
        push_all(bytes, &[&before, &number.to_be_bytes(), &after])?;
    }
    Ok(())
}

/// Appends these bytes, one after the other.
fn push_all(bytes: &mut Vec<u8>, parts: &[&[u8]]) -> Result<(), AllocError> {
    for part in parts {
        bytes.extend_from_slice(part)?;
    }
    Ok(())
}
