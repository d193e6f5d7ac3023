// Records as a script spells them.
use crate::spelling::{bytes_of, spelled, split_number};
use crate::told;
use ots_base::OutOfMemory;
use ots_merkle::{Branch, Side};
use ots_outside::Bytes;
use ots_store::{Anchor, Tip};
use std::alloc::Global;

/// The commitment of these bytes; of others than 44, one of zeros.
pub fn commitment_of(bytes: &[u8]) -> [u8; 44] {
    match <[u8; 44]>::try_from(bytes) {
        Ok(commitment) => commitment,
        Err(_) => [0; 44],
    }
}

/// The root of these words; of others than 32 bytes, one of zeros.
fn root_of(alloc: Global, text: &str) -> Result<[u8; 32], OutOfMemory> {
    match <[u8; 32]>::try_from(bytes_of(alloc, text)?.as_slice()) {
        Ok(root) => Ok(root),
        Err(_) => Ok([0; 32]),
    }
}

/// The tip of a first index, a count and a root.
pub fn tip_of(alloc: Global, text: &str) -> Result<Tip, OutOfMemory> {
    let (first, rest) = split_number(text);
    let (count, rest) = split_number(rest);
    Ok(Tip {
        first,
        count,
        root: root_of(alloc, rest)?,
    })
}

/// The anchor of a first index, a count, a height and a root, with no prefix, no suffix and no step.
pub fn anchor_of(alloc: Global, text: &str) -> Result<Anchor, OutOfMemory> {
    let (first, rest) = split_number(text);
    let (count, rest) = split_number(rest);
    let (height, rest) = split_number(rest);
    Ok(Anchor {
        first,
        count,
        height,
        root: root_of(alloc, rest)?,
        prefix: Bytes::new(alloc),
        suffix: Bytes::new(alloc),
        branch: Branch::new(alloc),
    })
}

/// Tips as a script spells them.
pub fn text_of_tips(alloc: Global, tips: &[Tip]) -> Result<String, OutOfMemory> {
    if tips.is_empty() {
        return told::words(alloc, "none");
    }
    let mut text = String::new(alloc);
    for tip in tips {
        if !text.is_empty() {
            text.push_str(" ; ")?;
        }
        text.push_str(&text_of_tip(alloc, tip)?)?;
    }
    Ok(text)
}

fn text_of_tip(alloc: Global, tip: &Tip) -> Result<String, OutOfMemory> {
    let first = tip.first;
    let count = tip.count;
    let root = spelled(alloc, &tip.root)?;
    Ok(format!(in alloc; "{first} {count} {root}")?)
}

/// All that an anchor has.
pub fn text_of_anchor(alloc: Global, anchor: &Anchor) -> Result<String, OutOfMemory> {
    let first = anchor.first;
    let count = anchor.count;
    let height = anchor.height;
    let root = spelled(alloc, &anchor.root)?;
    let prefix = spelled(alloc, anchor.prefix.items())?;
    let suffix = spelled(alloc, anchor.suffix.items())?;
    let mut text = format!(in alloc;
        "{first} {count} {height} {root}, prefix {prefix}, suffix {suffix}"
    )?;
    for (side, other) in anchor.branch.items() {
        text.push_str(match side {
            Side::Left => ", left ",
            Side::Right => ", right ",
        })?;
        text.push_str(&spelled(alloc, other)?)?;
    }
    Ok(text)
}
