// Values of a few bytes, and the clock that stands.
use ots_io::{Bytes, Clock, DigestLength, FixedClock, Leaf, OutOfMemory, Wanted};
use std::alloc::Global;
use std::process::Abort;
use std::test::Fail;

/// One byte more than a digest can have, each another.
fn numbered() -> [u8; 65] {
    let mut bytes = [0; 65];
    for i in 0..65u8 {
        bytes[i as usize] = i;
    }
    bytes
}

/// Whether the bytes are a leaf.
fn is_leaf(bytes: &[u8]) -> bool {
    matches!(Leaf::new(bytes), Ok(leaf) if leaf.bytes() == bytes)
}

/// Whether the bytes are a wanted digest.
fn is_wanted(bytes: &[u8]) -> bool {
    matches!(Wanted::new(bytes), Some(wanted) if wanted.bytes() == bytes)
}

/// The bytes are a leaf and a wanted digest.
fn expect_kept(rt: &impl Abort, bytes: &[u8]) {
    assert!(rt; is_leaf(bytes));
    assert!(rt; is_wanted(bytes));
}

/// The bytes are no leaf, for this reason, and no wanted digest.
fn expect_refused(rt: &impl Abort, bytes: &[u8], refusal: DigestLength) {
    assert!(rt; matches!(Leaf::new(bytes), Err(refused) if refused == refusal));
    assert!(rt; Wanted::new(bytes).is_none());
}

#[test]
fn a_digest_has_1_to_64_bytes(rt: HostRuntime) -> Result<(), Fail> {
    let bytes = numbered();
    for length in [1, 64] {
        expect_kept(&rt, &bytes[..length]);
    }
    expect_refused(&rt, &[], DigestLength(0));
    expect_refused(&rt, &bytes, DigestLength(65));
    Ok(())
}

/// These bytes, pushed one by one.
fn push_all(alloc: Global, given: &[u8]) -> Result<Bytes, OutOfMemory> {
    let mut bytes = Bytes::new(alloc);
    for byte in given {
        bytes.push(*byte)?;
    }
    Ok(bytes)
}

/// Whether these bytes stay in their order where they are copied.
fn is_copied(bytes: &Bytes, given: &[u8]) -> Result<bool, OutOfMemory> {
    let copied = Bytes::from_vec(bytes.copy()?.into_vec());
    Ok(copied.items() == given)
}

/// Whether the bytes are those given and 255 after them.
fn is_one_more(bytes: &[u8], given: &[u8]) -> bool {
    matches!(bytes.split_last(), Some((255, prefix)) if prefix == given)
}

/// Whether these bytes stay in their order where one more is pushed after them.
fn is_pushed(mut bytes: Bytes, given: &[u8]) -> Result<bool, OutOfMemory> {
    bytes.push(255)?;
    Ok(is_one_more(bytes.items(), given))
}

/// Whether these bytes stay so where they are copied, and where one more is pushed.
fn are_kept(alloc: Global, given: &[u8]) -> Result<(bool, bool), OutOfMemory> {
    let bytes = push_all(alloc, given)?;
    let is_copied = is_copied(&bytes, given)?;
    Ok((is_copied, is_pushed(bytes, given)?))
}

#[test]
fn bytes_are_kept_in_their_order(rt: HostRuntime) -> Result<(), Fail> {
    let numbers = numbered();
    for length in [0, 1, 64, 65] {
        assert_eq!(rt; are_kept(rt.alloc(), &numbers[..length])?, (true, true));
    }
    Ok(())
}

/// Two seconds of any clock.
fn two_seconds<C: Clock>(clock: &mut C) -> [u64; 2] {
    [clock.second(), clock.second()]
}

#[test]
fn a_fixed_clock_stands(rt: HostRuntime) -> Result<(), Fail> {
    let mut clock = FixedClock {
        second: 1_231_006_505,
    };
    assert_eq!(rt; two_seconds(&mut clock), [1_231_006_505, 1_231_006_505]);
    Ok(())
}
