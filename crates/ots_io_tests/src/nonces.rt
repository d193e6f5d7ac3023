// The nonces in memory.
use ots_io::{Failed, ListNonces, Nonces, OneNonce, OutOfMemory};
use std::alloc::Global;
use std::process::Abort;
use std::test::Fail;

/// A nonce, as any giver of nonces gives it.
fn draw<N: Nonces>(nonces: &mut N) -> Result<[u8; 16], Failed> {
    let mut nonce = [0; 16];
    nonces.fill16(&mut nonce)?;
    Ok(nonce)
}

/// What four draws answer.
fn draw_four<N: Nonces>(nonces: &mut N) -> [Result<[u8; 16], Failed>; 4] {
    [draw(nonces), draw(nonces), draw(nonces), draw(nonces)]
}

/// What four draws of two nonces and 8 bytes more answer, where these calls fail.
fn drawn(alloc: Global, failing: &[u64]) -> Result<[Result<[u8; 16], Failed>; 4], OutOfMemory> {
    let bytes = b"0123456789abcdefghijklmnopqrstuvwxyz+-*/";
    let mut nonces = ListNonces::new(alloc, bytes, failing)?;
    Ok(draw_four(&mut nonces))
}

/// They are drawn so.
fn expect_drawn(
    rt: &(impl Abort + AllocGlobal),
    failing: &[u64],
    answers: [Result<[u8; 16], Failed>; 4],
) -> Result<(), Fail> {
    assert_eq!(rt; drawn(rt.alloc(), failing)?, answers);
    Ok(())
}

#[test]
fn nonces_are_the_bytes_in_their_order(rt: HostRuntime) -> Result<(), Fail> {
    let first = Ok(*b"0123456789abcdef");
    let second = Ok(*b"ghijklmnopqrstuv");
    let failed = Err(Failed);
    expect_drawn(&rt, &[], [first, second, failed, failed])?;
    expect_drawn(&rt, &[2], [first, failed, second, failed])?;
    expect_drawn(&rt, &[1, 2], [failed, failed, first, second])
}

/// What three draws of one nonce answer, or of none.
fn draw_one(given: Option<[u8; 16]>) -> [Result<[u8; 16], Failed>; 3] {
    let mut nonces = OneNonce::new(given);
    [draw(&mut nonces), draw(&mut nonces), draw(&mut nonces)]
}

#[test]
fn one_nonce_is_drawn_once(rt: HostRuntime) -> Result<(), Fail> {
    let nonce = *b"0123456789abcdef";
    let failed = Err(Failed);
    assert_eq!(rt; draw_one(Some(nonce)), [Ok(nonce), failed, failed]);
    assert_eq!(rt; draw_one(None), [failed, failed, failed]);
    Ok(())
}
