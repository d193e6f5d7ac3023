// The system's clock and random source.
use ots_io::{Clock, Failed, Nonces, RngNonces, SystemClock};
use rand::rngs::SysRng;
use std::test::Fail;

/// Workers share a clock and nonces.
fn is_sent<T: Send>(_value: &T) {}

/// More nonces than are drawn at once.
const NONCES: usize = 40;

/// Whether so many nonces are given, and each differs from those before.
fn draws_differ<N: Nonces>(nonces: &mut N) -> Result<bool, Failed> {
    let mut drawn = [[0; 16]; NONCES];
    for i in 0..NONCES {
        let mut nonce = [0; 16];
        nonces.fill16(&mut nonce)?;
        if drawn[..i].contains(&nonce) {
            return Ok(false);
        }
        drawn[i] = nonce;
    }
    Ok(true)
}

#[test]
fn forty_draws_differ(rt: HostRuntime) -> Result<(), Fail> {
    let mut nonces = RngNonces::new(SysRng::new(&rt));
    is_sent(&nonces);
    assert_eq!(rt; draws_differ(&mut nonces), Ok(true));
    Ok(())
}

#[test]
fn the_clock_is_past_2023(rt: HostRuntime) -> Result<(), Fail> {
    let mut clock = SystemClock::new(&rt);
    is_sent(&clock);
    assert!(rt; clock.second() > 1_700_000_000);
    Ok(())
}
