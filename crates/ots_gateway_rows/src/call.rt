// The one call of the gateway, of whose clauses nothing is carried on.
use ots_gateway_run::run_gateway;
use ots_io::{Accepter, Dialer, Nonces, Sink};
use std::alloc::Global;
use std::sync::Wait;

/// A run of the gateway over any objects: the number that it ends with. What its clauses say is left here: the
/// transcript says what came of it.
pub fn call<A: Accepter, T: Dialer, N: Nonces, K: Sink, R: Wait>(
    rt: &R,
    alloc: Global,
    words: &[String],
    accepter: &mut A,
    dialer: &mut T,
    nonces: &mut N,
    out: &mut K,
) -> u8 {
    run_gateway(rt, alloc, words, accepter, dialer, nonces, out).number()
}
