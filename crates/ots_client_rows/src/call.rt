// The one call of the client, of whose clauses nothing is carried on.
use ots_cli::run_client;
use ots_io::{Dialer, Nonces, Shelf, Sink};
use std::alloc::Global;

/// A run of the client over any objects, and the number that it ends with. What its clauses say is left
/// after here: the transcript says what came of it.
pub fn call<S: Shelf, K: Sink, D: Dialer, N: Nonces>(
    alloc: Global,
    words: &[String],
    shelf: &mut S,
    out: &mut K,
    dialer: &mut D,
    nonces: &mut N,
) -> u8 {
    run_client(alloc, words, shelf, out, dialer, nonces).number()
}
