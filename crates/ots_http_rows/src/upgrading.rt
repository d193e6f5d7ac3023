// Proofs that calendars are asked to complete.
use crate::outcomes::say_outcome;
use ots_address::Address;
use ots_asking::Outcome;
use ots_base::OutOfMemory;
use ots_io::Dialer;
use ots_row_words::Said;
use ots_tree::Detached;
use ots_upgrade::{Upgraded, upgrade_with};
use std::alloc::Global;

/// Asks calendars to complete a proof, says what came of each pair of a message and a URI, and gives the proof that
/// their answers make.
pub fn upgrade<D: Dialer>(
    alloc: Global,
    dialer: &mut D,
    calendars: &[Address],
    proof: &Detached,
    said: &mut Said,
) -> Result<Detached, OutOfMemory> {
    let Upgraded { proof, asked } = upgrade_with(alloc, dialer, calendars, proof)?;
    said.push("=");
    for i in 0..asked.len() {
        said.bytes(asked.message(i).bytes());
        said.word(asked.uri(i).text());
        say_asked(asked.outcome(i), said);
    }
    said.push("\n");
    Ok(proof)
}

/// Says what came of asking for a pair.
fn say_asked(outcome: Option<&Outcome>, said: &mut Said) {
    match outcome {
        Some(outcome) => say_outcome(outcome, said),
        None => said.word("skipped;"),
    }
}
