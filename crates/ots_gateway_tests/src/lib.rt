//! Tests of a round's links: each is finished once, after all replies of the round.
#![tactic(auto)]

#[cfg(test)]
mod links;
#[cfg(test)]
mod tests;
