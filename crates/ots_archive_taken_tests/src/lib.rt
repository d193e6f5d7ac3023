//! Tests of what replies make of proofs and of drafts, and of what is counted, by one sheet.
#![tactic(auto)]

#[cfg(test)]
mod tests;
