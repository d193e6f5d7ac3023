//! Tests of sets of requests: what their clauses can't say of themselves.
#![tactic(auto)]

#[cfg(test)]
mod sets;
