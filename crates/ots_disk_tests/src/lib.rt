//! Tests of files under disks and of the journal: what their clauses can't say of themselves.
#![tactic(auto)]

#[cfg(test)]
mod file;
#[cfg(test)]
mod journal;
