//! Tests of the calendar's book: what its clauses can't say of themselves.
#![tactic(auto)]

#[cfg(test)]
mod calendar;
#[cfg(test)]
mod calendar_crashes;
#[cfg(test)]
mod calendar_runs;
