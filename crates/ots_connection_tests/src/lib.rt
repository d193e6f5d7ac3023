//! Tests of the book that several callers share, of its connections and of those that serve them: what
//! their clauses can't say of themselves, and no row of data shows, since it takes several callers at once,
//! or a journal with a limit of its own.
#![tactic(auto)]

#[cfg(test)]
mod books;
#[cfg(test)]
mod service;
#[cfg(test)]
mod serving;
