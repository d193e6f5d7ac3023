//! The run of an aggregation gateway, from the words of its command line to its status.
//!
//! [`run_gateway`] is the one call: it reads the words, listens, and serves rounds of `ots_gateway` over
//! the links that come in. [`done_runs_answer_each_link`] is a law of what it leaves of each link.
#![tactic(auto)]

mod accepting;
mod giving_back;
mod laws;
mod rounds;
mod run;

pub use laws::done_runs_answer_each_link;
pub use run::run_gateway;
