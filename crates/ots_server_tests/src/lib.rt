//! What no clause of `ots_server` says of `serve`: that it serves over a real socket, and as many connections at once
//! as it has workers. All else that it answers is tested by rows of data.
#![tactic(auto)]

#[cfg(test)]
mod loopback;
#[cfg(test)]
mod meeting;
#[cfg(test)]
mod run;
#[cfg(test)]
mod workers;
