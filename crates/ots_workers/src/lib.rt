//! A calendar's workers: they accept connections one at a time, and serve several at once.
//!
//! | name | what it is |
//! |---|---|
//! | [`Front`] | where connections come in, with the clock and the nonces |
//! | [`Front::turn`], [`Front::give_back`] | accepts a connection; gives it back |
//! | [`Turn`] | a connection, with its second and its nonce |
//! | [`serve_links`] | serves connections with several workers, until serving is over |
//! | [`Ended`], [`ServeEnd`] | what it hands back, and how it ended |
//! | [`MAX_WORKERS`] | the most workers |
//!
//! The front stands under one lock, which a worker has while it accepts or gives back, and not while
//! it serves. All share one book. Nothing is said of when a connection is served.
#![tactic(auto)]

mod crew;
mod desk;
mod front;
mod limits;
mod serving;
mod worker;

pub use front::{Front, Turn};
pub use limits::MAX_WORKERS;
pub use serving::{Ended, ServeEnd, serve_links};
