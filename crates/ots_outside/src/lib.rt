//! The outside: what the programs read, write, open, dial, accept and draw, each as a trait.
//!
//! A [`Source`] is read once from its start, a [`Sink`] is written at its end, a [`Shelf`] holds
//! bytes by name, as a folder holds files. A [`Link`] is a connection, a [`Dialer`] holds
//! conversations with hosts, and an [`Accepter`] takes connections in. [`Nonces`] gives nonces, and
//! a [`Clock`] the second. Each but the clock counts its faults, and a call answers [`Failed`] only
//! where that count rose in the call. Each may tell its contents: the forms in memory tell all of
//! theirs, the real ones tell nothing, and what the contracts say of contents holds where they are
//! told. What is not told before a call is not told after it, and the other way round; an accepter
//! alone may stop telling which links were given back.
//!
//! | trait | forms here, over another trait or of one value |
//! |---|---|
//! | [`Source`] | [`SlotSource`], an open slot of any shelf |
//! | [`Sink`] | [`SlotSink`], a created slot of any shelf; [`LinkSink`], any link |
//! | [`Link`] | [`DialedLink`], a connected slot of any dialer |
//! | [`Nonces`] | [`OneNonce`] |
//! | [`Clock`] | [`FixedClock`] |
//!
//! [`read_all`] reads a whole source, up to a limit, and [`write_all`] writes a whole text. The
//! forms in memory and the real ones stand in crates of their own, so that a library stands on no
//! form.
#![tactic(auto)]

mod accepter;
mod bytes;
mod clock;
mod count;
mod dialed_link;
mod dialer;
mod failed;
mod leaf;
mod link;
mod link_sink;
mod nonces;
mod one_nonce;
mod reading;
mod shelf;
mod sink;
mod slot_sink;
mod slot_source;
mod small_bytes;
mod source;
mod wanted;
mod writing;

pub use accepter::Accepter;
pub use bytes::Bytes;
pub use clock::{Clock, FixedClock};
pub use count::Count;
pub use dialed_link::DialedLink;
pub use dialer::{DialError, Dialer};
pub use failed::Failed;
pub use leaf::{DigestLength, Leaf};
pub use link::Link;
pub use link_sink::LinkSink;
pub use nonces::Nonces;
pub use one_nonce::OneNonce;
pub use reading::{ReadAllError, read_all};
pub use shelf::{CreateError, OpenError, Shelf, Slot};
pub use sink::Sink;
pub use slot_sink::SlotSink;
pub use slot_source::SlotSource;
pub use small_bytes::MAX_DIGEST;
pub use source::Source;
pub use wanted::Wanted;
pub use writing::write_all;
