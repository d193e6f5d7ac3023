//! The outside in memory: forms of the traits of `ots_outside` that tell all that they hold.
//!
//! | trait | form |
//! |---|---|
//! | `Source` | [`BytesSource`] |
//! | `Sink` | [`BytesSink`] |
//! | `Shelf` | [`MapShelf`] |
//! | `Link` | [`BytesLink`] |
//! | `Dialer` | [`ScriptDialer`] |
//! | `Accepter` | [`ListAccepter`] |
//! | `Nonces` | [`ListNonces`] |
//!
//! They are for tests, and for code that works on bytes at hand. They take their memory when they
//! are made, and of them everything is told and proved: what each call gives or takes, and that it
//! fails exactly where its number is listed to fail, or where it passes the room that was reserved.
#![tactic(auto)]

mod append;
mod bytes_link;
mod bytes_sink;
mod bytes_source;
mod calls;
mod conversations;
mod cut_input;
mod dialer_room;
mod entries;
mod input;
mod list_accepter;
mod list_nonces;
mod map_shelf;
mod output;
mod script_dialer;
mod shelf_room;

pub use bytes_link::BytesLink;
pub use bytes_sink::BytesSink;
pub use bytes_source::BytesSource;
pub use dialer_room::DialerRoom;
pub use list_accepter::ListAccepter;
pub use list_nonces::ListNonces;
pub use map_shelf::MapShelf;
pub use script_dialer::{ScriptDialer, SentTo};
pub use shelf_room::{PutError, ShelfRoom};
