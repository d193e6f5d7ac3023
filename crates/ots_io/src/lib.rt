//! The door to the outside: every public name of the rooms after it, under one path, for programs
//! and tests. Libraries stand on the rooms.
//!
//! | room | what it has |
//! |---|---|
//! | `ots_base` | want of memory, and the limits that several layers share |
//! | `ots_outside` | the traits, as [`Source`], [`Sink`], [`Shelf`], [`Link`], [`Dialer`], [`Accepter`] |
//! | `ots_memory` | their forms in memory, which tell all that they hold |
//! | `ots_real` | files, sockets, the system's clock and random source |
#![tactic(auto)]

pub use ots_base::{
    MAX_ARGUMENT, MAX_HEADER_FILE, MAX_HEXLIFIED, MAX_MESSAGE, MAX_OPERATIONS, MAX_PAYLOAD,
    MAX_PROOF_FILE, MAX_TARGET_FILE, MAX_URI, OutOfMemory,
};
pub use ots_memory::{
    BytesLink, BytesSink, BytesSource, DialerRoom, ListAccepter, ListNonces, MapShelf, PutError,
    ScriptDialer, SentTo, ShelfRoom,
};
pub use ots_outside::{
    Accepter, Bytes, Clock, CreateError, DialError, DialedLink, Dialer, DigestLength, Failed,
    FixedClock, Leaf, Link, LinkSink, MAX_DIGEST, Nonces, OneNonce, OpenError, ReadAllError, Shelf,
    Sink, Slot, SlotSink, SlotSource, Source, Wanted, read_all, write_all,
};
pub use ots_real::{
    CONNECT_SECONDS, CONVERSATION_SECONDS, DirShelf, RngNonces, StdSink, StdSource, SystemClock,
    TcpAccepter, TcpDialer, TcpLink,
};
