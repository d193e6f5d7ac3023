//! The outside as the system gives it: forms of the traits of `ots_outside` over files, sockets,
//! the clock and a random source.
//!
//! | trait | form |
//! |---|---|
//! | `Source` | [`StdSource`], over any reader of std |
//! | `Sink` | [`StdSink`], over any writer of std |
//! | `Shelf` | [`DirShelf`], over the file system |
//! | `Link` | [`TcpLink`], over a stream of std |
//! | `Dialer` | [`TcpDialer`], over the system's sockets |
//! | `Accepter` | [`TcpAccepter`], over the system's sockets |
//! | `Nonces` | [`RngNonces`], over any random source |
//! | `Clock` | [`SystemClock`] |
//!
//! A connection that was accepted has one time limit for its request, from its accept on, and one
//! for the reply, from its first write on; a host that is called has one for the whole conversation.
//! A connection is handed out once it has spoken, so nobody holds a worker by sending nothing. A
//! link that is finished is closed, once the peer can have read the reply.
//!
//! They tell nothing of what they hold. Of them it is proved that they are safe, that they return,
//! that each fault is counted, that they pass on what std's readers and writers answer, and which call
//! begins which time limit; which bytes a file or a socket gives or takes no contract can say.
#![tactic(auto)]

mod accept_error;
mod ahead;
mod call_record;
mod conversation;
mod counted;
mod dir_shelf;
mod file_log;
mod file_size;
mod heard;
mod held;
mod inherited;
mod new_file;
mod open_file;
mod reserve;
mod rng_nonces;
mod std_sink;
mod std_source;
mod system_clock;
mod tcp_accepter;
mod tcp_dialer;
mod tcp_link;
mod time_limit;
mod timed_stream;

pub use call_record::CallRecord;
pub use conversation::{
    CONNECT_SECONDS, CONVERSATION_SECONDS, DRAIN_BYTES, DRAIN_SECONDS, LISTEN_QUEUE, MAX_HELD,
    REPLY_SECONDS, REQUEST_SECONDS, ROUND_CONVERSATION_SECONDS,
};
pub use dir_shelf::DirShelf;
pub use file_size::size_limit;
pub use rng_nonces::RngNonces;
pub use std_sink::StdSink;
pub use std_source::StdSource;
pub use system_clock::SystemClock;
pub use tcp_accepter::TcpAccepter;
pub use tcp_dialer::TcpDialer;
pub use tcp_link::TcpLink;
pub use time_limit::TimeLimit;
