//! The messages of a calendar's HTTP, each over the bytes of a link.
//!
//! A calendar reads a request with [`read_request`] and writes its [`Reply`] with [`write_reply`]. A
//! client writes what is [`Asked`] with [`write_request`] and reads the reply with [`read_reply`].
//! What is read does not rest on how the reads are cut. Of these four only `read_reply` takes memory.
#![tactic(auto)]

mod asking;
mod draft;
mod draft_sink;
mod fields;
mod heads;
mod laws;
mod limits;
mod line_ends;
mod numbers;
mod reading;
mod reply;
mod reply_head;
mod replying;
mod request;
mod request_head;
mod word;
mod writing;

pub use asking::{Asked, write_request};
pub use laws::{one_reply_outcome, one_request_answer};
pub use limits::{MAX_FIELDS, MAX_HEAD, MAX_RECORD};
pub use ots_address::{Address, AddressError, read_addresses};
pub use ots_base::MAX_REPLY_BODY;
pub use reply::{HttpReply, ReplyError, read_reply};
pub use replying::{Reply, write_reply};
pub use request::{Request, RequestError, read_request};
pub use word::Word;
pub use writing::LinkFault;
