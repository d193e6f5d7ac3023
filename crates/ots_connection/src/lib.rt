//! One connection of a calendar, from its request to its reply.
//!
//! | name | what it is |
//! |---|---|
//! | [`serve_connection`] | reads a request, does what it asks on the shared book, and writes the reply |
//! | [`Service`] | the key under which a calendar signs, and the URI that its trees end in |
//! | [`Served`] | how a connection ended |
//!
//! A digest is put in one hold of the book, and in a second its round is closed, unless another
//! caller has closed it in between: in this way many connections share one commitment. Its ticket is withdrawn
//! wherever no tree is given. The reply is written while the book is not held.
#![tactic(auto)]

mod asking;
mod closing;
mod connection;
mod due;
mod putting;
mod sending;
mod served;
mod service;
mod stamping;

pub use connection::serve_connection;
pub use served::Served;
pub use service::Service;
