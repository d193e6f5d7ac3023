//! What no clause of `ots_connection` and `ots_shared` says of several callers of one book, and of one whose journal is
//! full. Expected bytes are those of Python's hashlib and hmac.
mod beside;
pub mod connections;
mod crews;
mod endings;
mod tests;
mod watching;
