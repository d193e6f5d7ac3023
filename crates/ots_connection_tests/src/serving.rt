//! What no clause of `ots_workers` says: that several connections are served at once, that no reply is written while
//! the book is held, and that each of several workers' links gets its reply.
mod forms;
mod runs;
mod staged;
mod tests;
