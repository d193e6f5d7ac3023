//! Crashes inside the calls of a book that write: each image that a disk in memory tells of their
//! moments is opened again, and asked.
mod crashes;
