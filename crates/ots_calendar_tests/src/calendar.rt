//! What no clause of `ots_calendar` says: that each call answers with ample memory, that a book has
//! the values that another program computed, and what a caller does after a call that failed.
mod failing;
mod rounds;
mod values;
