//! Books on disks in memory, and the values that they have by another program, for the tests of the
//! calendar. What is answered is told in plain values.
mod answers;
mod books;
mod calls;
mod expected;
mod values;
mod ways;

pub use answers::{is_complete, is_pending, is_unknown};
pub use books::{
    block_of, book_on, bytes_of, disk_of, handed_back, is_written, key, new_disk, uri,
};
pub use calls::{
    Counts, NONCE, SECOND, calls_of, close, counts_of, is_busy, is_gone, is_left, is_tip,
    is_waiting, put, tip, withdraw,
};
pub use expected::{expect_anchor, expect_close, expect_counts, expect_tip};
pub use values::{
    BLOCK, COMMITMENT, COMPLETE, DIGEST, JOURNAL, LATER, LATER_BLOCK, LATER_COMPLETE,
    LATER_TIP_ROOT, TICKET_TREE, TIP_ROOT,
};
pub use ways::{Given, give, is_given};
