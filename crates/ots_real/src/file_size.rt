//! How large the system lets a file grow.

/// What `getrlimit` is asked for the size of files: `RLIMIT_FSIZE` of Linux's `resource.h`.
const RLIMIT_FSIZE: i32 = 1;

/// The size, in bytes, up to which the system lets this process write a file: the soft limit
/// `RLIMIT_FSIZE` of setrlimit(2), and 2^64 - 1 where there is none. A write that begins at it or
/// past it would be answered by a signal that ends the process, so who writes a file asks before.
pub fn size_limit() -> u64 {
    let mut limit = libc::types::rlimit {
        rlim_cur: u64::MAX,
        rlim_max: u64::MAX,
    };
    if libc::getrlimit(RLIMIT_FSIZE, &mut limit) == 0 {
        limit.rlim_cur
    } else {
        u64::MAX
    }
}
