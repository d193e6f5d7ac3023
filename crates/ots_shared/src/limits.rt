/// The most callers of one book: 64 threads that serve, and the one that started them.
pub const MAX_CALLERS: u32 = 65;
