/// The most workers of one server.
pub const MAX_WORKERS: u32 = 64;
