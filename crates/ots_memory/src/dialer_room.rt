/// How much a dialer in memory can hold, which is reserved when it is made.
#[derive(Clone, Copy, Debug, PartialEq, Eq)]
pub struct DialerRoom {
    /// How many conversations it can begin.
    pub conversations: u32,
    /// How many bytes of UTF-8 each host can have.
    pub host_length: usize,
    /// How many bytes can be sent in each conversation.
    pub bytes: usize,
}
