//! What came of a request.

/// The reply to a request, as somebody carried it back.
#[derive(Clone, Copy)]
pub enum Reply<'a> {
    /// Status 200 with this body, 1 to 10,000 bytes.
    Body(&'a [u8]),
    /// Another status, 100 to 599.
    Status(u16),
    /// No whole reply was had.
    Nothing,
}
