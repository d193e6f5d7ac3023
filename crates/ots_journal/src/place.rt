//! Where the payload of an entry stands.

/// Where an entry lies in the bytes of a journal: its payload begins at `start`.
#[derive(Clone, Copy)]
pub struct Place {
    pub kind: u8,
    pub start: u32,
    pub length: u32,
}
