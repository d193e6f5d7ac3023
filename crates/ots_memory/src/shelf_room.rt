/// How much a shelf in memory can hold, which is reserved when it is made.
#[derive(Clone, Copy, Debug, PartialEq, Eq)]
pub struct ShelfRoom {
    /// How many names it can hold.
    pub names: usize,
    /// How many bytes of UTF-8 each name can have.
    pub name_length: usize,
    /// How many bytes each name can hold.
    pub bytes: usize,
    /// How many slots it can give, over all its calls of `open` and `create`.
    pub slots: u32,
}

/// Why a name was not put.
#[derive(Clone, Copy, Debug, PartialEq, Eq)]
pub enum PutError {
    /// The shelf has this name already.
    Exists,
    /// There is no room for another name, for its bytes of UTF-8, or for what it is to hold.
    NoRoom,
}
