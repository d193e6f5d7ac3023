// What a run is done on.
use ots_row_words::Table;
use std::alloc::Global;

/// Which calls fail, each by its number from 1: of the shelf, writes of the sink and draws of a nonce.
#[derive(Drop)]
pub struct Failing {
    pub shelf: Vec<u64>,
    pub sink: Vec<u64>,
    pub draws: Vec<u64>,
}

impl Failing {
    /// None fails.
    pub fn none(alloc: Global) -> Failing {
        Failing {
            shelf: Vec::new(alloc),
            sink: Vec::new(alloc),
            draws: Vec::new(alloc),
        }
    }
}

/// The files, the names of those that may be made, the nonces to come, and which calls fail.
#[derive(Drop)]
pub struct Stage {
    pub files: Table,
    pub outputs: Vec<String>,
    pub nonces: Vec<u8>,
    pub failing: Failing,
}

impl Stage {
    /// Nothing is there, and no call fails.
    pub fn empty(alloc: Global) -> Stage {
        Stage {
            files: Table::new(alloc),
            outputs: Vec::new(alloc),
            nonces: Vec::new(alloc),
            failing: Failing::none(alloc),
        }
    }
}
