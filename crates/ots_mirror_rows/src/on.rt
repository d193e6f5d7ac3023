// What a run is done on.
use ots_disk::Choice;
use ots_row_words::malformed;
use std::alloc::Global;
use std::io;

/// Which calls fail in the next run, the first of each object being 1, and in which call of the disk the power goes.
#[derive(Drop)]
pub struct Failing {
    pub disk: Vec<u64>,
    pub dialer: Vec<u64>,
    pub sink: Vec<u64>,
    pub power: Option<u64>,
}

impl Failing {
    /// No call fails.
    pub fn none(alloc: Global) -> Failing {
        Failing {
            disk: Vec::new(alloc),
            dialer: Vec::new(alloc),
            sink: Vec::new(alloc),
            power: None,
        }
    }

    /// These calls of an object fail.
    pub fn fail(&mut self, object: &str, calls: Vec<u64>) -> io::Result<()> {
        match object {
            "disk" => self.disk = calls,
            "dialer" => self.dialer = calls,
            "sink" => self.sink = calls,
            "power" => self.power = calls.first().copied(),
            _ => return Err(malformed()),
        }
        Ok(())
    }
}

/// What a run is done on: the journal's file, the replies to come, what is left of pending writes where the power goes,
/// and what fails.
#[derive(Drop)]
pub struct On {
    pub journal: Vec<u8>,
    pub replies: Vec<Vec<u8>>,
    pub choice: Choice,
    pub failing: Failing,
}

impl On {
    /// A file without a byte, no reply, and no call that fails.
    pub fn new(alloc: Global) -> On {
        On {
            journal: Vec::new(alloc),
            replies: Vec::new(alloc),
            choice: Choice::Dropped,
            failing: Failing::none(alloc),
        }
    }
}
