// What a run is done on.
use ots_row_words::{malformed, number_of};
use std::alloc::{AllocError, Global};
use std::io;

/// A link to come: the bytes that it sends, and which of its calls fail in the next run.
#[derive(Drop)]
pub struct Coming {
    pub bytes: Vec<u8>,
    pub failing: Vec<u64>,
}

/// Which calls of each object but the links fail in the next run, the first of each being 1.
#[derive(Drop)]
pub struct Failing {
    pub accepter: Vec<u64>,
    pub dialer: Vec<u64>,
    pub nonces: Vec<u64>,
    pub sink: Vec<u64>,
}

impl Failing {
    /// No call fails.
    pub fn none(alloc: Global) -> Failing {
        Failing {
            accepter: Vec::new(alloc),
            dialer: Vec::new(alloc),
            nonces: Vec::new(alloc),
            sink: Vec::new(alloc),
        }
    }
}

/// What a run is done on: the links to come, the nonces, the replies of the calendars, and what fails.
#[derive(Drop)]
pub struct On {
    pub links: Vec<Coming>,
    pub nonces: Vec<u8>,
    pub replies: Vec<Vec<u8>>,
    pub failing: Failing,
}

impl On {
    /// No link, no nonce, no reply, and no call that fails.
    pub fn new(alloc: Global) -> On {
        On {
            links: Vec::new(alloc),
            nonces: Vec::new(alloc),
            replies: Vec::new(alloc),
            failing: Failing::none(alloc),
        }
    }

    /// So many links more come, each of which sends this.
    pub fn add_links(&mut self, alloc: Global, count: u64, bytes: &[u8]) -> Result<(), AllocError> {
        for _ in 0..count {
            self.links.push(Coming {
                bytes: bytes.to_vec(alloc)?,
                failing: Vec::new(alloc),
            })?;
        }
        Ok(())
    }

    /// These calls of an object fail in the next run.
    pub fn fail(&mut self, object: &str, calls: Vec<u64>) -> io::Result<()> {
        match object {
            "accepter" => self.failing.accepter = calls,
            "dialer" => self.failing.dialer = calls,
            "nonces" => self.failing.nonces = calls,
            "sink" => self.failing.sink = calls,
            _ => self.fail_link(object, calls)?,
        }
        Ok(())
    }

    /// These calls of the link with this number fail in the next run.
    fn fail_link(&mut self, object: &str, calls: Vec<u64>) -> io::Result<()> {
        let number = object.strip_prefix("link").ok_or_else(malformed)?;
        let place = place_of(number)?;
        self.links.get_mut(place).ok_or_else(malformed)?.failing = calls;
        Ok(())
    }

    /// No call fails any more.
    pub fn forget(&mut self, alloc: Global) {
        self.failing = Failing::none(alloc);
        for link in self.links.iter_mut() {
            link.failing = Vec::new(alloc);
        }
    }
}

/// The place of the one with this number, of which the first is 1.
pub fn place_of(number: &str) -> io::Result<usize> {
    let place = number_of(number)?.checked_sub(1).ok_or_else(malformed)?;
    Ok(place as usize)
}
