// What a run is done on.
use crate::spelling::{Names, bytes_of, number_of};
use ots_io::OutOfMemory;
use std::alloc::Global;
use std::collections::BTreeMap;

/// How many bytes a sink takes where nothing else is said.
const ROOM: usize = 20_000;

/// Where the journal lies.
#[derive(Clone, Copy)]
pub enum Place {
    /// In memory.
    Memory,
    /// On a device under a file.
    File,
}

/// A connection to come: the bytes that it gives, and which of its calls fail.
#[derive(Drop)]
pub struct Coming {
    pub bytes: Vec<u8>,
    pub failing: Vec<u64>,
}

/// Which calls fail of each object but the links, the first call being 1.
#[derive(Drop)]
pub struct Faults {
    pub disk: Vec<u64>,
    pub shelf: Vec<u64>,
    pub sink: Vec<u64>,
    pub nonces: Vec<u64>,
    pub accepter: Vec<u64>,
}

impl Faults {
    /// No call fails.
    pub fn none(alloc: Global) -> Faults {
        Faults {
            disk: Vec::new(alloc),
            shelf: Vec::new(alloc),
            sink: Vec::new(alloc),
            nonces: Vec::new(alloc),
            accepter: Vec::new(alloc),
        }
    }
}

/// What a run is done on. The links, the faults and the quiet are those of the next run alone.
#[derive(Drop)]
pub struct On {
    pub journal: Vec<u8>,
    pub place: Place,
    pub files: BTreeMap<String, Vec<u8>>,
    pub nonces: Vec<u8>,
    pub second: u64,
    pub room: usize,
    pub links: Vec<Coming>,
    pub faults: Faults,
    pub is_quiet: bool,
}

impl On {
    /// An empty journal in memory, no file, no nonce, no link, and no call that fails.
    pub fn new(alloc: Global) -> On {
        On {
            journal: Vec::new(alloc),
            place: Place::Memory,
            files: BTreeMap::new(alloc),
            nonces: Vec::new(alloc),
            second: 0,
            room: ROOM,
            links: Vec::new(alloc),
            faults: Faults::none(alloc),
            is_quiet: false,
        }
    }

    /// These calls of an object fail in the next run.
    pub fn fail(&mut self, object: &str, calls: Vec<u64>) {
        match object {
            "disk" => self.faults.disk = calls,
            "shelf" => self.faults.shelf = calls,
            "sink" => self.faults.sink = calls,
            "nonce" => self.faults.nonces = calls,
            "accept" => self.faults.accepter = calls,
            _ => self.fail_link(calls),
        }
    }

    /// These calls of the last link fail.
    fn fail_link(&mut self, calls: Vec<u64>) {
        if let Some(link) = self.links.last_mut() {
            link.failing = calls;
        }
    }

    /// Takes what a line says, whose first word this is.
    pub fn set(
        &mut self,
        alloc: Global,
        names: &Names,
        word: &str,
        rest: &str,
    ) -> Result<(), OutOfMemory> {
        match word {
            "journal" => self.journal = bytes_of(alloc, names, rest)?,
            "disk" => self.place = place_of(rest),
            "file" => self.put_file(alloc, names, rest)?,
            "nonces" => self.nonces = bytes_of(alloc, names, rest)?,
            "second" => self.second = number_of(rest),
            "room" => self.room = number_of(rest) as usize,
            "quiet" => self.is_quiet = true,
            "link" => self.links.push(Coming {
                bytes: bytes_of(alloc, names, rest)?,
                failing: Vec::new(alloc),
            })?,
            _ => (),
        }
        Ok(())
    }

    /// Puts a file with this name and these bytes.
    fn put_file(&mut self, alloc: Global, names: &Names, rest: &str) -> Result<(), OutOfMemory> {
        let (name, bytes) = rest.split_once(' ').unwrap_or((rest, ""));
        let bytes = bytes_of(alloc, names, bytes)?;
        self.files.insert(name.to_string(alloc)?, bytes)?;
        Ok(())
    }

    /// Forgets what is of one run alone.
    pub fn forget(&mut self, alloc: Global) {
        self.links = Vec::new(alloc);
        self.faults = Faults::none(alloc);
        self.is_quiet = false;
    }
}

/// The place of this name.
fn place_of(name: &str) -> Place {
    if name == "file" {
        Place::File
    } else {
        Place::Memory
    }
}
