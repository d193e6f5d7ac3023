// Files of pins, and what they say of a table.
use crate::table::{Table, next_number};
use ots_chain::{Pin, PinsError, failing_pin, read_pins};
use ots_io::BytesSource;
use std::alloc::{AllocError, Global};

/// The bytes of a file of pins so far.
#[derive(Drop)]
pub struct PinsFile {
    bytes: Vec<u8>,
}

impl PinsFile {
    /// No bytes.
    pub fn new(alloc: Global) -> PinsFile {
        PinsFile {
            bytes: Vec::new(alloc),
        }
    }

    /// Begins anew.
    pub fn begin(&mut self, alloc: Global) -> String {
        self.bytes = Vec::new(alloc);
        String::new(alloc)
    }

    /// The number of lines, a space, and the line that is added so often.
    pub fn add_lines(&mut self, alloc: Global, rest: &str) -> Result<String, AllocError> {
        if let Some((count, text)) = rest.split_once(' ') {
            for _ in 0..next_number(Some(count)) {
                self.bytes.extend_from_slice(text.as_bytes())?;
                self.bytes.push(b'\n')?;
            }
        }
        Ok(String::new(alloc))
    }

    /// These bytes more, as hexadecimal digits.
    pub fn add_bytes(&mut self, alloc: Global, digits: &str) -> Result<String, AllocError> {
        if let Ok(bytes) = hex::decode(alloc, digits) {
            self.bytes.extend_from_slice(bytes.as_slice())?;
        }
        Ok(String::new(alloc))
    }

    /// What reading gives, where the read of this number fails: how many pins and the last of them, with its hash
    /// as Bitcoin keeps it, or why there are none.
    pub fn read_line(&self, alloc: Global, failing: &str) -> Result<String, AllocError> {
        match self.read(alloc, failing)? {
            Ok(pins) => pins_line(alloc, pins.as_slice()),
            Err(PinsError::ReadFault) => "read fault\n".to_string(alloc),
            Err(PinsError::BadPins(number)) => format!(in alloc; "bad pins line {number}\n"),
            Err(PinsError::OutOfMemory) => Err(AllocError),
        }
    }

    /// The height of the first pin that the table does not hold.
    pub fn compare_line(&self, alloc: Global, table: &Table) -> Result<String, AllocError> {
        let (Some(headers), Ok(pins)) = (table.headers(alloc)?, self.read(alloc, "")?) else {
            return "no table or no pins\n".to_string(alloc);
        };
        match failing_pin(&headers, pins.as_slice()) {
            Some(height) => format!(in alloc; "pin fails {height}\n"),
            None => "held\n".to_string(alloc),
        }
    }

    /// The pins of the bytes, where the read of this number fails.
    fn read(
        &self,
        alloc: Global,
        failing: &str,
    ) -> Result<Result<Vec<Pin>, PinsError>, AllocError> {
        let failing = [next_number(Some(failing)) as u64];
        match BytesSource::new(alloc, self.bytes.as_slice(), &[], &failing) {
            Ok(mut source) => Ok(read_pins(alloc, &mut source)),
            Err(_) => Err(AllocError),
        }
    }
}

/// How many pins, and the last of them.
fn pins_line(alloc: Global, pins: &[Pin]) -> Result<String, AllocError> {
    let count = pins.len();
    match pins.last() {
        Some(last) => {
            let (height, hash) = (last.height, last.hash);
            let hash = hex::encode(alloc, &hash)?;
            format!(in alloc; "pins {count} last {height} {}\n", hash.as_str())
        }
        None => "no pins\n".to_string(alloc),
    }
}
