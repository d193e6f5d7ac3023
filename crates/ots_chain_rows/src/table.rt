// What the lines speak of.
use ots_chain::{ChainCheck, ChainFault, check, target};
use ots_headers::Headers;
use ots_io::BytesSource;
use std::alloc::{AllocError, Global};

/// The bytes of the headers so far, and the height of the first.
#[derive(Drop)]
pub struct Table {
    first: u64,
    bytes: Vec<u8>,
}

impl Table {
    /// No headers, from height 0 on.
    pub fn new(alloc: Global) -> Table {
        Table {
            first: 0,
            bytes: Vec::new(alloc),
        }
    }

    /// Begins anew at this height.
    pub fn begin(&mut self, alloc: Global, height: &str) -> Result<String, AllocError> {
        self.first = height.parse::<u64>().unwrap_or(0);
        self.bytes = Vec::new(alloc);
        Ok(String::new(alloc))
    }

    /// One header more.
    pub fn add(&mut self, alloc: Global, digits: &str) -> Result<(), AllocError> {
        if let Ok(header) = hex::decode(alloc, digits) {
            self.bytes.extend_from_slice(header.as_slice())?;
        }
        Ok(())
    }

    /// Turns the bit that these numbers name: of which header, of which of its bytes, which one.
    pub fn change(&mut self, alloc: Global, numbers: &str) -> Result<String, AllocError> {
        let mut words = numbers.split(' ');
        let number = next_number(words.next());
        let place = number
            .saturating_mul(80)
            .saturating_add(next_number(words.next()));
        let bit = next_number(words.next());
        if let Some(byte) = self.bytes.get_mut(place) {
            *byte ^= bit_of(bit);
        }
        Ok(String::new(alloc))
    }

    /// What the check of the table answers.
    pub fn check_line(&self, alloc: Global) -> Result<String, AllocError> {
        match self.headers(alloc)? {
            Some(headers) => line_of(alloc, check(&headers)),
            None => "no table\n".to_string(alloc),
        }
    }

    /// The table that the bytes are, if they are one.
    pub fn headers(&self, alloc: Global) -> Result<Option<Headers>, AllocError> {
        let Ok(mut source) = BytesSource::new(alloc, self.bytes.as_slice(), &[], &[]) else {
            return Err(AllocError);
        };
        if self.first > i64::MAX as u64 {
            return Ok(None);
        }
        Ok(Headers::read(alloc, self.first, &mut source).ok())
    }
}

/// The number of a word; 0 where there is none.
pub fn next_number(word: Option<&str>) -> usize {
    word.and_then(|word| word.parse::<usize>().ok())
        .unwrap_or(0)
}

/// The byte in which this bit alone is set, of 0 to 7.
fn bit_of(bit: usize) -> u8 {
    if bit < 8 { 1 << bit } else { 0 }
}

/// The line of an answer; the tip as a block hash is usually shown, its last byte first.
fn line_of(alloc: Global, answer: ChainCheck) -> Result<String, AllocError> {
    match answer {
        ChainCheck::Whole { first, last, tip } => {
            let mut shown = tip;
            shown.reverse();
            let shown = hex::encode(alloc, &shown)?;
            format!(in alloc; "whole {first} to {last} tip {}\n", shown.as_str())
        }
        ChainCheck::Broken { height, fault } => {
            let reason = reason_of(fault);
            format!(in alloc; "broken at {height}: {reason}\n")
        }
    }
}

fn reason_of(fault: ChainFault) -> &'static str {
    match fault {
        ChainFault::BadLink => "bad link",
        ChainFault::BadBits => "bad bits",
        ChainFault::AboveTarget => "above target",
    }
}

/// The target of these bits.
pub fn target_line(alloc: Global, bits: &str) -> Result<String, AllocError> {
    let answer = match u32::from_str_radix(bits, 16) {
        Ok(bits) => target(bits),
        Err(_) => None,
    };
    match answer {
        Some(number) => {
            let digits = hex::encode(alloc, &number)?;
            format!(in alloc; "{}\n", digits.as_str())
        }
        None => "none\n".to_string(alloc),
    }
}
