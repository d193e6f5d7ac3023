// What is printed: each line of the script, and below it the words of its answer. Where memory runs out
// less is said, and the transcript is another.
use hex::encode;
use std::alloc::Global;

/// The text that was said so far.
#[derive(Drop)]
pub struct Said {
    alloc: Global,
    text: String,
}

impl Said {
    /// Nothing was said yet.
    pub fn new(alloc: Global) -> Said {
        Said {
            alloc,
            text: String::new(alloc),
        }
    }

    /// The text.
    pub fn text(&self) -> &str {
        self.text.as_str()
    }

    /// Forgets what was said.
    pub fn clear(&mut self) {
        self.text.clear();
    }

    /// Appends a text as it is.
    pub fn push(&mut self, text: &str) {
        let _ = self.text.push_str(text);
    }

    /// Says a word.
    pub fn word(&mut self, word: &str) {
        self.push(" ");
        self.push(word);
    }

    /// Says a number.
    pub fn number(&mut self, number: u64) {
        if let Ok(digits) = number.to_string(self.alloc) {
            self.word(&digits);
        }
    }

    /// Says how many there are.
    pub fn count(&mut self, count: usize) {
        self.number(count as u64);
    }

    /// Says each byte in two hexadecimal digits.
    pub fn bytes(&mut self, bytes: &[u8]) {
        if let Ok(digits) = encode(self.alloc, bytes) {
            self.word(&digits);
        }
    }

    /// Says a hash, where there is one.
    pub fn hash(&mut self, hash: Option<[u8; 32]>) {
        match hash {
            Some(hash) => self.bytes(&hash),
            None => self.word("none"),
        }
    }
}
