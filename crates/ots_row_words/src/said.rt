// What is printed: each line of the script, and below it the words of its answer.
use hex::encode;
use sha2::{Digest, Sha256};
use std::alloc::Global;
use std::fmt::Display;

/// The most bytes that are told one by one.
const SHORT: usize = 512;

/// The text that was said so far. Where memory ran out it ends too early, and says so.
#[derive(Drop)]
pub struct Said {
    alloc: Global,
    text: String,
    is_whole: bool,
}

impl Said {
    /// Nothing was said yet.
    pub fn new(alloc: Global) -> Said {
        Said {
            alloc,
            text: String::new(alloc),
            is_whole: true,
        }
    }

    /// The text, where memory was enough.
    pub fn text(&self) -> Option<&str> {
        if self.is_whole {
            Some(self.text.as_str())
        } else {
            None
        }
    }

    /// What was said, whole or not.
    pub fn words(&self) -> &str {
        self.text.as_str()
    }

    /// Forgets what was said.
    pub fn clear(&mut self) {
        self.text.clear();
    }

    /// Appends a text as it is.
    pub fn push(&mut self, text: &str) {
        if self.text.push_str(text).is_err() {
            self.is_whole = false;
        }
    }

    /// Says a word.
    pub fn word(&mut self, word: &str) {
        self.push(" ");
        self.push(word);
    }

    /// Says a number.
    pub fn number(&mut self, number: u64) {
        self.push(" ");
        self.push_number(number);
    }

    /// Appends a number as it is.
    fn push_number(&mut self, number: u64) {
        match number.to_string(self.alloc) {
            Ok(digits) => self.push(&digits),
            Err(_) => self.is_whole = false,
        }
    }

    /// Appends a value as it is shown.
    pub fn show<T: Display>(&mut self, value: &T) {
        match value.to_string(self.alloc) {
            Ok(text) => self.push(&text),
            Err(_) => self.is_whole = false,
        }
    }

    /// Says how many there are.
    pub fn count(&mut self, count: usize) {
        self.number(count as u64);
    }

    /// Says whether it is so.
    pub fn whether(&mut self, is_so: bool) {
        self.word(if is_so { "yes" } else { "no" });
    }

    /// Says bytes in hexadecimal digits: `-` for none, `xx*N` for one that stands N times, and many by
    /// their number and their SHA-256.
    pub fn bytes(&mut self, bytes: &[u8]) {
        match bytes {
            [] => self.word("-"),
            [first, second, ..] if bytes.iter().all(|byte| *byte == *first) => {
                self.digits(&[*second]);
                self.push("*");
                self.push_number(bytes.len() as u64);
            }
            _ if bytes.len() <= SHORT => self.digits(bytes),
            _ => {
                self.count(bytes.len());
                self.word("bytes of SHA-256");
                self.digits(&Sha256::digest(bytes));
            }
        }
    }

    /// Says bytes as a text in quotes, in which `\r` and `\n` are the ends of lines and `\xNN` is any other
    /// byte that is no sign of ASCII, and many as `bytes` does.
    pub fn quoted(&mut self, bytes: &[u8]) {
        if bytes.len() > SHORT {
            self.bytes(bytes);
        } else {
            self.push(" \"");
            for byte in bytes {
                self.push_escaped(*byte);
            }
            self.push("\"");
        }
    }

    /// Appends a byte of a text in quotes.
    fn push_escaped(&mut self, byte: u8) {
        match byte {
            b'\r' => self.push("\\r"),
            b'\n' => self.push("\\n"),
            b'"' | b'\\' => self.push_coded(byte),
            b' '..=b'~' => self.push_char(char::from(byte)),
            _ => self.push_coded(byte),
        }
    }

    /// Appends a character as it is.
    fn push_char(&mut self, letter: char) {
        if self.text.push(letter).is_err() {
            self.is_whole = false;
        }
    }

    /// Appends a byte by its two hexadecimal digits.
    fn push_coded(&mut self, byte: u8) {
        self.push("\\x");
        self.push_digits(&[byte]);
    }

    /// Says each byte in two hexadecimal digits.
    pub fn digits(&mut self, bytes: &[u8]) {
        self.push(" ");
        self.push_digits(bytes);
    }

    /// Appends each byte in two hexadecimal digits.
    fn push_digits(&mut self, bytes: &[u8]) {
        match encode(self.alloc, bytes) {
            Ok(digits) => self.push(&digits),
            Err(_) => self.is_whole = false,
        }
    }
}
