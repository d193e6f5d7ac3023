//! The words that a program is started with.
#![tactic(auto)]

use std::alloc::{AllocError, Global};
use std::env;
use std::io::ErrorKind;
use std::rt::Env;

/// The words after the program's name. Where one of them is not UTF-8 there are none, which is a
/// faulty command line too. The error comes where memory ran out.
pub fn read_words(rt: &(impl Env + AllocGlobal), alloc: Global) -> Result<Vec<String>, AllocError> {
    match env::args(rt) {
        Ok(words) => words.skip(1).collect(alloc),
        Err(error) if error.kind() == ErrorKind::OutOfMemory => Err(AllocError),
        Err(_) => Ok(Vec::new(alloc)),
    }
}

/// The first word, or the empty one where there is none. The error comes where memory ran out.
pub fn first_word(alloc: Global, words: &[String]) -> Result<String, AllocError> {
    match words.first() {
        Some(word) => String::from_str(alloc, word),
        None => Ok(String::new(alloc)),
    }
}
