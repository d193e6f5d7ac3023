// What a script has said so far.
use crate::run::{Left, run_on};
use crate::stage::{Failing, Stage};
use crate::told::{tell_compared, tell_left, tell_line};
use hex::encode;
use ots_row_words::{Said, Table, bytes_of, malformed, numbers_of, text_of, texts_of, words_of};
use sha2::{Digest, Sha256};
use std::alloc::{AllocError, Global};
use std::io;

/// The bytes that have names, what the next run is done on, and what the last one left.
#[derive(Drop)]
pub struct Scene {
    named: Table,
    stage: Stage,
    left: Left,
}

impl Scene {
    /// Nothing was said yet.
    pub fn new(alloc: Global) -> Scene {
        Scene {
            named: Table::new(alloc),
            stage: Stage::empty(alloc),
            left: Left::nothing(alloc),
        }
    }

    /// Does what a line says, and tells the line, and what came of it.
    pub fn obey(&mut self, alloc: Global, line: &str, said: &mut Said) -> io::Result<()> {
        tell_line(line, said);
        if line.starts_with('#') {
            return Ok(());
        }
        match words_of(alloc, line)?.split_first() {
            Some((word, rest)) => self.obey_words(alloc, word.as_str(), rest, said),
            None => Ok(()),
        }
    }

    /// Does what the words of a line say.
    fn obey_words(
        &mut self,
        alloc: Global,
        word: &str,
        rest: &[String],
        said: &mut Said,
    ) -> io::Result<()> {
        match word {
            "otsarchive" => self.run(alloc, &texts_of(alloc, rest)?, said),
            "made" => self.compare_made(alloc, rest, said),
            "let" | "sha256" | "hex" => self.name_bytes(alloc, word, rest),
            _ => self.prepare(alloc, word, rest),
        }
    }

    /// Does a run, and tells what came of it. The calls that were to fail are those of this run alone.
    fn run(&mut self, alloc: Global, words: &[String], said: &mut Said) -> io::Result<()> {
        self.left = run_on(alloc, words, &self.stage)?;
        self.stage.failing = Failing::none(alloc);
        tell_left(&self.left, said);
        Ok(())
    }

    /// Tells whether the last run made this file with these bytes.
    fn compare_made(&self, alloc: Global, rest: &[String], said: &mut Said) -> io::Result<()> {
        let (name, pieces) = rest.split_first().ok_or_else(malformed)?;
        let wanted = bytes_of(alloc, &self.named, pieces)?;
        let name = text_of(alloc, name.as_str())?;
        tell_compared(self.left.made.get(name.as_str()), &wanted, said);
        Ok(())
    }

    /// Gives a name to bytes, to their SHA-256 or to their hexadecimal digits.
    fn name_bytes(&mut self, alloc: Global, word: &str, rest: &[String]) -> io::Result<()> {
        let (name, pieces) = rest.split_first().ok_or_else(malformed)?;
        let bytes = bytes_of(alloc, &self.named, pieces)?;
        let bytes = match word {
            "sha256" => Sha256::digest(&bytes).to_vec(alloc)?,
            "hex" => encode(alloc, &bytes)?.into_bytes(),
            _ => bytes,
        };
        self.named.put(name.clone()?, bytes)?;
        Ok(())
    }

    /// Prepares the next run.
    fn prepare(&mut self, alloc: Global, word: &str, rest: &[String]) -> io::Result<()> {
        match word {
            "clear" => self.stage = Stage::empty(alloc),
            "file" => self.put_file(alloc, rest)?,
            "sheet" => self.put_sheet(alloc, rest)?,
            "output" => self.stage.outputs = texts_of(alloc, rest)?,
            "keep" => self.keep()?,
            "nonces" => self.stage.nonces = bytes_of(alloc, &self.named, rest)?,
            "shelf" => self.stage.failing.shelf = numbers_of(alloc, rest)?,
            "sink" => self.stage.failing.sink = numbers_of(alloc, rest)?,
            "nonce" => self.stage.failing.draws = numbers_of(alloc, rest)?,
            _ => return Err(malformed()),
        }
        Ok(())
    }

    /// Puts a file.
    fn put_file(&mut self, alloc: Global, rest: &[String]) -> io::Result<()> {
        let (name, pieces) = rest.split_first().ok_or_else(malformed)?;
        let bytes = bytes_of(alloc, &self.named, pieces)?;
        self.stage.files.put(text_of(alloc, name.as_str())?, bytes)?;
        Ok(())
    }

    /// Puts a sheet of lines.
    fn put_sheet(&mut self, alloc: Global, rest: &[String]) -> io::Result<()> {
        let (name, pieces) = rest.split_first().ok_or_else(malformed)?;
        let mut bytes = bytes_of(alloc, &self.named, pieces)?;
        let sum = sum_of(alloc, &bytes)?;
        bytes.extend_from_slice(sum.as_bytes())?;
        self.stage.files.put(text_of(alloc, name.as_str())?, bytes)?;
        Ok(())
    }

    /// Keeps the files that the last run made.
    fn keep(&mut self) -> Result<(), AllocError> {
        for file in self.left.made.rows() {
            self.stage
                .files
                .put(file.name.clone()?, file.bytes.clone()?)?;
        }
        Ok(())
    }
}

/// The line of the sum of these lines.
fn sum_of(alloc: Global, lines: &[u8]) -> Result<String, AllocError> {
    let count = lines.iter().filter(|byte| **byte == b'\n').count();
    let digits = encode(alloc, &Sha256::digest(lines))?;
    format!(in alloc; "sum {count} {digits}\n")
}
