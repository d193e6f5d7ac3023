// What a script has said so far, and what the last run left.
use crate::on::{Failing, On};
use crate::run::run_on;
use crate::told::{tell_compared, tell_left};
use ots_base::OutOfMemory;
use ots_disk::Choice;
use ots_row_words::{Said, Table, bytes_of, malformed, numbers_of, texts_of, words_of};
use std::alloc::{AllocError, Global};
use std::io;

/// The bytes that have names, what the next run is done on, and the journal that the last one left.
#[derive(Drop)]
pub struct Scene {
    named: Table,
    pub on: On,
    left: Vec<u8>,
}

impl Scene {
    /// Nothing was said yet.
    pub fn new(alloc: Global) -> Scene {
        Scene {
            named: Table::new(alloc),
            on: On::new(alloc),
            left: Vec::new(alloc),
        }
    }

    /// Does what a line says, and tells what came of it.
    pub fn obey(&mut self, alloc: Global, line: &str, said: &mut Said) -> io::Result<()> {
        if line.starts_with('#') {
            return Ok(());
        }
        match words_of(alloc, line)?.split_first() {
            Some((word, rest)) => self.obey_words(alloc, word.as_str(), rest, said),
            None => {
                self.on = On::new(alloc);
                Ok(())
            }
        }
    }

    /// Does what the words of a line say.
    fn obey_words(
        &mut self,
        alloc: Global,
        word: &str,
        rest: &[String],
        said: &mut Said,
    ) -> io::Result<()> {
        match word {
            "mirror" => self.run(alloc, &texts_of(alloc, rest)?, said),
            "left" => {
                tell_compared(&self.left, &bytes_of(alloc, &self.named, rest)?, said);
                Ok(())
            }
            _ => self.prepare(alloc, word, rest),
        }
    }

    /// Takes what a line says of the runs to come.
    fn prepare(&mut self, alloc: Global, word: &str, rest: &[String]) -> io::Result<()> {
        match word {
            "let" => self.name(alloc, rest)?,
            "journal" => self.on.journal = bytes_of(alloc, &self.named, rest)?,
            "reply" => self.on.replies.push(bytes_of(alloc, &self.named, rest)?)?,
            "clear" => self.on.replies = Vec::new(alloc),
            "keep" => self.on.journal = self.left.clone()?,
            "leaves" => self.on.choice = self.choice_of(alloc, rest)?,
            _ => self.fail(alloc, word, rest)?,
        }
        Ok(())
    }

    /// Gives bytes a name.
    fn name(&mut self, alloc: Global, rest: &[String]) -> io::Result<()> {
        let (name, pieces) = rest.split_first().ok_or_else(malformed)?;
        let bytes = bytes_of(alloc, &self.named, pieces)?;
        self.named.put(name.clone()?, bytes)?;
        Ok(())
    }

    /// The calls of an object that stand after the word `fails` are to fail.
    fn fail(&mut self, alloc: Global, object: &str, rest: &[String]) -> io::Result<()> {
        match rest.split_first() {
            Some((word, calls)) if word.as_str() == "fails" => {
                self.on.failing.fail(object, numbers_of(alloc, calls)?)
            }
            _ => Err(malformed()),
        }
    }

    /// What is left of pending writes, by its word or its byte.
    fn choice_of(&self, alloc: Global, rest: &[String]) -> io::Result<Choice> {
        match rest.first().ok_or_else(malformed)?.as_str() {
            "dropped" => Ok(Choice::Dropped),
            "kept" => Ok(Choice::Kept),
            _ => {
                let bytes = bytes_of(alloc, &self.named, rest)?;
                Ok(Choice::Fill(*bytes.first().ok_or_else(malformed)?))
            }
        }
    }

    /// Does a run, and tells what came of it. The calls that were to fail are those of this run alone.
    fn run(&mut self, alloc: Global, words: &[String], said: &mut Said) -> io::Result<()> {
        let left = run_on(alloc, words, &self.on).map_err(no_memory)?;
        tell_left(&left, said)?;
        self.left = left.journal;
        self.on.failing = Failing::none(alloc);
        Ok(())
    }
}

/// The error for want of memory, with which the program ends.
fn no_memory(_: OutOfMemory) -> io::Error {
    io::Error::from(AllocError)
}
