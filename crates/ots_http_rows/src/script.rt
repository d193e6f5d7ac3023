// What a script has said so far.
use crate::addresses::say_addresses;
use crate::dialing::{Stage, say_run};
use crate::reading::{Reader, say_reading};
use crate::runs::run_of;
use crate::stamping::say_batch;
use crate::writing::say_written;
use ots_row_words::{Said, Table, bytes_of, malformed, numbers_of, words_of};
use std::alloc::Global;
use std::io;

/// The bytes that have names, and what the next run is done on.
#[derive(Drop)]
pub struct Script {
    named: Table,
    stage: Stage,
}

impl Script {
    /// Nothing was said yet.
    pub fn new(alloc: Global) -> Script {
        Script {
            named: Table::new(alloc),
            stage: Stage::new(alloc),
        }
    }

    /// Takes a line, and says it, and the answer below it.
    pub fn obey(&mut self, alloc: Global, line: &str, said: &mut Said) -> io::Result<()> {
        said.push(line);
        said.push("\n");
        if line.starts_with('#') {
            return Ok(());
        }
        match words_of(alloc, line)?.split_first() {
            Some((word, rest)) => self.obey_words(alloc, word.as_str(), rest, said),
            None => Ok(()),
        }
    }

    /// Takes the words of a line.
    fn obey_words(
        &mut self,
        alloc: Global,
        word: &str,
        rest: &[String],
        said: &mut Said,
    ) -> io::Result<()> {
        match word {
            "let" => self.name(alloc, rest)?,
            "clear" => self.stage = Stage::new(alloc),
            "dial" => self.dial(alloc, rest)?,
            "fails" => self.stage.failing = numbers_of(alloc, rest)?,
            "stamp" | "prove" | "upgrade" => self.run(alloc, word, rest, said)?,
            _ => self.answer(alloc, word, rest, said)?,
        }
        Ok(())
    }

    /// Gives bytes a name.
    fn name(&mut self, alloc: Global, rest: &[String]) -> io::Result<()> {
        let (name, pieces) = rest.split_first().ok_or_else(malformed)?;
        let bytes = bytes_of(alloc, &self.named, pieces)?;
        self.named.put(name.clone()?, bytes)?;
        Ok(())
    }

    /// Has one more calendar reply these pieces.
    fn dial(&mut self, alloc: Global, pieces: &[String]) -> io::Result<()> {
        let bytes = bytes_of(alloc, &self.named, pieces)?;
        self.stage.replies.push(bytes)?;
        Ok(())
    }

    /// Does a run, and says what came of it. The calls that were to fail are those of this run alone.
    fn run(
        &mut self,
        alloc: Global,
        word: &str,
        rest: &[String],
        said: &mut Said,
    ) -> io::Result<()> {
        let run = run_of(alloc, &self.named, word, rest)?;
        say_run(alloc, &self.stage, &run, said)?;
        self.stage.failing = Vec::new(alloc);
        Ok(())
    }

    /// Answers a question, by its first word.
    fn answer(
        &self,
        alloc: Global,
        word: &str,
        rest: &[String],
        said: &mut Said,
    ) -> io::Result<()> {
        said.push("=");
        match word {
            "addresses" => say_addresses(alloc, &bytes_of(alloc, &self.named, rest)?, said)?,
            "request" => say_reading(alloc, &self.named, Reader::Requests, rest, said)?,
            "reply" => say_reading(alloc, &self.named, Reader::Replies, rest, said)?,
            "write" => say_written(alloc, &self.named, rest, said)?,
            "batch" => say_batch(alloc, rest, said)?,
            _ => return Err(malformed()),
        }
        said.push("\n");
        Ok(())
    }
}
