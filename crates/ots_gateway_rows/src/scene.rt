// What a script has said so far, and what came of the last run.
use crate::on::{On, place_of};
use crate::run::{Ended, run_on};
use crate::told::{tell_compared, tell_ended};
use ots_base::OutOfMemory;
use ots_row_words::{Said, Table, bytes_of, malformed, number_of, numbers_of, texts_of, words_of};
use std::alloc::{AllocError, Global};
use std::io;
use std::sync::Wait;

/// The bytes that have names, what the next run is done on, and how the last one ended.
#[derive(Drop)]
pub struct Scene {
    named: Table,
    pub on: On,
    ended: Option<Ended>,
}

impl Scene {
    /// Nothing was said yet.
    pub fn new(alloc: Global) -> Scene {
        Scene {
            named: Table::new(alloc),
            on: On::new(alloc),
            ended: None,
        }
    }

    /// Does what a line says, and tells what came of it.
    pub fn obey<R: Wait>(
        &mut self,
        rt: &R,
        alloc: Global,
        line: &str,
        said: &mut Said,
    ) -> io::Result<()> {
        if line.starts_with('#') {
            return Ok(());
        }
        match words_of(alloc, line)?.split_first() {
            Some((word, rest)) => self.obey_words(rt, alloc, word.as_str(), rest, said),
            None => {
                self.on = On::new(alloc);
                Ok(())
            }
        }
    }

    /// Does what the words of a line say.
    fn obey_words<R: Wait>(
        &mut self,
        rt: &R,
        alloc: Global,
        word: &str,
        rest: &[String],
        said: &mut Said,
    ) -> io::Result<()> {
        match word {
            "otsgate" => self.run(rt, alloc, &texts_of(alloc, rest)?, said),
            "took" | "sent" => self.compare(alloc, word, rest, said),
            _ => self.prepare(alloc, word, rest),
        }
    }

    /// Takes what a line says of the runs to come.
    fn prepare(&mut self, alloc: Global, word: &str, rest: &[String]) -> io::Result<()> {
        match word {
            "let" => self.name(alloc, rest)?,
            "link" => self
                .on
                .add_links(alloc, 1, &bytes_of(alloc, &self.named, rest)?)?,
            "links" => self.add_links(alloc, rest)?,
            "nonces" => self.on.nonces = bytes_of(alloc, &self.named, rest)?,
            "reply" => self.on.replies.push(bytes_of(alloc, &self.named, rest)?)?,
            _ => self.fail(alloc, word, rest)?,
        }
        Ok(())
    }

    /// Gives bytes a name.
    fn name(&mut self, alloc: Global, rest: &[String]) -> io::Result<()> {
        let (name, pieces) = rest.split_first().ok_or_else(malformed)?;
        let bytes = bytes_of(alloc, &self.named, pieces)?;
        self.named.put(name.clone()?, bytes)?;
        Ok(())
    }

    /// As many links more as the first word says, each of which sends what the others say.
    fn add_links(&mut self, alloc: Global, rest: &[String]) -> io::Result<()> {
        let (count, pieces) = rest.split_first().ok_or_else(malformed)?;
        let bytes = bytes_of(alloc, &self.named, pieces)?;
        self.on
            .add_links(alloc, number_of(count.as_str())?, &bytes)?;
        Ok(())
    }

    /// The calls of an object that stand after the word `fails` are to fail.
    fn fail(&mut self, alloc: Global, object: &str, rest: &[String]) -> io::Result<()> {
        match rest.split_first() {
            Some((word, calls)) if word.as_str() == "fails" => {
                self.on.fail(object, numbers_of(alloc, calls)?)
            }
            _ => Err(malformed()),
        }
    }

    /// Does a run, and tells what came of it. The calls that were to fail are those of this run alone.
    fn run<R: Wait>(
        &mut self,
        rt: &R,
        alloc: Global,
        words: &[String],
        said: &mut Said,
    ) -> io::Result<()> {
        let ended = run_on(rt, alloc, words, &self.on).map_err(no_memory)?;
        tell_ended(alloc, &ended, said)?;
        self.ended = Some(ended);
        self.on.forget(alloc);
        Ok(())
    }

    /// Tells whether a link took, or a conversation sent, what is asked about.
    fn compare(
        &self,
        alloc: Global,
        word: &str,
        rest: &[String],
        said: &mut Said,
    ) -> io::Result<()> {
        let (number, pieces) = rest.split_first().ok_or_else(malformed)?;
        let wanted = bytes_of(alloc, &self.named, pieces)?;
        let ended = self.ended.as_ref().ok_or_else(malformed)?;
        let found = ended.bytes(word, place_of(number.as_str())?);
        tell_compared(found.ok_or_else(malformed)?, &wanted, said);
        Ok(())
    }
}

/// The error for want of memory, with which the program ends.
fn no_memory(_: OutOfMemory) -> io::Error {
    io::Error::from(AllocError)
}
