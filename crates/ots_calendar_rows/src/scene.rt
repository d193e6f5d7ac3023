// What a script has said so far, and the last run.
use crate::on::On;
use crate::run::run_on;
use crate::spelling::{Names, bytes_of, numbers_of, text_of, words_of};
use crate::transcript::{answer, compared, told_of};
use ots_io::OutOfMemory;
use std::alloc::Global;
use std::collections::BTreeMap;
use std::mem::replace;
use std::sync::Wait;
use std::thread::Threads;

/// What the next run is done on, what the last run printed and left, and what the run before printed.
#[derive(Drop)]
pub struct Scene {
    names: Names,
    on: On,
    left: Vec<u8>,
    text: Vec<u8>,
    text_before: Vec<u8>,
}

impl Scene {
    /// No bytes have a name, and nothing was run.
    pub fn new(alloc: Global) -> Scene {
        Scene {
            names: BTreeMap::new(alloc),
            on: On::new(alloc),
            left: Vec::new(alloc),
            text: Vec::new(alloc),
            text_before: Vec::new(alloc),
        }
    }

    /// Does what a line says, and gives what came of it.
    pub fn obey<R: AllocGlobal + Threads + Wait + Sync>(
        &mut self,
        rt: &R,
        line: &str,
    ) -> Result<Vec<u8>, OutOfMemory> {
        let alloc = rt.alloc();
        let (word, rest) = line.split_once(' ').unwrap_or((line, ""));
        match word {
            "otsd" => self.run(rt, &words_of(alloc, rest)?),
            "left" => compared(alloc, &self.left, &bytes_of(alloc, &self.names, rest)?),
            "prefix" => answer(alloc, is_part(&self.text, &self.text_before)),
            _ => {
                self.set(alloc, word, rest)?;
                Ok(Vec::new(alloc))
            }
        }
    }

    /// Takes what a line says of the runs to come.
    fn set(&mut self, alloc: Global, word: &str, rest: &str) -> Result<(), OutOfMemory> {
        match word {
            "" => self.on = On::new(alloc),
            "keep" => self.on.journal = self.left.clone()?,
            "let" => self.name(alloc, rest, Spelled::Bytes)?,
            "text" => self.name(alloc, rest, Spelled::Text)?,
            _ => match rest.strip_prefix("fails ") {
                Some(calls) => self.on.fail(word, numbers_of(alloc, calls)?),
                None => self.on.set(alloc, &self.names, word, rest)?,
            },
        }
        Ok(())
    }

    /// Gives bytes a name.
    fn name(&mut self, alloc: Global, rest: &str, spelled: Spelled) -> Result<(), OutOfMemory> {
        let (name, rest) = rest.split_once(' ').unwrap_or((rest, ""));
        let bytes = match spelled {
            Spelled::Bytes => bytes_of(alloc, &self.names, rest)?,
            Spelled::Text => text_of(alloc, rest)?,
        };
        self.names.insert(name.to_string(alloc)?, bytes)?;
        Ok(())
    }

    /// Does a run, and says what came of it.
    fn run<R: AllocGlobal + Threads + Wait + Sync>(
        &mut self,
        rt: &R,
        words: &[String],
    ) -> Result<Vec<u8>, OutOfMemory> {
        let alloc = rt.alloc();
        let (ended, left) = run_on(rt, words, &self.on)?;
        let said = told_of(alloc, &ended, &left, &self.on)?;
        self.left = left.bytes;
        self.text_before = replace(&mut self.text, ended.text);
        self.on.forget(alloc);
        Ok(said)
    }

    /// This call of an object fails in the next run.
    pub fn fail(&mut self, alloc: Global, object: &str, call: u64) -> Result<(), OutOfMemory> {
        let mut calls = Vec::new(alloc);
        calls.push(call)?;
        self.on.fail(object, calls);
        Ok(())
    }

    /// The journal of the runs to come.
    pub fn journal(&self) -> Result<Vec<u8>, OutOfMemory> {
        Ok(self.on.journal.clone()?)
    }

    /// Puts this journal in its place.
    pub fn put_journal(&mut self, alloc: Global, journal: &[u8]) -> Result<(), OutOfMemory> {
        self.on.journal = journal.to_vec(alloc)?;
        Ok(())
    }
}

/// How bytes are spelled.
#[derive(Clone, Copy)]
enum Spelled {
    Bytes,
    Text,
}

/// Whether a text is a part of another, from its start and not the whole, and has some of it.
fn is_part(text: &[u8], whole: &[u8]) -> bool {
    !text.is_empty() && text.len() < whole.len() && whole.starts_with(text)
}
