// What a script has said so far of a disk.
use crate::lines::{Form, Line, Opening, line_of, split_word};
use crate::memory::run_on;
use crate::names::Names;
use crate::spelling::{bytes_of, number_of, numbers_of};
use crate::start::{Start, room_of};
use crate::told;
use ots_base::OutOfMemory;
use std::alloc::Global;

/// The words that have names, what the disk begins as, the calls of it before it is opened, its
/// openings with the calls after each, and what is asked of it at the end.
#[derive(Drop)]
pub struct Scene {
    names: Names,
    start: Start,
    calls: Vec<Line>,
    openings: Vec<Opening>,
    questions: Vec<Line>,
}

impl Scene {
    /// Nothing was said yet.
    pub fn new(alloc: Global) -> Scene {
        Scene {
            names: Names::new(alloc),
            start: Start::new(alloc),
            calls: Vec::new(alloc),
            openings: Vec::new(alloc),
            questions: Vec::new(alloc),
        }
    }

    /// Takes a line, and gives what is to be printed now. An empty one ends what is said of a disk.
    pub fn obey(&mut self, alloc: Global, text: &str) -> Result<String, OutOfMemory> {
        if text.is_empty() {
            let mut said = self.end(alloc)?;
            said.push_str("\n")?;
            return Ok(said);
        }
        let meant = self.names.expanded(alloc, text)?;
        let (word, rest) = split_word(meant.as_str());
        match word {
            "let" | "disk" | "fails" | "limit" | "room" => {
                self.begin(alloc, word, rest)?;
                Ok(format!(in alloc; "{text}\n")?)
            }
            "version1" => {
                let bytes = bytes_of(alloc, rest)?;
                let length = bytes.len();
                let entries = told::old_entries(alloc, &bytes)?;
                Ok(format!(in alloc; "{text}\n= {length} bytes: {entries}\n")?)
            }
            _ => self.keep(alloc, word, line_of(alloc, text, meant.as_str())?),
        }
    }

    /// Takes a line that says what the disk begins as, or names words.
    fn begin(&mut self, alloc: Global, word: &str, rest: &str) -> Result<(), OutOfMemory> {
        match word {
            "disk" => self.start.bytes = bytes_of(alloc, rest)?,
            "fails" => self.start.failing = numbers_of(alloc, rest)?,
            "limit" => self.start.limit = number_of(rest),
            "room" => self.start.room = room_of(rest),
            _ => {
                let (name, words) = split_word(rest);
                self.names.add(alloc, name, words)?;
            }
        }
        Ok(())
    }

    /// Takes a line that is done at the end; a comment before them is repeated now.
    fn keep(&mut self, alloc: Global, word: &str, line: Line) -> Result<String, OutOfMemory> {
        match word {
            "journal" => self
                .openings
                .push(Opening::new(alloc, Form::Journal, line))?,
            "store" => self.openings.push(Opening::new(alloc, Form::Store, line))?,
            "left" | "calls" | "images" => self.questions.push(line)?,
            _ => match self.openings.last_mut() {
                Some(opening) => opening.calls.push(line)?,
                None if line.is_comment() && self.calls.is_empty() => {
                    let text = line.text.as_str();
                    return Ok(format!(in alloc; "{text}\n")?);
                }
                None => self.calls.push(line)?,
            },
        }
        Ok(String::new(alloc))
    }

    /// Does all that was said of the disk, and gives what is to be printed. The next disk is a new one.
    pub fn end(&mut self, alloc: Global) -> Result<String, OutOfMemory> {
        let calls = self.calls.as_slice();
        let openings = self.openings.as_slice();
        let questions = self.questions.as_slice();
        let transcript = run_on(alloc, &self.start, calls, openings, questions)?;
        self.start = Start::new(alloc);
        self.calls = Vec::new(alloc);
        self.openings = Vec::new(alloc);
        self.questions = Vec::new(alloc);
        Ok(transcript.text)
    }
}
