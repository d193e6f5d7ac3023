// What a script has said so far.
use crate::left::Left;
use crate::run::{run_in_memory, run_on_files};
use crate::said::{say_compared, say_left, say_line};
use crate::stage::{Failing, Stage};
use ots_row_words::{
    Table, bytes_of, malformed, number_of, numbers_of, range_of, texts_of, words_of,
};
use std::alloc::Global;
use std::io;
use std::rt::Files;

/// The bytes that have names, what the next run is done on, and what the last one left.
#[derive(Drop)]
pub struct Scene {
    named: Table,
    stage: Stage,
    left: Left,
}

impl Scene {
    /// Nothing was said yet.
    pub fn new(alloc: Global) -> Scene {
        Scene {
            named: Table::new(alloc),
            stage: Stage::empty(alloc),
            left: Left::nothing(alloc),
        }
    }

    /// Does what a line says, and gives what is to be printed: the line, and what came of it.
    pub fn read(&mut self, rt: &(impl Files + AllocGlobal), line: &str) -> io::Result<Vec<u8>> {
        let mut said = Vec::new(rt.alloc());
        match line.strip_prefix("each ") {
            Some(rest) => {
                say_line(line, &mut said)?;
                self.repeat(rt, rest, &mut said)?;
            }
            None => self.obey(rt, line, &mut said)?,
        }
        Ok(said)
    }

    /// Does what lines say, once for each number of a range.
    fn repeat(
        &mut self,
        rt: &(impl Files + AllocGlobal),
        rest: &str,
        said: &mut Vec<u8>,
    ) -> io::Result<()> {
        let (range, lines) = rest.split_once(' ').ok_or_else(malformed)?;
        let (first, last) = range_of(range)?;
        for number in first..=last {
            self.obey_numbered(rt, lines, number, said)?;
        }
        Ok(())
    }

    /// Does what lines say with this number in them.
    fn obey_numbered(
        &mut self,
        rt: &(impl Files + AllocGlobal),
        lines: &str,
        number: u16,
        said: &mut Vec<u8>,
    ) -> io::Result<()> {
        let number = number.to_string(rt.alloc())?;
        let lines = lines.replace(rt.alloc(), '@', number.as_str())?;
        self.obey_all(rt, lines.as_str(), said)
    }

    /// Does what each of these lines says.
    fn obey_all(
        &mut self,
        rt: &(impl Files + AllocGlobal),
        lines: &str,
        said: &mut Vec<u8>,
    ) -> io::Result<()> {
        for line in lines.split("; ") {
            self.obey(rt, line, said)?;
        }
        Ok(())
    }

    /// Does what one line says, and says what came of it.
    fn obey(
        &mut self,
        rt: &(impl Files + AllocGlobal),
        line: &str,
        said: &mut Vec<u8>,
    ) -> io::Result<()> {
        say_line(line, said)?;
        if line.starts_with('#') {
            return Ok(());
        }
        match words_of(rt.alloc(), line)?.split_first() {
            Some((word, rest)) => self.obey_words(rt, word.as_str(), rest, said),
            None => Ok(()),
        }
    }

    /// Does what the words of a line say.
    fn obey_words(
        &mut self,
        rt: &(impl Files + AllocGlobal),
        word: &str,
        rest: &[String],
        said: &mut Vec<u8>,
    ) -> io::Result<()> {
        let alloc = rt.alloc();
        match word {
            "ots" => self.run(alloc, &texts_of(alloc, rest)?, said),
            "real" => self.run_real(rt, &texts_of(alloc, rest)?, said),
            "made" => self.compare_made(alloc, rest, said),
            "asked" => self.compare_asked(alloc, rest, said),
            _ => self.prepare(alloc, word, rest),
        }
    }

    /// Prepares the next run.
    fn prepare(&mut self, alloc: Global, word: &str, rest: &[String]) -> io::Result<()> {
        match word {
            "clear" => self.stage = Stage::empty(alloc),
            "let" => self.name_bytes(alloc, rest)?,
            "file" => self.put_files(alloc, rest)?,
            "nonces" => self.stage.nonces = bytes_of(alloc, &self.named, rest)?,
            "shelf" => self.stage.failing.shelf = numbers_of(alloc, rest)?,
            "sink" => self.stage.failing.sink = numbers_of(alloc, rest)?,
            "dial" => self.dial(alloc, rest)?,
            "nonce" => self.stage.failing.draws = failing_of(alloc, rest)?,
            _ => return Err(malformed()),
        }
        Ok(())
    }

    /// Gives bytes a name.
    fn name_bytes(&mut self, alloc: Global, rest: &[String]) -> io::Result<()> {
        let (name, pieces) = rest.split_first().ok_or_else(malformed)?;
        let bytes = bytes_of(alloc, &self.named, pieces)?;
        self.named.put(name.clone()?, bytes)?;
        Ok(())
    }

    /// Puts files.
    fn put_files(&mut self, alloc: Global, rest: &[String]) -> io::Result<()> {
        let (names, pieces) = rest.split_at_checked(1).ok_or_else(malformed)?;
        let bytes = bytes_of(alloc, &self.named, pieces)?;
        for name in texts_of(alloc, names)? {
            self.stage.files.put(name, bytes.clone()?)?;
        }
        Ok(())
    }

    /// Says what a calendar replies, or which calls of the dialer fail.
    fn dial(&mut self, alloc: Global, rest: &[String]) -> io::Result<()> {
        let (address, pieces) = rest.split_first().ok_or_else(malformed)?;
        if address.as_str() == "fails" {
            self.stage.failing.dialer = numbers_of(alloc, pieces)?;
        } else {
            let bytes = bytes_of(alloc, &self.named, pieces)?;
            self.stage.replies.put(address.clone()?, bytes)?;
        }
        Ok(())
    }

    /// Does a run, and says what came of it. The calls that were to fail are those of this run alone.
    fn run(&mut self, alloc: Global, words: &[String], said: &mut Vec<u8>) -> io::Result<()> {
        self.left = run_in_memory(alloc, words, &self.stage)?;
        self.stage.failing = Failing::none(alloc);
        say_left(alloc, &self.left, said)?;
        Ok(())
    }

    /// Does a run over real files, and says what came of it.
    fn run_real(
        &mut self,
        rt: &(impl Files + AllocGlobal),
        words: &[String],
        said: &mut Vec<u8>,
    ) -> io::Result<()> {
        self.left = run_on_files(rt, words, &self.stage)?;
        self.stage.failing = Failing::none(rt.alloc());
        say_left(rt.alloc(), &self.left, said)?;
        Ok(())
    }

    /// Says whether the last run made this file.
    fn compare_made(&self, alloc: Global, rest: &[String], said: &mut Vec<u8>) -> io::Result<()> {
        let (name, pieces) = rest.split_first().ok_or_else(malformed)?;
        let wanted = bytes_of(alloc, &self.named, pieces)?;
        say_compared(alloc, self.left.made.get(name.as_str()), &wanted, said)?;
        Ok(())
    }

    /// Says whether the last run sent these bytes in that conversation.
    fn compare_asked(&self, alloc: Global, rest: &[String], said: &mut Vec<u8>) -> io::Result<()> {
        let (number, pieces) = rest.split_first().ok_or_else(malformed)?;
        let wanted = bytes_of(alloc, &self.named, pieces)?;
        let sent = self.sent(number_of(number.as_str())?);
        say_compared(alloc, sent, &wanted, said)?;
        Ok(())
    }

    /// What the last run sent in the conversation of this number, from 1.
    fn sent(&self, number: u64) -> Option<&[u8]> {
        let place = usize::try_from(number.checked_sub(1)?).ok()?;
        let row = self.left.ended.asked.rows().get(place)?;
        Some(row.bytes.as_slice())
    }
}

/// The numbers after the word `fails`.
fn failing_of(alloc: Global, rest: &[String]) -> io::Result<Vec<u64>> {
    match rest.split_first() {
        Some((word, numbers)) if word.as_str() == "fails" => numbers_of(alloc, numbers),
        _ => Err(malformed()),
    }
}
