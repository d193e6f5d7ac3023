// A script: its lines, and those that are read again for each number of a range.
use crate::scene::Scene;
use crate::told::tell_line;
use ots_row_words::{Said, malformed, range_of};
use std::alloc::Global;
use std::io;

/// What the lines that were read have said.
#[derive(Drop)]
pub struct Script {
    scene: Scene,
}

impl Script {
    /// Nothing was said yet.
    pub fn new(alloc: Global) -> Script {
        Script {
            scene: Scene::new(alloc),
        }
    }

    /// Does what a line says, and tells the line, and what came of it.
    pub fn read(&mut self, alloc: Global, line: &str, said: &mut Said) -> io::Result<()> {
        match line.strip_prefix("each ") {
            Some(rest) => {
                tell_line(line, said);
                self.repeat(alloc, rest, said)
            }
            None => self.scene.obey(alloc, line, said),
        }
    }

    /// Does what lines say, once for each number of a range.
    fn repeat(&mut self, alloc: Global, rest: &str, said: &mut Said) -> io::Result<()> {
        let (range, lines) = rest.split_once(' ').ok_or_else(malformed)?;
        let (first, last) = range_of(range)?;
        for number in first..=last {
            self.obey_numbered(alloc, lines, number, said)?;
        }
        Ok(())
    }

    /// Does what lines say with this number in them.
    fn obey_numbered(
        &mut self,
        alloc: Global,
        lines: &str,
        number: u16,
        said: &mut Said,
    ) -> io::Result<()> {
        let number = number.to_string(alloc)?;
        let lines = lines.replace(alloc, '@', number.as_str())?;
        for line in lines.as_str().split("; ") {
            self.scene.obey(alloc, line, said)?;
        }
        Ok(())
    }
}
