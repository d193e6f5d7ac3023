// What is printed: each line of the script, and what came of it.
use crate::lines::Line;
use ots_base::OutOfMemory;
use std::alloc::Global;

/// The transcript so far.
#[derive(Drop)]
pub struct Transcript {
    pub text: String,
}

impl Transcript {
    /// Nothing was said yet.
    pub fn new(alloc: Global) -> Transcript {
        Transcript {
            text: String::new(alloc),
        }
    }

    /// Repeats a line of the script.
    pub fn repeat(&mut self, line: &Line) -> Result<(), OutOfMemory> {
        self.text.push_str(line.text.as_str())?;
        self.text.push_str("\n")?;
        Ok(())
    }

    /// Tells what came of it.
    pub fn tell(&mut self, answer: &str) -> Result<(), OutOfMemory> {
        self.text.push_str("= ")?;
        self.text.push_str(answer)?;
        self.text.push_str("\n")?;
        Ok(())
    }
}
