// The lines of a script that are done once all that is said of a disk is known.
use ots_base::OutOfMemory;
use std::alloc::Global;

/// A line as it stands in the script, and with words in the places of their names.
#[derive(Drop)]
pub struct Line {
    pub text: String,
    pub meant: String,
}

impl Line {
    /// Whether it asks for nothing.
    pub fn is_comment(&self) -> bool {
        self.text.as_str().starts_with('#')
    }
}

/// What a disk is opened as.
#[derive(Clone, Copy)]
pub enum Form {
    Journal,
    Store,
}

/// An opening of the disk, and the calls that are made then.
#[derive(Drop)]
pub struct Opening {
    pub form: Form,
    pub line: Line,
    pub calls: Vec<Line>,
}

impl Opening {
    /// One without calls.
    pub fn new(alloc: Global, form: Form, line: Line) -> Opening {
        Opening {
            form,
            line,
            calls: Vec::new(alloc),
        }
    }
}

/// The word before a line, and what stands after it.
pub fn split_word(line: &str) -> (&str, &str) {
    line.split_once(' ').unwrap_or((line, ""))
}

/// A copy of the line and of what it means.
pub fn line_of(alloc: Global, text: &str, meant: &str) -> Result<Line, OutOfMemory> {
    Ok(Line {
        text: text.to_string(alloc)?,
        meant: meant.to_string(alloc)?,
    })
}
