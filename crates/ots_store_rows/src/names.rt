// The words to which a script gives names.
use ots_base::OutOfMemory;
use std::alloc::Global;
use std::collections::BTreeMap;

/// The words that each name stands for.
#[derive(Drop)]
pub struct Names {
    words: BTreeMap<String, String>,
}

impl Names {
    /// No name yet.
    pub fn new(alloc: Global) -> Names {
        Names {
            words: BTreeMap::new(alloc),
        }
    }

    /// Gives these words a name.
    pub fn add(&mut self, alloc: Global, name: &str, words: &str) -> Result<(), OutOfMemory> {
        match self
            .words
            .insert(name.to_string(alloc)?, words.to_string(alloc)?)
        {
            Ok(_) => Ok(()),
            Err(_) => Err(OutOfMemory),
        }
    }

    /// The line with what each name stands for in the place of a word `$NAME`.
    pub fn expanded(&self, alloc: Global, line: &str) -> Result<String, OutOfMemory> {
        let mut text = String::new(alloc);
        for (i, word) in line.split(' ').enumerate() {
            if i > 0 {
                text.push_str(" ")?;
            }
            text.push_str(self.meant(word))?;
        }
        Ok(text)
    }

    /// The words that a word stands for.
    fn meant<'a>(&'a self, word: &'a str) -> &'a str {
        match word.strip_prefix('$') {
            Some(name) => self.words.get(name).map_or("", |words| words.as_str()),
            None => word,
        }
    }
}
