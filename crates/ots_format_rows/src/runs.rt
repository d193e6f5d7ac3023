// Answers that come one after the other, of which many are the same.
use ots_row_words::Said;
use std::alloc::Global;

/// The last answer, and how often it came.
#[derive(Drop)]
pub struct Runs {
    alloc: Global,
    last: String,
    times: u64,
}

impl Runs {
    /// None came.
    pub fn new(alloc: Global) -> Runs {
        Runs {
            alloc,
            last: String::new(alloc),
            times: 0,
        }
    }

    /// Takes an answer. Where it is another, the one before is said, with how often it came.
    pub fn add(&mut self, answer: &str, said: &mut Said) {
        if self.times > 0 && self.last.as_str() == answer {
            self.times = self.times.saturating_add(1);
        } else {
            self.end(said);
            self.last = answer
                .to_string(self.alloc)
                .unwrap_or(String::new(self.alloc));
            self.times = 1;
        }
    }

    /// Says the last answer.
    pub fn end(&mut self, said: &mut Said) {
        if self.times > 0 {
            said.push(self.last.as_str());
            said.word("times");
            said.number(self.times);
            said.push(";");
        }
        self.times = 0;
    }
}
