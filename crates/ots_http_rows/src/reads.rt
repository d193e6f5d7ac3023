// Answers that come one after the other, of which many are the same.
use ots_row_words::Said;
use std::alloc::Global;

/// What a reader answered, and how many bytes were read.
#[derive(Drop)]
pub struct Came {
    pub words: Said,
    pub read: usize,
}

impl Came {
    /// Says it.
    pub fn say(&self, said: &mut Said) {
        said.push(self.words.words());
        said.word("read");
        said.count(self.read);
        said.push(";");
    }
}

/// Answers of the same words, each with as many bytes read as the one before it or one more: the words, the least
/// and the greatest number, and how many answers they are.
#[derive(Drop)]
pub struct Reads {
    words: Said,
    first: usize,
    last: usize,
    times: u64,
}

impl Reads {
    /// None came.
    pub fn new(alloc: Global) -> Reads {
        Reads {
            words: Said::new(alloc),
            first: 0,
            last: 0,
            times: 0,
        }
    }

    /// Takes an answer. Where it doesn't go on with those before it, they are said.
    pub fn add(&mut self, came: Came, said: &mut Said) {
        if self.goes_on(&came) {
            self.last = came.read;
            self.times = self.times.saturating_add(1);
        } else {
            self.end(said);
            self.first = came.read;
            self.last = came.read;
            self.words = came.words;
            self.times = 1;
        }
    }

    /// Whether an answer goes on with those before it.
    fn goes_on(&self, came: &Came) -> bool {
        self.times > 0
            && self.words.words() == came.words.words()
            && (came.read == self.last || came.read == self.last.saturating_add(1))
    }

    /// Says those that came.
    pub fn end(&mut self, said: &mut Said) {
        if self.times > 0 {
            said.push(self.words.words());
            said.word("read");
            said.count(self.first);
            said.word("to");
            said.count(self.last);
            said.word("times");
            said.number(self.times);
            said.push(";");
        }
        self.times = 0;
    }
}
