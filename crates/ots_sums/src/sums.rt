//! Digests and names.
ghost use Rattle.std.specs.Prelude.{◌≡◌, ◌≤◌, ◌<◌, ◌↔◌, [], length, slice_get, IsTrue};
ghost use Rattle.ots_sums.specs.Sums.{IsSumLine, digests, names};
ghost use Rattle.ots_sums.specs.inner.Parts.{IsText, SpellsName};
ghost use Rattle.ots_sums.specs.inner.Taken.{PushesWhere, TakesLine};

use crate::line::{MAX_LINE, after_mark, body_of};
use crate::names::put_name;
use crate::reading::{MAX_LINES, SumsError};
use ots_base::OutOfMemory;
use std::alloc::Global;
use std::marker::Model;

/// Where an entry is kept.
#[derive(Clone, Copy)]
struct Place {
    /// Its digest.
    digest: [u8; 32],
    /// Where its name begins in the bytes of all names.
    start: usize,
    /// Where it ends.
    end: usize,
}

/// Digests and names of files, in the order of their lines. It takes the memory of the names and 48 bytes a line, and
/// up to twice as much for growing.
///
/// Contracts see the list of the entries.
#[derive(Drop)]
pub struct Sums {
    places: Vec<Place>,
    bytes: Vec<u8>,
}

impl Model for Sums {
    ghost use Rattle.std.specs.Prelude.{List};
    ghost use Rattle.ots_sums.specs.Sums.{Entry};

    ghost Value = { List Entry };

    ghost use Rattle.ots_sums.specs.inner.Kept.{AreWithin, entries_in};

    ghost view = { λ s. entries_in s.bytes.items s.places.items };

    ghost invariant = { λ s. AreWithin s.bytes.items s.places.items };
}

impl Sums {
    /// No entry yet.
    pub(crate) fn new(alloc: Global) -> Sums
        ensures { result ≡ [] }
    {
        Sums {
            places: Vec::new(alloc),
            bytes: Vec::new(alloc),
        }
    }

    /// How many entries there are.
    pub fn len(&self) -> usize
        ensures { result ≡ length self.now }
    {
        self.places.len()
    }

    /// Whether there is no entry.
    pub fn is_empty(&self) -> bool
        ensures { IsTrue result ↔ (self.now ≡ []) }
    {
        self.places.is_empty()
    }

    /// The digest of an entry, counted from 0.
    pub fn digest(&self, index: usize) -> &[u8; 32]
        requires { index < length self.now }
        ensures { slice_get (digests self.now) index ≡ Some result.now }
    {
        &self.places[index].digest
    }

    /// The name of an entry, counted from 0: its bytes, without escapes.
    pub fn name(&self, index: usize) -> &[u8]
        requires { index < length self.now }
        ensures { slice_get (names self.now) index ≡ Some result.now }
    {
        let place = self.places[index];
        &self.bytes[place.start..place.end]
    }

    /// Takes a line, without its line feed.
    pub(crate) fn take_line(&mut self, line: &[u8]) -> Result<(), SumsError>
        requires { length self.old ≤ MAX_LINES }
        ensures { TakesLine line.now self.old self.new result }
    {
        let number = self.len() as u64 + 1;
        if self.len() == MAX_LINES || line.len() >= MAX_LINE || !self.push_line(line)? {
            return Err(SumsError::BadLine(number));
        }
        Ok(())
    }

    /// Adds the entry of a line, without its line feed, and answers whether it has one.
    fn push_line(&mut self, line: &[u8]) -> Result<bool, OutOfMemory>
        requires { length line.now < MAX_LINE }
        ensures { PushesWhere (IsSumLine line.now) self.old self.new result }
    {
        match after_mark(line) {
            Some(text) => self.push_text(text, true),
            None => self.push_text(line, false),
        }
    }

    /// Adds the entry of what stands in a line after its mark, and answers whether it has one.
    fn push_text(&mut self, text: &[u8], is_escaped: bool) -> Result<bool, OutOfMemory>
        ensures { PushesWhere (IsText text.now is_escaped) self.old self.new result }
    {
        match body_of(text) {
            Some(body) => self.push_entry(body.digest, body.name, is_escaped),
            None => Ok(false),
        }
    }

    /// Adds an entry with the name that these bytes spell, and answers whether they spell one.
    fn push_entry(
        &mut self,
        digest: [u8; 32],
        name: &[u8],
        is_escaped: bool,
    ) -> Result<bool, OutOfMemory>
        ensures { PushesWhere (λ e. (e.digest ≡ digest) × SpellsName name.now is_escaped e.name)
            self.old self.new result }
    {
        let start = self.bytes.len();
        if !put_name(&mut self.bytes, name, is_escaped)? {
            return Ok(false);
        }
        let end = self.bytes.len();
        self.places.push(Place { digest, start, end })?;
        Ok(true)
    }
}
