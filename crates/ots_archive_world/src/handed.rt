//! A world that is made of its parts.

use crate::reader::{Reader, read_under};
use crate::world::World;
use ots_inputs::InputError;
use ots_outputs::{Contents, OutputError, PrintedText, make_file, print_whole};
use ots_outside::{Failed, Nonces, Shelf, Sink};
use std::alloc::Global;

/// A world of a shelf, a sink and a giver of nonces.
#[derive(Drop)]
pub struct Handed<S, K, N> {
    /// The files.
    pub shelf: S,
    /// What is printed on.
    pub out: K,
    /// The giver of nonces.
    pub nonces: N,
}

impl<S: Shelf, K: Sink, N: Nonces> World for Handed<S, K, N> {
    ghost told = { λ w. record {
      shelf = S.told w.shelf;
      faults = S.faults w.shelf;
      taken = K.taken w.out;
      lost = K.faults w.out;
      left = N.left w.nonces;
      undrawn = N.faults w.nonces;
    } };

    fn read<R: Reader>(
        &mut self,
        alloc: Global,
        name: &str,
        reader: &R,
    ) -> Result<R::Item, InputError<R::Refusal>> {
        read_under(alloc, name, reader, &mut self.shelf)
    }

    fn print<T: PrintedText>(&mut self, text: &T) -> Result<(), Failed> {
        print_whole(text, &mut self.out)
    }

    fn make<C: Contents>(&mut self, name: &str, contents: &C) -> Result<(), OutputError> {
        make_file(name, contents, &mut self.shelf)
    }

    fn draw(&mut self) -> Result<[u8; 16], Failed> {
        let mut nonce = [0; 16];
        self.nonces.fill16(&mut nonce)?;
        Ok(nonce)
    }
}
