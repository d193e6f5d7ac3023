//! All that lies outside a run.
ghost use Rattle.ots_archive_world.specs.Told.{Told, Draws, Makes, Prints, Reads};

use crate::reader::Reader;
use ots_inputs::InputError;
use ots_outputs::{Contents, OutputError, PrintedText};
use ots_outside::Failed;
use std::alloc::Global;

/// All that lies outside a run: the files, what is printed on, and a giver of nonces.
pub trait World {
    /// What is told of it at a moment.
    ghost told: { Self → Told };

    /// What a reader makes of the bytes of a file.
    fn read<R: Reader>(
        &mut self,
        alloc: Global,
        name: &str,
        reader: &R,
    ) -> Result<R::Item, InputError<R::Refusal>>
        ensures { Reads (R.gives reader.now) (R.refuses reader.now) name.now (told self.old) (told self.new) result };

    /// Prints a text, or a prefix of it where that fails.
    fn print<T: PrintedText>(&mut self, text: &T) -> Result<(), Failed>
        ensures { Prints (T.is_text text.now) (told self.old) (told self.new) result };

    /// Makes a file that holds these contents.
    fn make<C: Contents>(&mut self, name: &str, contents: &C) -> Result<(), OutputError>
        ensures { Makes name.now (C.bytes contents.now) (told self.old) (told self.new) result };

    /// Draws a nonce of 16 bytes.
    fn draw(&mut self) -> Result<[u8; 16], Failed>
        ensures { Draws (told self.old) (told self.new) result };
}
