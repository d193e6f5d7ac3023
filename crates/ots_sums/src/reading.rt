//! A file of sums, from a source.
ghost use Rattle.std.specs.Prelude.{◌≡◌, IsErrOf};
ghost use Rattle.ots_base.specs.Cause.{HasCauseWhere};
ghost use Rattle.ots_sums.specs.Sums.{ReadsSums};
ghost use Rattle.ots_sums.specs.declared.reading.SumsError.TheVariants.{OutOfMemory, ReadFault};

use crate::sums::Sums;
use ots_base::OutOfMemory;
use ots_line_reader::{Found, LineReader};
use ots_outside::{Failed, Source};
use std::alloc::Global;

/// The most lines of a file. The limit is this project's.
pub const MAX_LINES: usize = 1_048_576;

/// Why no sums were read.
#[derive(Clone, Copy)]
pub enum SumsError {
    /// A read failed, and the source has counted the fault.
    ReadFault,
    /// The number of the first line that is not of its form, counted from 1: 1 where the input is empty, and 1,048,577
    /// where anything follows 1,048,576 lines.
    BadLine(u64),
    /// Memory ran out.
    OutOfMemory,
}

impl From<Failed> for SumsError {
    ghost from_gives = { λ _ e. e ≡ ReadFault };

    fn from(_: Failed) -> Self {
        SumsError::ReadFault
    }
}

impl From<OutOfMemory> for SumsError {
    ghost from_gives = { λ _ e. e ≡ OutOfMemory };

    fn from(_: OutOfMemory) -> Self {
        SumsError::OutOfMemory
    }
}

/// The sums of a source's whole input, as `sha256sum` writes them: 1 to 1,048,576 lines, each of at most
/// [`MAX_LINE`](crate::MAX_LINE) bytes with its line feed. A line is the digest in 64 lower-case hexadecimal digits, a
/// blank, a second blank or an asterisk, and the name of a file, as it stands where it has no backslash, line feed or
/// carriage return. Otherwise a backslash stands before the digest, and each of these bytes is escaped by one: `\\`,
/// `\n` and `\r`. It is read in pieces, and no further after the first line that is not of this form.
///
/// `ReadFault` comes only where the source's count of faults rose.
pub fn read_sums<S: Source>(alloc: Global, source: &mut S) -> Result<Sums, SumsError>
    ensures sums { ReadsSums (S.left source.old) result }
    ensures cause { HasCauseWhere (IsErrOf result SumsError.ReadFault) (S.faults source.old) (S.faults source.new) }
    ensures same { S.same source.old source.new }
{
    let mut sums = Sums::new(alloc);
    let mut reader = LineReader::new();
    loop {
        match reader.advance(source)? {
            Found::Line => sums.take_line(reader.line())?,
            Found::End if !sums.is_empty() => return Ok(sums),
            _ => return Err(SumsError::BadLine(sums.len() as u64 + 1)),
        }
    }
}
