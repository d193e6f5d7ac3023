//! The lines of a file of digests.
ghost use Rattle.ots_calendar_inputs.specs.DigestLines.{digest_form};
ghost use Rattle.ots_calendar_inputs.specs.declared.lines.TheConstants.{MAX_LINE, MAX_LINES};
ghost use Rattle.ots_calendar_inputs.specs.Digests.{IsDigest};

use ots_inputs::Line;
use ots_outside::{Leaf, MAX_DIGEST};

/// The most lines: as many tickets wait at a time. The limit is this project's.
pub const MAX_LINES: usize = 65_536;

/// The most bytes of a line: two digits for each byte of the longest digest, and the line feed.
pub const MAX_LINE: usize = 2 * MAX_DIGEST + 1;

/// A file of digests, as lines: two hexadecimal digits, of either case, for each byte of a digest.
pub struct Digests;

impl Line for Digests {
    type Item = Leaf;

    ghost is_item = { IsDigest };

    ghost MAX_LINE = { MAX_LINE };

    ghost MAX_LINES = { MAX_LINES };

    const MAX_LINE: usize = MAX_LINE;

    const MAX_LINES: usize = MAX_LINES;

    fn read(line: &[u8]) -> Option<Leaf> {
        let mut room = [0; MAX_DIGEST];
        let bytes = &mut room[..line.len() / 2];
        match hex::decode_to_slice(line, bytes) {
            Ok(()) => Leaf::new(bytes).ok(),
            Err(_) => None,
        }
    }

    ghost form = { digest_form };
}
