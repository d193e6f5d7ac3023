//! Laws of headers and their tables.
ghost use Rattle.std.specs.Prelude.{◌≡◌, ℕ, ◌+◌, ◌<◌, ◌≤◌, ◌↔◌, List, length, IsSome};
ghost use Rattle.ots_headers.specs.Header.{serialized};
ghost use Rattle.ots_headers.specs.HeaderTable.{Table, header_at};
ghost use Rattle.ots_headers.specs.TableRead.{IsTableOf};

use crate::header::Header;

/// Headers with the same bytes are the same header.
pub fn one_header(header: &Header, other: &Header)
    ensures { serialized header.now ≡ serialized other.now → header.now ≡ other.now }
{
    let _ = header.to_bytes();
    let _ = other.to_bytes();
}

/// Bytes are the table of a first height in one way only.
pub fn one_table()
    ensures { (first : ℕ) (b : List ℕ) (t u : Table) → IsTableOf first b t → IsTableOf first b u → t ≡ u }
{}

/// A table has the heights from its first one on, as many as it has headers, and no other.
pub fn heights_of_table()
    ensures { (t : Table) (height : ℕ) → IsSome (header_at t height) ↔ (t.first ≤ height)
        × (height < t.first + length t.headers) }
{}
