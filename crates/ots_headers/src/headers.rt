//! A table of block headers by height.
ghost use Rattle.std.specs.Prelude.{◌≡◌, ◌+◌, ◌-◌, ◌^◌, ◌≤◌, ℕ, length, drop, IfOk, IfErr, IsErrOf};
ghost use Rattle.ots_base.specs.Cause.{HasCauseWhere};
ghost use Rattle.ots_headers.specs.Header.{header_in};
ghost use Rattle.ots_headers.specs.HeaderTable.{header_at, table_in, IsTable};
ghost use Rattle.ots_headers.specs.TableRead.{IsTableOf, IsCutError, ReadsTable};

use crate::header::Header;
use ots_base::MAX_HEADER_FILE;
use ots_outside::{ReadAllError, Source, read_all};
use std::alloc::Global;
use std::marker::Model;

/// Why no header table was read.
#[derive(Clone, Copy, Debug, PartialEq, Eq)]
pub enum HeadersError {
    /// A read failed, and the source has counted the fault.
    ReadFault,
    /// The length of the input: 0, or no multiple of 80, or 83,886,081 where it has more than
    /// 83,886,080 bytes.
    BadHeaders(u64),
    /// Memory ran out.
    OutOfMemory,
}

/// The headers of consecutive heights, from a first one on: 1 to 1,048,576 of them.
#[derive(Drop)]
pub struct Headers {
    first: u64,
    bytes: Vec<u8>,
}

impl Model for Headers {
    ghost use Rattle.ots_headers.specs.HeaderTable.{Table, IsTable, table_in};

    ghost Value = { Table };

    ghost view = { λ s. table_in s.first s.bytes.items };

    ghost invariant = { λ s. IsTable (table_in s.first s.bytes.items) };
}

impl Headers {
    /// The table that a source's whole input is, its first header at the height `first`, which is
    /// at most 2^63 - 1. It reads at most 83,886,081 bytes.
    ///
    /// `ReadFault` comes only where the source's count of faults rose, and `BadHeaders` exactly
    /// where the input has no bytes, or no multiple of 80, or more than 83,886,080.
    pub fn read<S: Source>(
        alloc: Global,
        first: u64,
        source: &mut S,
    ) -> Result<Headers, HeadersError>
        requires { first ≤ 2 ^ 63 - 1 }
        ensures input { ReadsTable first (S.left source.old) (S.left source.new) result }
        ensures cause { HasCauseWhere (IsErrOf result HeadersError.ReadFault) (S.faults source.old)
            (S.faults source.new) }
        ensures same { S.same source.old source.new }
    {
        match read_all(alloc, source, MAX_HEADER_FILE) {
            Ok(bytes) => table_of(first, bytes),
            Err(ReadAllError::ReadFault) => Err(HeadersError::ReadFault),
            Err(ReadAllError::TooBig) => Err(HeadersError::BadHeaders(MAX_HEADER_FILE + 1)),
            Err(ReadAllError::OutOfMemory) => Err(HeadersError::OutOfMemory),
        }
    }

    /// The header of this height: `None` exactly where the table does not have it.
    pub fn at(&self, height: u64) -> Option<Header>
        ensures { result ≡ header_at self.now height }
    {
        if height < self.first {
            return None;
        }
        let place = height - self.first;
        if place >= (self.bytes.len() / 80) as u64 {
            return None;
        }
        Some(header_from(&self.bytes, 80 * place as usize))
    }

    /// The height of the first header, at most 2^63 - 1.
    pub fn first(&self) -> u64
        ensures first { result ≡ self.now.first }
        ensures limits { IsTable self.now }
    {
        self.first
    }

    /// How many headers the table has, 1 to 1,048,576.
    pub fn count(&self) -> u64
        ensures count { result ≡ length self.now.headers }
        ensures limits { IsTable self.now }
    {
        (self.bytes.len() / 80) as u64
    }
}

/// The table that these bytes are.
fn table_of(first: u64, bytes: Vec<u8>) -> Result<Headers, HeadersError>
    requires first { first ≤ 2 ^ 63 - 1 }
    requires length { length bytes.items ≤ MAX_HEADER_FILE }
    ensures ok { IfOk result (IsTableOf first bytes.items) }
    ensures err { IfErr result (IsCutError (length bytes.items)) }
{
    check_length(&bytes)?;
    Ok(Headers { first, bytes })
}

/// Whether the length is that of whole headers, and at least one.
fn check_length(bytes: &[u8]) -> Result<(), HeadersError>
    requires { length bytes.now ≤ MAX_HEADER_FILE }
    ensures ok { IfOk result (λ _. (first : ℕ) → first ≤ 2 ^ 63 - 1
        → IsTableOf first bytes.now (table_in first bytes.now)) }
    ensures err { IfErr result (IsCutError (length bytes.now)) }
{
    if bytes.is_empty() || bytes.len() % 80 != 0 {
        return Err(HeadersError::BadHeaders(bytes.len() as u64));
    }
    Ok(())
}

/// The header whose first byte stands at this place.
fn header_from(bytes: &[u8], place: usize) -> Header
    requires { place + 80 ≤ length bytes.now }
    ensures { result ≡ header_in (drop place bytes.now) }
{
    let mut header = [0; 80];
    header.copy_from_slice(&bytes[place..place + 80]);
    Header::from_bytes(&header)
}
