//! The header table of a sample.
ghost use Rattle.std.specs.Prelude.{◌≡◌, ◌++◌, ◌≤◌, ◌^◌, ◌-◌, Some, IfOk};
ghost use Rattle.std.specs.Int.{w32, to_be_bytes};
ghost use Rattle.sha2.specs.Sha256.{sha256};
ghost use Rattle.ots_headers.specs.Header.{serialized};
ghost use Rattle.ots_headers.specs.TableRead.{IsTableOf};
ghost use Rattle.ots_sample.specs.Sample.{digest_of, header_of, IsSampleTable};

use ots_base::OutOfMemory;
use ots_headers::{Header, Headers, HeadersError};
use ots_ops::Digest;
use ots_outside::{Failed, Source};
use sha2::{Digest as _, Sha256};
use std::alloc::Global;

/// The time of Bitcoin's first block, in seconds since 1970.
const FIRST_TIME: u32 = 0x495f_ab29;

/// The table by which the proof with `paths` paths and this digest is verified: one header, at half
/// the number of paths, whose Merkle root is what the path of that number makes of the digest.
pub fn headers_of(alloc: Global, paths: u32, digest: &Digest) -> Result<Headers, OutOfMemory>
    requires digest { digest.now ≡ digest_of paths }
    ensures { IfOk result (IsSampleTable paths) }
{
    let height = paths / 2;
    let header = header_with(value_of(height, digest.bytes()));
    table_of(alloc, u64::from(height), &header.to_bytes())
}

/// What the path of this number makes of a digest.
fn value_of(number: u32, digest: &[u8]) -> [u8; 32]
    ensures { result ≡ sha256 (digest.now ++ to_be_bytes w32 number) }
{
    let mut hasher = Sha256::new();
    hasher.update(digest);
    hasher.update(&number.to_be_bytes());
    hasher.finalize()
}

/// The header with this Merkle root.
fn header_with(root: [u8; 32]) -> Header
    ensures { serialized result ≡ header_of root }
{
    Header {
        version: 0,
        previous: [0; 32],
        root,
        time: FIRST_TIME,
        bits: 0,
        nonce: 0,
    }
}

/// The table with one header of these bytes.
fn table_of(alloc: Global, height: u64, header: &[u8; 80]) -> Result<Headers, OutOfMemory>
    requires { height ≤ 2 ^ 63 - 1 }
    ensures { IfOk result (IsTableOf height header.now) }
{
    let mut source = Unread { left: header };
    match Headers::read(alloc, height, &mut source) {
        Ok(headers) => Ok(headers),
        Err(HeadersError::OutOfMemory) => Err(OutOfMemory),
        Err(HeadersError::ReadFault | HeadersError::BadHeaders(_)) => unreachable!(),
    }
}

/// Bytes in memory, read once from their start. No read fails.
#[derive(Drop)]
struct Unread<'a> {
    left: &'a [u8],
}

impl Source for Unread<'_> {
    ghost left = { λ s. Some s.left.now };

    ghost faults = { λ s. 0 };

    ghost same = { λ s t. Unit {0} };

    ghost same_refl = { λ s. tt };

    ghost same_trans = { λ s t u first second. tt };

    fn read(&mut self, buf: &mut [u8]) -> Result<usize, Failed> {
        let count = self.left.len().min(buf.len());
        buf[..count].copy_from_slice(&self.left[..count]);
        self.left = &self.left[count..];
        Ok(count)
    }
}
