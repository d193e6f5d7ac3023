//! A block header.
ghost use Rattle.std.specs.Prelude.{◌≡◌, ◌+◌, ◌++◌, ◌≤◌, length, take, drop};
ghost use Rattle.ots_headers.specs.Header.{serialized, header_in, number_at, hash_at};

/// The header of a block of Bitcoin (`CBlockHeader` of Bitcoin Core).
#[derive(Clone, Copy, Debug, PartialEq, Eq)]
pub struct Header {
    /// The version of the block's rules.
    pub version: u32,
    /// The hash of the previous block, all zeros in the first block.
    pub previous: [u8; 32],
    /// The root of the Merkle tree of the block's transactions.
    pub root: [u8; 32],
    /// The time that the block names, in seconds since 1970.
    pub time: u32,
    /// The target that the block's hash must meet, in its compact form.
    pub bits: u32,
    /// The number that was varied until the hash met the target.
    pub nonce: u32,
}

impl Header {
    /// The header that these bytes are. `to_bytes` gives the bytes back.
    pub fn from_bytes(bytes: &[u8; 80]) -> Header
        ensures fields { result ≡ header_in bytes.now }
        ensures back { serialized result ≡ bytes.now }
    {
        Header {
            version: number_at(bytes, 0),
            previous: hash_at(bytes, 4),
            root: hash_at(bytes, 36),
            time: number_at(bytes, 68),
            bits: number_at(bytes, 72),
            nonce: number_at(bytes, 76),
        }
    }

    /// The bytes of this header: its fields in order, each number with its low byte first.
    /// `from_bytes` gives the header back.
    pub fn to_bytes(&self) -> [u8; 80]
        ensures bytes { result ≡ serialized self.now }
        ensures back { header_in result ≡ self.now }
    {
        let mut bytes = [0; 80];
        put(&mut bytes, 0, &self.version.to_le_bytes());
        put(&mut bytes, 4, &self.previous);
        put(&mut bytes, 36, &self.root);
        put(&mut bytes, 68, &self.time.to_le_bytes());
        put(&mut bytes, 72, &self.bits.to_le_bytes());
        put(&mut bytes, 76, &self.nonce.to_le_bytes());
        bytes
    }
}

/// The number whose low byte stands at this place.
fn number_at(bytes: &[u8; 80], place: usize) -> u32
    requires { place + 4 ≤ 80 }
    ensures { result ≡ number_at place bytes.now }
{
    u32::from_le_bytes([
        bytes[place],
        bytes[place + 1],
        bytes[place + 2],
        bytes[place + 3],
    ])
}

/// The hash whose first byte stands at this place.
fn hash_at(bytes: &[u8; 80], place: usize) -> [u8; 32]
    requires { place + 32 ≤ 80 }
    ensures { result ≡ hash_at place bytes.now }
{
    let mut hash = [0; 32];
    hash.copy_from_slice(&bytes[place..place + 32]);
    hash
}

/// Writes a field after the bytes before this place.
fn put(bytes: &mut [u8; 80], place: usize, field: &[u8])
    requires { place + length field.now ≤ 80 }
    ensures { take (place + length field.now) bytes.new ≡ take place bytes.old ++ field.now }
{
    bytes[place..place + field.len()].copy_from_slice(field);
}
