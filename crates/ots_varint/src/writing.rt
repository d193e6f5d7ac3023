//! Writing a number.
ghost use Rattle.std.specs.Prelude.{◌≡◌, ◌≤◌, ◌++◌, length, drop};
ghost use Rattle.ots_varint.specs.Varuint.{varuint, varbytes};

/// The most bytes of a number's spelling: seven bits a byte hold the 64 bits of any number in ten.
pub const MAX_SPELLED_NUMBER: usize = 10;

/// Writes the spelling of the number at the start of the bytes, leaves the others as they were, and
/// answers its length, 1 to `MAX_SPELLED_NUMBER`.
pub fn put_varuint(n: u64, out: &mut [u8; MAX_SPELLED_NUMBER]) -> usize
    ensures length { result ≡ length (varuint n) }
    ensures spelled { out.new ≡ varuint n ++ drop (length (varuint n)) out.old }
{
    let mut rest = n;
    let mut at = 0;
    while rest >= 128 {
        out[at] = 128 + (rest % 128) as u8;
        rest /= 128;
        at += 1;
    }
    out[at] = rest as u8;
    at + 1
}

/// How many bytes spell the number: 1 to `MAX_SPELLED_NUMBER`.
pub fn varuint_length(n: u64) -> usize
    ensures { result ≡ length (varuint n) }
{
    let mut rest = n;
    let mut length = 1;
    while rest >= 128 {
        rest /= 128;
        length += 1;
    }
    length
}

/// Writes the spelling of the number at the start of a slice that has room for it, leaves the bytes
/// after it as they were, and answers its length.
pub fn put_number(n: u64, out: &mut [u8]) -> usize
    requires { length (varuint n) ≤ length out.old }
    ensures length { result ≡ length (varuint n) }
    ensures spelled { out.new ≡ varuint n ++ drop (length (varuint n)) out.old }
{
    let mut spelled = [0; MAX_SPELLED_NUMBER];
    let used = put_varuint(n, &mut spelled);
    out[..used].copy_from_slice(&spelled[..used]);
    used
}

/// Writes the bytes after their number at the start of a slice that has room for both, leaves the
/// bytes after them as they were, and answers how many were written.
#[tactic(auto, using(crate::proofs::Written::varbytes_length))]
pub fn put_varbytes(bytes: &[u8], out: &mut [u8]) -> usize
    requires { length (varbytes bytes.now) ≤ length out.old }
    ensures length { result ≡ length (varbytes bytes.now) }
    ensures spelled { out.new ≡ varbytes bytes.now ++ drop (length (varbytes bytes.now)) out.old }
{
    let start = put_number(bytes.len() as u64, out);
    let end = start + bytes.len();
    out[start..end].copy_from_slice(bytes);
    end
}
