//! The target of a header, from its compact form.
ghost use Rattle.std.specs.Prelude.{◌≡◌, ◌+◌, ◌-◌, ◌*◌, ◌^◌, ◌<◌, ◌≤◌, ◌++◌, length, replicate};
ghost use Rattle.ots_chain.specs.Target.{IsTargetOf, compact};

/// The target that compact bits stand for, as a number of 256 bits, its high byte first: 23 bits of
/// digits, times 256 to the power of the first byte less 3, rounded down.
///
/// `None` exactly where the sign's bit is set, or the number is 0 or has more than 256 bits. Source:
/// `arith_uint256::SetCompact` and `CheckProofOfWork` of Bitcoin Core, which has a greatest target
/// beside.
pub fn target(bits: u32) -> Option<[u8; 32]>
    ensures { IsTargetOf bits result }
{
    let (digits, zeros) = scaled(bits);
    if (bits >> 23) % 2 == 1 || digits == 0 {
        return None;
    }
    let used = bytes_used(digits);
    if zeros + used > 32 {
        return None;
    }
    Some(number_of(&digits.to_be_bytes()[4 - used..], zeros))
}

/// The number of these bytes times 256 to the power `zeros`.
fn number_of(bytes: &[u8], zeros: usize) -> [u8; 32]
    requires { length bytes.now + zeros ≤ 32 }
    ensures { result ≡ replicate (32 - zeros - length bytes.now) 0 ++ bytes.now ++ replicate zeros 0 }
{
    let mut number = [0; 32];
    let end = 32 - zeros;
    number[end - bytes.len()..end].copy_from_slice(bytes);
    number
}

/// The digits, and the power of 256 that they are multiplied by.
fn scaled(bits: u32) -> (u32, usize)
    ensures value { compact bits ≡ result.0 * 256 ^ result.1 }
    ensures digits { result.0 < 2 ^ 23 }
    ensures zeros { result.1 ≤ 252 }
{
    let exponent = bits >> 24;
    let digits = bits % 0x80_0000;
    if exponent < 3 {
        (digits / 256u32.pow(3 - exponent), 0)
    } else {
        (digits, exponent as usize - 3)
    }
}

/// How many bytes the digits have.
fn bytes_used(digits: u32) -> usize
    requires some { 0 < digits }
    requires most { digits < 2 ^ 23 }
    ensures range { result ≤ 3 }
    ensures below { digits < 256 ^ result }
    ensures least { 256 ^ result ≤ 256 * digits }
{
    if digits >= 0x1_0000 {
        3
    } else if digits >= 0x100 {
        2
    } else {
        1
    }
}
