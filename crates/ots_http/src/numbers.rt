//! Numbers in decimal digits.
ghost use Rattle.std.specs.Char.{is_ascii_digit, digit_value};
ghost use Rattle.std.specs.Prelude.{◌≡◌, ◌+◌, ◌*◌, ◌<◌, ◌≤◌, ◌^◌, IsTrue, Some, None, min, if◌then◌else◌};
ghost use Rattle.std.specs.Str.Parse.{digits_value};
ghost use Rattle.ots_http.specs.Fields.{is_number};

/// The number that decimal digits spell, or `most + 1` where it is greater than `most`. `None` where
/// there is no digit, or another byte among them.
pub(crate) fn read_number(digits: &[u8], most: u64) -> Option<u64>
    requires { most < 2 ^ 63 }
    ensures { result ≡ (if is_number digits.now then Some (min (digits_value 10 digits.now) (most + 1)) else None) }
{
    if digits.is_empty() {
        return None;
    }
    let mut number = 0;
    for byte in digits {
        if !byte.is_ascii_digit() {
            return None;
        }
        number = with_digit(number, *byte, most);
    }
    Some(number)
}

/// The number with one digit more, or `most + 1` where it is greater than that.
fn with_digit(number: u64, digit: u8, most: u64) -> u64
    requires small { most < 2 ^ 63 }
    requires so_far { number ≤ most + 1 }
    requires digit { IsTrue (is_ascii_digit digit) }
    ensures { result ≡ min (number * 10 + digit_value digit) (most + 1) }
{
    let longer = u128::from(number) * 10 + u128::from(digit - b'0');
    longer.min(u128::from(most + 1)) as u64
}
