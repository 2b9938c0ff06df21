ghost use Rattle.std.specs.Prelude.{◌≡◌, ◌≤◌, length};
ghost use Rattle.lines.specs.Numeral.{decimal, numeral};

// The most digits that a number may have.
const MOST_DIGITS: usize = 5;

/// The value of 1 to 5 digits, leading zeros among them, of at most 65,535; none of anything else.
pub fn number(digits: &[u8]) -> Option<u16>
    ensures { result ≡ numeral digits.now }
{
    if digits.is_empty() || digits.len() > MOST_DIGITS {
        return None;
    }
    let value = decimal(digits)?;
    u16::try_from(value).ok()
}

// The value of at most 5 digits; none where a byte is no digit.
fn decimal(digits: &[u8]) -> Option<u32>
    requires { length digits.now ≤ 5 }
    ensures { result ≡ decimal 0 digits.now }
{
    let mut value = 0;
    for byte in digits {
        value = value * 10 + char::from(*byte).to_digit(10)?;
    }
    Some(value)
}
