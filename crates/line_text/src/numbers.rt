//! Decimal numbers.
ghost use Rattle.std.specs.Prelude.{◌≡◌, decimal};
ghost use Rattle.line_text.specs.Numbers.{number_of};

use arrayvec::ArrayVec;
use itoa::Buffer;

/// The number that a text of 1 to 18 decimal digits is. Leading zeros are allowed.
pub fn read_number(text: &[u8]) -> Option<u64>
    ensures { result ≡ number_of text.now }
{
    if text.is_empty() || text.len() > 18 {
        return None;
    }
    let mut value: u64 = 0;
    for byte in text {
        if !byte.is_ascii_digit() {
            return None;
        }
        value = value * 10 + u64::from(*byte - b'0');
    }
    Some(value)
}

/// The decimal digits of a number, without leading zeros.
pub fn put_number(n: u64) -> ArrayVec<u8, 20>
    ensures { result.items ≡ decimal n }
{
    let mut buffer = Buffer::new();
    let mut digits = ArrayVec::new();
    let _ = digits.try_extend_from_slice(buffer.format(n).as_bytes());
    digits
}
