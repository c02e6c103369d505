//! Decimal numbers.

ghost use Rattle.std.specs.Prelude.{◌≡◌, pos};
ghost use Rattle.std.specs.Option.{option_map};
ghost use Rattle.text.specs.Numerals.{magnitude as magnitude_of, numeral as numeral_of};

use crate::bytes::all_within;

/// A number may have this many digits.
pub const MAX_DIGITS: usize = 7;

/// The number that decimal digits write.
fn magnitude(digits: &[u8]) -> Option<i32>
    ensures { result ≡ option_map pos (magnitude_of digits.now) }
{
    if digits.is_empty() || digits.len() > MAX_DIGITS || !all_within(digits, b'0', b'9') {
        return None;
    }
    let mut n = 0;
    for d in digits {
        n = n * 10 + i32::from(*d - b'0');
    }
    Some(n)
}

/// The number of an item.
pub fn numeral(item: &[u8]) -> Option<i32>
    ensures { result ≡ numeral_of item.now }
{
    match item {
        [b'-', digits @ ..] => magnitude(digits).map(|n| -n),
        _ => magnitude(item),
    }
}
