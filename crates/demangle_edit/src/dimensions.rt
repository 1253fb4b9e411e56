//! The digits of numbers, and of the dimensions of arrays.
ghost use Rattle.std.specs.Prelude.{◌≡◌, ◌≤◌, length, decimal};
ghost use Rattle.demangle_edit.specs.Types.{dimension_digits};

/// The most decimal digits that a number below 2^64 has.
pub const MOST_DIGITS: usize = 20;

/// Writes the digits of a number without leading zeros at the end of these bytes, and returns them.
pub fn number_bytes(spare: &mut [u8], number: u64) -> &[u8]
    requires capacity { MOST_DIGITS ≤ length spare.old }
    ensures value { result.now ≡ decimal number }
{
    let mut left = number;
    let mut at = spare.len();
    while left >= 10 {
        at -= 1;
        spare[at] = b'0' + (left % 10) as u8;
        left /= 10;
    }
    at -= 1;
    spare[at] = b'0' + left as u8;
    &spare[at..]
}

/// Writes the digits of a dimension at the end of these bytes, and returns them. Returns no digits for an unknown
/// dimension.
pub fn dimension_bytes(spare: &mut [u8], dimension: Option<u64>) -> &[u8]
    requires capacity { MOST_DIGITS ≤ length spare.old }
    ensures value { result.now ≡ dimension_digits dimension }
{
    match dimension {
        None => b"",
        Some(number) => number_bytes(spare, number),
    }
}
