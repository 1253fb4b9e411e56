//! The text of a literal of a floating type (Itanium C++ ABI 5.1.6.1).
#![tactic(auto, unfolding(cxx_grammar::specs::Floats::are_hex, cxx_grammar::specs::Floats::significant_len, cxx_grammar::specs::Floats::float_text))]

ghost use Rattle.std.specs.Prelude.{◌≡◌, ◌+◌, ◌<◌, ◌≤◌, ◌++◌, [], length, true, OnOk, IfOk};
ghost use Rattle.cxx_grammar.specs.Floats as spec;

use cxx_grammar::cases::FloatFormat;
use cxx_tree::push_number;
use std::alloc::{AllocError, Global};

/// Returns how many digits a literal has.
pub fn float_len(format: FloatFormat) -> usize
    ensures value { result ≡ spec.float_len format }
{
    match format {
        FloatFormat::Single => 8,
        FloatFormat::Double => 16,
        FloatFormat::Extended => 20,
    }
}

/// Returns the type of a literal, as it stands in front of its digits in GNU's style.
pub fn float_type(format: FloatFormat) -> &'static [u8]
    ensures value { result.now ≡ spec.float_type format }
{
    match format {
        FloatFormat::Single => b"(float)[",
        FloatFormat::Double => b"(double)[",
        FloatFormat::Extended => b"(long double)[",
    }
}

/// Returns whether all of these bytes are digits of base 16.
pub fn are_hex(digits: &[u8]) -> bool
    ensures value { result ≡ spec.are_hex digits.now }
{
    match digits {
        [] => true,
        [b'0'..=b'9' | b'a'..=b'f', rest @ ..] => are_hex(rest),
        _ => false,
    }
}

/// Returns the text of a literal in LLVM's style, by its digits.
pub fn float_text(alloc: Global, format: FloatFormat, digits: &[u8]) -> Result<Vec<u8>, AllocError>
    requires hex { spec.are_hex digits.now ≡ true }
    ensures value { IfOk result (λ text. text.items ≡ spec.float_text format digits.now) }
{
    let mut text = Vec::new(alloc);
    match format {
        FloatFormat::Single => {
            push_single(&mut text, digits)?;
            text.push(b'f')?;
        }
        FloatFormat::Double => push_double(&mut text, digits)?,
        FloatFormat::Extended => {
            push_extended(&mut text, digits)?;
            text.push(b'L')?;
        }
    }
    Ok(text)
}

// The value of a digit of base 16.
fn hex_value(digit: u8) -> u64
    requires hex { spec.is_hex digit ≡ true }
    ensures value { result ≡ spec.hex_value digit }
    ensures within { result ≤ 15 }
{
    if digit <= b'9' {
        return (digit - b'0') as u64;
    }
    (digit - b'a' + 10) as u64
}

// The number that three digits write.
#[tactic(auto, unfolding(cxx_grammar::specs::Floats::hex_three))]
fn hex_three(a: u8, b: u8, c: u8) -> u64
    requires a { spec.is_hex a ≡ true }
    requires b { spec.is_hex b ≡ true }
    requires c { spec.is_hex c ≡ true }
    ensures value { result ≡ spec.hex_three a b c }
    ensures within { result ≤ 4095 }
{
    256 * hex_value(a) + 16 * hex_value(b) + hex_value(c)
}

// The number that four digits write.
fn sixteen_bits(a: u8, b: u8, c: u8, d: u8) -> u64
    requires a { spec.is_hex a ≡ true }
    requires b { spec.is_hex b ≡ true }
    requires c { spec.is_hex c ≡ true }
    requires d { spec.is_hex d ≡ true }
    ensures value { result ≡ spec.sixteen_bits a b c d }
    ensures within { result ≤ 65535 }
{
    16 * hex_three(a, b, c) + hex_value(d)
}

// The last digit of a number of base 16.
fn hex_digit(number: u64) -> u8
    requires within { number ≤ 15 }
    ensures value { result ≡ spec.hex_digit number }
{
    if number <= 9 {
        return b'0' + number as u8;
    }
    b'a' + (number - 10) as u8
}

// The six digits of a number of base 16.
fn six_digits(number: u64) -> [u8; 6]
    ensures value { result ≡ spec.six_digits number }
{
    [
        hex_digit(number / 1048576 % 16),
        hex_digit(number / 65536 % 16),
        hex_digit(number / 4096 % 16),
        hex_digit(number / 256 % 16),
        hex_digit(number / 16 % 16),
        hex_digit(number % 16),
    ]
}

// How many digits there are without the zeros at the end.
fn significant_len(digits: &[u8]) -> usize
    ensures value { result ≡ spec.significant_len digits.now }
    ensures within { result ≤ length digits.now }
{
    match digits {
        [] => 0,
        [digit, rest @ ..] => {
            let len = significant_len(rest);
            if len == 0 && *digit == b'0' {
                return 0;
            }
            len + 1
        }
    }
}

// Whether all digits are zeros.
fn are_zeros(digits: &[u8]) -> bool
    ensures value { result ≡ spec.are_zeros digits.now }
{
    significant_len(digits) == 0
}

// Appends a point and the digits behind it, without the zeros at the end.
fn push_fraction(text: &mut Vec<u8>, digits: &[u8]) -> Result<(), AllocError>
    ensures value { OnOk result (text.new.items ≡ text.old.items ++ spec.fraction_text digits.now) }
{
    let len = significant_len(digits);
    if len == 0 {
        return Ok(());
    }
    text.push(b'.')?;
    text.extend_from_slice(&digits[..len])
}

// Appends `p`, and an exponent that is so much too great.
fn push_exponent(text: &mut Vec<u8>, exponent: u64, bias: u64) -> Result<(), AllocError>
    ensures value { OnOk result (text.new.items ≡ text.old.items ++ spec.exponent_text exponent bias) }
{
    if bias <= exponent {
        text.extend_from_slice(b"p+")?;
        return push_number(text, (exponent - bias) as u128);
    }
    text.extend_from_slice(b"p-")?;
    push_number(text, (bias - exponent) as u128)
}

// Appends a number: a digit, those behind the point, and the exponent.
fn push_hex(
    text: &mut Vec<u8>,
    lead: u8,
    fraction: &[u8],
    exponent: u64,
    bias: u64,
) -> Result<(), AllocError>
    ensures value { OnOk result (text.new.items ≡ text.old.items
        ++ spec.number_text lead fraction.now exponent bias) }
{
    text.extend_from_slice(b"0x")?;
    text.push(lead)?;
    push_fraction(text, fraction)?;
    push_exponent(text, exponent, bias)
}

// Appends what has the greatest exponent.
fn push_special(text: &mut Vec<u8>, is_infinite: bool) -> Result<(), AllocError>
    ensures value { OnOk result (text.new.items ≡ text.old.items ++ spec.special_text is_infinite) }
{
    if is_infinite {
        return text.extend_from_slice(b"inf");
    }
    text.extend_from_slice(b"nan")
}

// Appends the sign of a negative number.
fn push_sign(text: &mut Vec<u8>, is_negative: bool) -> Result<(), AllocError>
    ensures value { OnOk result (text.new.items ≡ text.old.items ++ spec.signed is_negative []) }
{
    if is_negative {
        return text.extend_from_slice(b"-");
    }
    Ok(())
}

// Appends a double without its sign.
fn push_double_size(text: &mut Vec<u8>, exponent: u64, fraction: &[u8]) -> Result<(), AllocError>
    ensures value { OnOk result (text.new.items ≡ text.old.items ++ spec.double_size exponent fraction.now) }
{
    if exponent == 2047 {
        return push_special(text, are_zeros(fraction));
    }
    if exponent != 0 {
        return push_hex(text, b'1', fraction, exponent, 1023);
    }
    if are_zeros(fraction) {
        return text.extend_from_slice(b"0x0p+0");
    }
    push_hex(text, b'0', fraction, 1, 1023)
}

// Appends a double.
fn push_double(text: &mut Vec<u8>, digits: &[u8]) -> Result<(), AllocError>
    requires hex { spec.are_hex digits.now ≡ true }
    ensures value { OnOk result (text.new.items ≡ text.old.items ++ spec.double_text digits.now) }
{
    match digits {
        [a, b, c, fraction @ ..] => {
            let front = hex_three(*a, *b, *c);
            push_sign(text, front >= 2048)?;
            push_double_size(text, front % 2048, fraction)
        }
        _ => Ok(()),
    }
}

// Appends an extended number without its sign.
fn push_extended_size(
    text: &mut Vec<u8>,
    exponent: u64,
    lead: u8,
    fraction: &[u8],
) -> Result<(), AllocError>
    ensures value { OnOk result (text.new.items ≡ text.old.items
        ++ spec.extended_size exponent lead fraction.now) }
{
    if exponent == 32767 {
        let is_whole = lead == b'0' || lead == b'8';
        return push_special(text, is_whole && are_zeros(fraction));
    }
    if exponent != 0 {
        return push_hex(text, lead, fraction, exponent, 16386);
    }
    if lead == b'0' && are_zeros(fraction) {
        return text.extend_from_slice(b"0x0p+0");
    }
    push_hex(text, lead, fraction, 1, 16386)
}

// Appends an extended number without its sign, by the digits behind its exponent.
fn push_extended_behind(
    text: &mut Vec<u8>,
    exponent: u64,
    mantissa: &[u8],
) -> Result<(), AllocError>
    ensures value { OnOk result (text.new.items ≡ text.old.items ++ spec.extended_behind exponent mantissa.now) }
{
    match mantissa {
        [lead, fraction @ ..] => push_extended_size(text, exponent, *lead, fraction),
        [] => Ok(()),
    }
}

// Appends an extended number.
fn push_extended(text: &mut Vec<u8>, digits: &[u8]) -> Result<(), AllocError>
    requires hex { spec.are_hex digits.now ≡ true }
    ensures value { OnOk result (text.new.items ≡ text.old.items ++ spec.extended_text digits.now) }
{
    match digits {
        [a, b, c, d, mantissa @ ..] => {
            let front = sixteen_bits(*a, *b, *c, *d);
            push_sign(text, front >= 32768)?;
            push_extended_behind(text, front % 32768, mantissa)
        }
        _ => Ok(()),
    }
}

// Appends a single without an exponent, and without its sign. It is doubled at most so many times.
#[tactic(auto, unfolding(cxx_grammar::specs::Floats::doubled_text))]
fn push_doubled(text: &mut Vec<u8>, times: usize, bias: u64, number: u64) -> Result<(), AllocError>
    requires number { number < 16777216 }
    requires bias { bias + times ≤ 1024 }
    ensures value { OnOk result (text.new.items ≡ text.old.items ++ spec.doubled_text times bias number) }
{
    if times == 0 {
        return Ok(());
    }
    if number >= 8388608 {
        return push_hex(text, b'1', &six_digits(2 * (number - 8388608)), 0, bias);
    }
    push_doubled(text, times - 1, bias + 1, 2 * number)
}

// Appends a single without its sign.
#[tactic(auto, unfolding(cxx_grammar::specs::Floats::single_size))]
fn push_single_size(text: &mut Vec<u8>, exponent: u64, number: u64) -> Result<(), AllocError>
    requires number { number < 8388608 }
    ensures value { OnOk result (text.new.items ≡ text.old.items ++ spec.single_size exponent number) }
{
    if exponent == 255 {
        return push_special(text, number == 0);
    }
    if exponent != 0 {
        return push_hex(text, b'1', &six_digits(2 * number), exponent, 127);
    }
    if number == 0 {
        return text.extend_from_slice(b"0x0p+0");
    }
    push_doubled(text, 24, 126, number)
}

// The bits of the last three digits of a single.
fn last_bits(digits: &[u8]) -> u64
    requires hex { spec.are_hex digits.now ≡ true }
    ensures value { result ≡ spec.last_bits digits.now }
    ensures within { result ≤ 4095 }
{
    match digits {
        &[f, g, h] => hex_three(f, g, h),
        _ => 0,
    }
}

// The bits behind the point of a single: three, and those of five digits.
#[tactic(auto, unfolding(cxx_grammar::specs::Floats::single_fraction, cxx_grammar::specs::Floats::are_hex))]
fn single_fraction(front: u64, digits: &[u8]) -> u64
    requires front { front ≤ 7 }
    requires hex { spec.are_hex digits.now ≡ true }
    ensures value { result ≡ spec.single_fraction front digits.now }
    ensures within { result < 8388608 }
{
    match digits {
        [d, e, last @ ..] => {
            1048576 * front + 65536 * hex_value(*d) + 4096 * hex_value(*e) + last_bits(last)
        }
        _ => 0,
    }
}

// Appends a single.
fn push_single(text: &mut Vec<u8>, digits: &[u8]) -> Result<(), AllocError>
    requires hex { spec.are_hex digits.now ≡ true }
    ensures value { OnOk result (text.new.items ≡ text.old.items ++ spec.single_text digits.now) }
{
    match digits {
        [a, b, c, last @ ..] => {
            let front = hex_three(*a, *b, *c);
            let fraction = single_fraction(front % 8, last);
            push_sign(text, front >= 2048)?;
            push_single_size(text, front / 8 % 256, fraction)
        }
        _ => Ok(()),
    }
}
