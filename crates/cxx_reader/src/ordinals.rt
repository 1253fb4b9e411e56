//! The numbers of entities that have no name, counted from 1.
#![tactic(auto, unfolding(cxx_grammar::specs::Ordinals::without_zeros, cxx_grammar::specs::Ordinals::ordinal_digits))]

ghost use Rattle.std.specs.Prelude.{◌≡◌, ◌<◌, ◌≤◌, ◌-◌, length, drop, replicate, slice_index, true, IfOk};
ghost use Rattle.cxx_grammar.specs.Ordinals as spec;

use std::alloc::{AllocError, Global};

/// Returns the digits of the number of an entity, where no digits stand for the first one, 0 for the second, and so on.
/// Zeros may stand in front of them.
pub fn ordinal(alloc: Global, digits: &[u8]) -> Result<Vec<u8>, AllocError>
    ensures value { IfOk result (λ number. number.items ≡ spec.ordinal_digits digits.now) }
{
    if digits.is_empty() {
        return one_more(alloc, b"0");
    }
    let mut number = Vec::new(alloc);
    number.push(b'0')?;
    number.extend_from_slice(digits)?;
    let more = one_more(alloc, &number)?;
    one_more(alloc, &more)
}

// Returns the digits of the number that is one more, as many as there are.
fn one_more(alloc: Global, digits: &[u8]) -> Result<Vec<u8>, AllocError>
    ensures value { IfOk result (λ more. more.items ≡ spec.one_more digits.now) }
{
    let k = before_nines(digits);
    let mut more = Vec::new(alloc);
    if k == 0 {
        more.resize(digits.len(), b'0')?;
        return Ok(more);
    }
    more.extend_from_slice(&digits[..k - 1])?;
    more.push(digits[k - 1] + 1)?;
    more.resize(digits.len(), b'0')?;
    Ok(more)
}

// Returns how many digits stand in front of the nines at the end.
fn before_nines(digits: &[u8]) -> usize
    ensures within { result ≤ length digits.now }
    ensures more { spec.more_of (drop result digits.now) ≡ record {
      carries = true;
      digits = replicate (length digits.now - result) 48;
    } }
    ensures digit { 0 < result → slice_index digits.now (result - 1) < 57 }
{
    let mut k = digits.len();
    while k > 0 && digits[k - 1] >= b'9' {
        k -= 1;
    }
    k
}

/// Returns the digits without the zeros in front.
pub fn without_zeros(digits: &[u8]) -> &[u8]
    ensures value { result.now ≡ spec.without_zeros digits.now }
{
    let mut rest = digits;
    while let [b'0', after @ ..] = rest {
        rest = after;
    }
    rest
}
