//! Finds the first place of a byte.
ghost use Rattle.std.specs.Prelude.{◌+◌, ◌^◌, ◌<◌, ◌≤◌, length, take, IfSome, IfNone};
ghost use Rattle.text_filter.specs.Progress.{HasNone, IsFirst};

use std::simd::prelude::*;

/// The number of bytes that are compared at once.
const LANES: usize = 32;

/// Returns the first place of the byte `wanted` if it is among the 32 bytes from `at` on, and `None` otherwise. The
/// byte isn't in front of `at`.
#[inline(always)]
fn place_among(bytes: &[u8], at: usize, wanted: u8) -> Option<usize>
    requires inside { at + 32 ≤ length bytes.now }
    requires before { HasNone wanted (take at bytes.now) }
    ensures found { IfSome result (IsFirst wanted bytes.now) }
    ensures none { IfNone result (HasNone wanted (take (at + 32) bytes.now)) }
{
    let found = u8x32::from_slice(&bytes[at..])
        .simd_eq(u8x32::splat(wanted))
        .to_bitmask();
    if found == 0 {
        return None;
    }
    Some(at + found.trailing_zeros() as usize)
}

/// Returns the first place of the byte `wanted`, or `None` if it isn't there. Searches byte by byte from `start` on;
/// the byte isn't in front of `start`.
fn place_from(bytes: &[u8], start: usize, wanted: u8) -> Option<usize>
    requires inside { start ≤ length bytes.now }
    requires before { HasNone wanted (take start bytes.now) }
    ensures found { IfSome result (IsFirst wanted bytes.now) }
    ensures none { IfNone result (HasNone wanted bytes.now) }
{
    for place in start..bytes.len() {
        if bytes[place] == wanted {
            return Some(place);
        }
    }
    None
}

/// Returns the first place of the byte `wanted`, or `None` if it isn't there.
#[inline(always)]
pub(crate) fn first_place(bytes: &[u8], wanted: u8) -> Option<usize>
    ensures found { IfSome result (IsFirst wanted bytes.now) }
    ensures none { IfNone result (HasNone wanted bytes.now) }
{
    let mut at = 0;
    if bytes.len() >= LANES {
        let last = bytes.len() - LANES;
        while at <= last {
            if let Some(place) = place_among(bytes, at, wanted) {
                return Some(place);
            }
            at += LANES;
        }
    }
    place_from(bytes, at, wanted)
}
