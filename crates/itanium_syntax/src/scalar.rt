//! Readers of single items: numbers and source names (Itanium C++ ABI 5.1.2), the codes of operators (5.1.3), and call
//! offsets (5.1.4).
ghost use Rattle.std.specs.Prelude.{◌≡◌, ◌<◌, ◌≤◌, IfSome, option_map, length, drop};
ghost use Rattle.itanium_syntax.specs.Offsets as spec;

pub use crate::expressions::expression_refused;
use crate::offsets::offset_here;
pub use crate::offsets::{CallOffset, Signed};
pub use crate::operators::{operator_arity, operator_text};
pub use abi_scalars::scalar::{number, sequence_id, source_name};

/// Reads `<call-offset> ::= h <number> _ | v <number> _ <number> _`, where each number may have `n` in front for a
/// minus. Returns the offset and the place after its last `_`, in bytes. Zero is never negative. Returns `None` if no
/// call offset is at `place`, or a number is past 2^64 - 1. (Itanium C++ ABI 5.1.4, "Other Special Functions and
/// Entities")
#[tactic(auto, using(abi_scalars::proofs::Digits::dropped))]
pub fn call_offset(input: &[u8], place: usize) -> Option<(CallOffset, usize)>
    requires place { place ≤ length input.now }
    ensures value { option_map (λ found. (found.0, drop found.1 input.now)) result
        ≡ spec.call_offset (drop place input.now) }
    ensures after { IfSome result (λ found. place < found.1) }
    ensures within { IfSome result (λ found. found.1 ≤ length input.now) }
{
    let (offset, rest) = offset_here(&input[place..])?;
    Some((offset, input.len() - rest.len()))
}
