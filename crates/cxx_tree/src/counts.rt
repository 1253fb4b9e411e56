//! What is known of a node without walking its tree.
//!
//! Work and template parameters are counted up to a limit: what would be more is `MOST`.
#![tactic(auto, unfolding(crate::specs::Counts::Row, crate::specs::Counts::Tallied, crate::specs::Counts::AreExact))]

ghost use Rattle.std.specs.Prelude.{◌≡◌, ℕ, ◌+◌, ◌<◌, ◌≤◌, ◌*◌, max, min, Bool};
ghost use Rattle.cxx_tree.specs.Measure as spec;
ghost use Rattle.cxx_tree.specs.Counts.{Row, Tallied, AreExact};

/// The number that stands for itself and for all above it.
pub const MOST: u32 = 1 << 21;

/// The greatest height of a tree.
pub const MAX_HEIGHT: u32 = 1024;

/// The most work of printing a tree.
pub const MAX_WORK: u32 = 1 << 20;

/// The counts of trees that stand in a row, or of one tree.
#[derive(Clone, Copy)]
pub struct Measure {
    pub height: u32,
    pub elements: Option<u32>,
    pub each: u32,
    pub packs: u32,
    pub params: u32,
}

/// Returns the counts of no tree.
#[inline(always)]
pub fn nothing() -> Measure
    ensures counts { Row result spec.nothing }
{
    Measure {
        height: 0,
        elements: None,
        each: 0,
        packs: 0,
        params: 0,
    }
}

/// Returns a number, or `MOST` if it is greater.
#[inline(always)]
pub fn at_most(n: u64) -> u32
    ensures value { result ≡ min 2097152 n }
{
    if n > MOST as u64 { MOST } else { n as u32 }
}

/// Returns the counts of two rows of trees, one after the other.
#[inline(always)]
pub fn join(a: Measure, b: Measure) -> Measure
    ensures counts { (m n : spec.Measure) → Row a m → Row b n → Row result (spec.join m n) }
{
    Measure {
        height: if a.height > b.height {
            a.height
        } else {
            b.height
        },
        elements: match a.elements {
            Some(n) => Some(n),
            None => b.elements,
        },
        each: at_most(a.each as u64 + b.each as u64),
        packs: at_most(a.packs as u64 + b.packs as u64),
        params: at_most(a.params as u64 + b.params as u64),
    }
}

/// Returns the counts of a tree with these children, whose own work is given, or `None` if it isn't within the limits.
#[inline(always)]
pub fn around(own: usize, m: Measure) -> Option<Measure>
    ensures counts { (n : spec.Measure) → Row m n → Tallied result (spec.around own n) }
{
    if m.height >= MAX_HEIGHT {
        return None;
    }
    if own > MAX_WORK as usize {
        return None;
    }
    let children = m.each as u64 + m.packs as u64;
    if children > MAX_WORK as u64 - own as u64 {
        return None;
    }
    Some(Measure {
        height: m.height + 1,
        elements: m.elements,
        each: own as u32 + m.each,
        packs: m.packs,
        params: counted(m.params),
    })
}

// A node that contains template parameters is one more.
#[inline(always)]
fn counted(params: u32) -> u32
    ensures value { result ≡ min 2097152 (spec.counted params) }
{
    at_most(params as u64 + (params != 0) as u64)
}

/// Returns the counts of a template parameter.
#[inline(always)]
pub fn param() -> Option<Measure>
    ensures counts { Tallied result spec.param_measure }
{
    Some(Measure {
        height: 1,
        elements: None,
        each: 1,
        packs: 0,
        params: 1,
    })
}

/// Returns the counts of a pattern that is repeated for each element of its packs.
#[inline(always)]
pub fn repeated(m: Measure) -> Measure
    ensures counts { (n : spec.Measure) → Row m n → AreExact n → Row result (spec.repeated n) }
{
    Measure {
        height: m.height,
        elements: None,
        each: match m.elements {
            None => at_most(m.each as u64 + m.packs as u64),
            Some(0) => 0,
            Some(n) => at_most(n as u64 * m.each as u64 + m.packs as u64),
        },
        packs: 0,
        params: m.params,
    }
}

/// Returns the counts of a pack of `n` arguments, or `None` if it isn't within the limits.
#[inline(always)]
pub fn packed(n: u32, m: Measure) -> Option<Measure>
    ensures counts { (k : spec.Measure) → Row m k → Tallied result (spec.packed n k) }
{
    let packs = m.each as u64 + m.packs as u64;
    if m.height >= MAX_HEIGHT || packs >= MAX_WORK as u64 {
        return None;
    }
    Some(Measure {
        height: m.height + 1,
        elements: Some(n),
        each: 1,
        packs: packs as u32,
        params: counted(m.params),
    })
}
