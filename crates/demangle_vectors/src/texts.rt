//! What the tests ask of a text.

use std::alloc::{AllocError, Global};
use std::process::Abort;

/// Asserts that the bytes are these.
pub fn assert_bytes(rt: &impl Abort, found: &[u8], expected: &[u8]) {
    assert_eq!(rt; found, expected);
}

/// Asserts that the text is as expected, or that there is none.
pub fn assert_found(rt: &impl Abort, found: Option<&str>, expected: Option<&str>) {
    assert_eq!(rt; found, expected);
}

/// Returns a text of parts, each repeated so many times.
pub fn repeated(alloc: Global, parts: &[(usize, &str)]) -> Result<String, AllocError> {
    let mut text = String::new(alloc);
    for (times, part) in parts {
        for _ in 0..*times {
            text.push_str(part)?;
        }
    }
    Ok(text)
}
