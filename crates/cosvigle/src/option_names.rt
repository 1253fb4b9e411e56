//! The names of options, and how they may be shortened.
ghost use Rattle.std.specs.Prelude.{◌≡◌, Option};
ghost use Rattle.cosvigle.specs.Options as spec;

/// The options with a letter whose names begin with the given bytes. Such an option is identified by its letter.
#[derive(Clone, Copy)]
pub enum Found {
    /// No option.
    Nothing,
    /// One option, one or more of whose names begin with the bytes.
    Prefix(u8),
    /// Several options.
    Several,
    /// One option, whose whole name the bytes are.
    Exact(u8),
}

/// Adds an option whose name begins with the bytes to the options found.
fn with_match(found: Found, letter: u8) -> Found
    ensures value { result ≡ spec.with_match found letter }
{
    match found {
        Found::Nothing => Found::Prefix(letter),
        Found::Prefix(first) if first != letter => Found::Several,
        _ => found,
    }
}

/// Adds the option with this name and letter to the options found, if its name begins with the bytes.
fn match_name(found: Found, bytes: &[u8], name: &[u8], letter: u8) -> Found
    ensures value { result ≡ spec.match_name found bytes.now name.now letter }
{
    if !name.starts_with(bytes) {
        return found;
    }
    if name.len() == bytes.len() {
        return Found::Exact(letter);
    }
    with_match(found, letter)
}

/// Returns the options with a letter whose names begin with the bytes.
pub fn find_option(bytes: &[u8]) -> Found
    ensures value { result ≡ spec.find_option bytes.now }
{
    let found = match_name(Found::Nothing, bytes, b"strip-underscore", b'_');
    let found = match_name(found, bytes, b"no-strip-underscores", b'n');
    let found = match_name(found, bytes, b"no-params", b'p');
    let found = match_name(found, bytes, b"no-verbose", b'i');
    let found = match_name(found, bytes, b"no-recurse-limit", b'r');
    let found = match_name(found, bytes, b"no-recursion-limit", b'r');
    let found = match_name(found, bytes, b"recurse-limit", b'R');
    let found = match_name(found, bytes, b"recursion-limit", b'R');
    let found = match_name(found, bytes, b"types", b't');
    let found = match_name(found, bytes, b"format", b's');
    let found = match_name(found, bytes, b"lines", b'l');
    let found = match_name(found, bytes, b"help", b'h');
    match_name(found, bytes, b"version", b'v')
}

/// The options that have a name and no letter.
#[derive(Clone, Copy)]
pub enum LongOption {
    /// `--max-memory`
    MaxMemory,
    /// `--no-return`
    NoReturn,
    /// `--style`
    Style,
}

/// Returns the option without a letter whose name begins with the bytes, of which there is at least one.
pub fn find_long_option(bytes: &[u8]) -> Option<LongOption>
    ensures value { result ≡ spec.find_long_option bytes.now }
{
    if b"max-memory".starts_with(bytes) {
        return Some(LongOption::MaxMemory);
    }
    if b"no-return".starts_with(bytes) {
        return Some(LongOption::NoReturn);
    }
    if b"style".starts_with(bytes) {
        return Some(LongOption::Style);
    }
    None
}
