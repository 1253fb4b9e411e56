//! Reads what the arguments ask.
ghost use Rattle.std.specs.Prelude.{◌≡◌, ◌≤◌, length, IfOk};
ghost use Rattle.cosvigle.specs.Options as spec;
ghost use Rattle.cosvigle.specs.Options.{reading, texts, AsksFor, IsRequest};

use super::option_names::{Found, LongOption, find_long_option, find_option};
use cosvigle_engine::{Mode, Printing, Style};
use std::alloc::{AllocError, Global};

/// The bytes of memory for each node that may be kept to read a symbol, with all that may be kept beside it.
const NODE_MEMORY: usize = 256;

/// The choices that options make.
#[derive(Clone, Copy)]
pub struct Flags {
    /// Whether one more underscore stands in front of each symbol.
    pub strip: bool,
    /// Whether each line of standard input is a symbol, rather than a text with symbols in it.
    pub lines: bool,
    /// Whether no symbol is read, and all stays as it is.
    pub pass_through: bool,
    /// Whether what is no symbol is read as a type.
    pub types: bool,
    /// Whether names are printed, without parameters.
    pub name: bool,
    /// Whether the return type of a declaration is left out.
    pub no_return: bool,
    /// The style of declarations.
    pub style: Style,
    /// Whether GNU's style has the abbreviations of `std` as they are.
    pub brief: bool,
    /// The bytes of memory that may be taken to read a symbol, if a number is given.
    pub memory: Option<usize>,
}

/// Returns how much of a declaration is printed.
fn mode_of(flags: Flags) -> Mode
    ensures value { result ≡ spec.mode_of flags }
{
    if flags.name {
        return Mode::Name;
    }
    if flags.no_return {
        return Mode::Signature;
    }
    Mode::Declaration
}

/// Returns the style in which declarations are printed.
fn style_of(flags: Flags) -> Style
    ensures value { result ≡ spec.style_of flags }
{
    match flags.style {
        Style::Gnu if flags.brief => Style::GnuShort,
        style => style,
    }
}

/// Returns how many nodes may be kept to read a symbol in so many bytes of memory.
fn limit_of(memory: Option<usize>) -> Option<usize>
    ensures value { result ≡ spec.limit_of memory }
{
    match memory {
        Some(bytes) => Some(bytes / NODE_MEMORY),
        None => None,
    }
}

/// Returns what is read, and what is printed of it.
pub fn printing_of(flags: Flags) -> Printing
    ensures value { result ≡ spec.printing_of flags }
{
    Printing {
        types: flags.types,
        part: cosvigle_engine::Part {
            mode: mode_of(flags),
            style: style_of(flags),
            limit: limit_of(flags.memory),
        },
    }
}

/// What the program does instead of reading symbols.
#[derive(Clone, Copy)]
pub enum EarlyExit {
    /// Prints the help.
    Help,
    /// Prints the version.
    Version,
    /// Reports that no option has this letter or name.
    UnknownOption,
    /// Reports that the names of several options begin with the given bytes.
    AmbiguousOption,
    /// Reports that an option has a value and takes none.
    UnexpectedValue,
    /// Reports that an option has no value and takes one.
    MissingValue,
    /// Reports that no format has this name.
    UnknownFormat,
    /// Reports that no style has this name.
    UnknownStyle,
    /// Reports that this is no number of bytes.
    NoNumber,
}

/// The options that take a value.
#[derive(Clone, Copy)]
pub enum Valued {
    /// The format of symbols.
    Format,
    /// The style of declarations.
    Style,
    /// The bytes of memory that may be taken to read a symbol.
    MaxMemory,
}

/// The state after the options that have been read.
#[derive(Clone, Copy)]
pub enum OptionState {
    /// The options choose these flags.
    Ready(Flags),
    /// The options choose these flags, and the next argument is the value of this option.
    NeedsValue(Flags, Valued),
    /// No further option is read.
    Exit(EarlyExit),
}

/// What the arguments ask.
#[derive(Drop)]
pub enum Request<'a> {
    /// Print what is printed for each of these symbols. If there are none, replace the symbols of standard input.
    Symbols(Flags, Vec<&'a [u8]>),
    /// Stop, because of this argument.
    Stopped(EarlyExit, &'a [u8]),
}

/// Returns the state after the format that the bytes name.
fn after_format(flags: Flags, format: &[u8]) -> OptionState
    ensures value { result ≡ spec.after_format flags format.now }
{
    match format {
        [b'a', b'u', b't', b'o'] | [b'g', b'n', b'u', b'-', b'v', b'3'] => OptionState::Ready(
            Flags {
                pass_through: false,
                ..flags
            },
        ),
        [b'n', b'o', b'n', b'e'] => OptionState::Ready(Flags {
            pass_through: true,
            ..flags
        }),
        _ => OptionState::Exit(EarlyExit::UnknownFormat),
    }
}

/// Returns the state after the style that the bytes name.
fn after_style(flags: Flags, style: &[u8]) -> OptionState
    ensures value { result ≡ spec.after_style flags style.now }
{
    match style {
        [b'l', b'l', b'v', b'm'] => OptionState::Ready(Flags {
            style: Style::Llvm,
            ..flags
        }),
        [b'g', b'n', b'u'] => OptionState::Ready(Flags {
            style: Style::Gnu,
            ..flags
        }),
        [b'g', b'n', b'u', b'-', b's', b'h', b'o', b'r', b't'] => OptionState::Ready(Flags {
            style: Style::GnuShort,
            ..flags
        }),
        _ => OptionState::Exit(EarlyExit::UnknownStyle),
    }
}

/// Returns the number that decimal digits stand for, at most the greatest one. Returns `None` if a byte is no digit.
fn number_of(digits: &[u8]) -> Option<usize>
    ensures value { result ≡ spec.number_of digits.now }
{
    let mut number = 0;
    for at in 0..digits.len() {
        if !digits[at].is_ascii_digit() {
            return None;
        }
        let next = 10 * number as u128 + (digits[at] - b'0') as u128;
        number = next.min(usize::MAX as u128) as usize;
    }
    Some(number)
}

/// Returns the state after the number of bytes that the digits stand for, which isn't 0.
fn after_memory(flags: Flags, digits: &[u8]) -> OptionState
    ensures value { result ≡ spec.after_memory flags digits.now }
{
    match number_of(digits) {
        Some(number) if number > 0 => OptionState::Ready(Flags {
            memory: Some(number),
            ..flags
        }),
        _ => OptionState::Exit(EarlyExit::NoNumber),
    }
}

/// Returns the state after the value of this option.
fn after_value(flags: Flags, option: Valued, value: &[u8]) -> OptionState
    ensures value { result ≡ spec.after_value flags option value.now }
{
    match option {
        Valued::Format => after_format(flags, value),
        Valued::Style => after_style(flags, value),
        Valued::MaxMemory => after_memory(flags, value),
    }
}

/// Returns the state after the option with this letter.
fn after_letter(flags: Flags, letter: u8) -> OptionState
    ensures value { result ≡ spec.after_letter flags letter }
{
    match letter {
        b'_' => OptionState::Ready(Flags {
            strip: true,
            ..flags
        }),
        b'n' => OptionState::Ready(Flags {
            strip: false,
            ..flags
        }),
        b'l' => OptionState::Ready(Flags {
            lines: true,
            ..flags
        }),
        b'p' => OptionState::Ready(Flags {
            name: true,
            ..flags
        }),
        b't' => OptionState::Ready(Flags {
            types: true,
            ..flags
        }),
        b'i' => OptionState::Ready(Flags {
            brief: true,
            ..flags
        }),
        b'r' | b'R' => OptionState::Ready(flags),
        b's' => OptionState::NeedsValue(flags, Valued::Format),
        b'h' => OptionState::Exit(EarlyExit::Help),
        b'v' => OptionState::Exit(EarlyExit::Version),
        _ => OptionState::Exit(EarlyExit::UnknownOption),
    }
}

/// Returns the state after an option that has a name and no letter.
fn after_long_option(flags: Flags, option: LongOption) -> OptionState
    ensures value { result ≡ spec.after_long_option flags option }
{
    match option {
        LongOption::MaxMemory => OptionState::NeedsValue(flags, Valued::MaxMemory),
        LongOption::NoReturn => OptionState::Ready(Flags {
            no_return: true,
            ..flags
        }),
        LongOption::Style => OptionState::NeedsValue(flags, Valued::Style),
    }
}

/// Returns the state after the options whose letters follow the `-` of an argument. What follows the letter of an
/// option that takes a value is that value.
fn after_letters(flags: Flags, argument: &[u8]) -> OptionState
    ensures value { result ≡ spec.after_letters flags argument.now }
{
    let mut flags = flags;
    for at in 1..argument.len() {
        match after_letter(flags, argument[at]) {
            OptionState::Ready(next) => flags = next,
            OptionState::NeedsValue(next, option) if at + 1 < argument.len() => {
                return after_value(next, option, &argument[at + 1..]);
            }
            state => return state,
        }
    }
    OptionState::Ready(flags)
}

/// Returns how many bytes are in front of the first `=`, or the number of all bytes if there is no `=`.
fn name_len(bytes: &[u8]) -> usize
    ensures bound { result ≤ length bytes.now }
    ensures value { result ≡ spec.name_len bytes.now }
{
    for at in 0..bytes.len() {
        if bytes[at] == b'=' {
            return at;
        }
    }
    bytes.len()
}

/// Returns the state after an option whose name is the first `len` bytes. What follows a `=` after them is its value.
/// `state` is the state after the option without a value.
fn after_named(state: OptionState, len: usize, bytes: &[u8]) -> OptionState
    requires { len ≤ length bytes.now }
    ensures value { result ≡ spec.after_named state len bytes.now }
{
    if len == bytes.len() {
        return state;
    }
    match state {
        OptionState::NeedsValue(next, option) => after_value(next, option, &bytes[len + 1..]),
        _ => OptionState::Exit(EarlyExit::UnexpectedValue),
    }
}

/// Returns the state after the option whose name follows `--`. The name may be shortened to a beginning that no other
/// option has. A beginning of an option that has a letter means that one. What follows a `=` is the option's value.
fn after_name(flags: Flags, bytes: &[u8]) -> OptionState
    ensures value { result ≡ spec.after_name flags bytes.now }
{
    let len = name_len(bytes);
    let name = &bytes[..len];
    match find_option(name) {
        Found::Exact(letter) => after_named(after_letter(flags, letter), len, bytes),
        Found::Prefix(letter) => after_named(after_letter(flags, letter), len, bytes),
        Found::Several => OptionState::Exit(EarlyExit::AmbiguousOption),
        Found::Nothing => match find_long_option(name) {
            Some(option) => after_named(after_long_option(flags, option), len, bytes),
            None => OptionState::Exit(EarlyExit::UnknownOption),
        },
    }
}

/// The kinds of arguments.
#[derive(Clone, Copy)]
pub enum Kind {
    /// `--`: all further arguments are symbols.
    End,
    /// The name of an option.
    Name,
    /// The letters of options.
    Letters,
    /// A symbol.
    Symbol,
}

/// Returns the kind of an argument that isn't the value of an option.
fn kind_of(argument: &[u8]) -> Kind
    ensures value { result ≡ spec.kind_of argument.now }
{
    match argument {
        [b'-', b'-'] => Kind::End,
        [b'-', b'-', ..] => Kind::Name,
        [b'-', _, ..] => Kind::Letters,
        _ => Kind::Symbol,
    }
}

/// Returns what the arguments ask, once all have been read. `state` is the state then, and `last` the last argument
/// that was an option or the value of one.
fn request_at_end<'a>(state: OptionState, symbols: Vec<&'a [u8]>, last: &'a [u8]) -> Request<'a>
    ensures request { AsksFor (reading state (texts symbols.entry.items) last.now) result }
{
    match state {
        OptionState::Ready(flags) => Request::Symbols(flags, symbols),
        OptionState::NeedsValue(_, _) => Request::Stopped(EarlyExit::MissingValue, last),
        OptionState::Exit(stop) => Request::Stopped(stop, last),
    }
}

/// Returns the part of a path after its last slash.
fn base_name(path: &[u8]) -> &[u8]
    ensures value { result.now ≡ spec.base_name path.now }
{
    let mut from = 0;
    for at in 0..path.len() {
        if path[at] == b'/' {
            from = at + 1;
        }
    }
    &path[from..]
}

/// Returns the choices without an option. If the program is called as `llvm-cxxfilt` the style is LLVM's, and otherwise
/// GNU's.
fn flags_of(program: &[u8]) -> Flags
    ensures value { result ≡ spec.flags_of program.now }
{
    let mut style = Style::Gnu;
    if base_name(program).starts_with(b"llvm-cxxfilt") {
        style = Style::Llvm;
    }
    Flags {
        strip: false,
        lines: false,
        pass_through: false,
        types: false,
        name: false,
        no_return: false,
        style,
        brief: false,
        memory: None,
    }
}

/// Returns what the arguments of this program ask. Returns an error if an allocation fails.
pub fn read_arguments<'a>(
    alloc: Global,
    program: &[u8],
    arguments: &[&'a [u8]],
) -> Result<Request<'a>, AllocError>
    ensures request { IfOk result (IsRequest program.now (texts arguments.now)) }
{
    let mut state = OptionState::Ready(flags_of(program));
    let mut symbols = Vec::new(alloc);
    // The last argument that was an option or the value of one.
    let mut last: &'a [u8] = b"";
    for at in 0..arguments.len() {
        let argument = arguments[at];
        let flags = match state {
            OptionState::Ready(flags) => flags,
            OptionState::NeedsValue(flags, option) => {
                state = after_value(flags, option, argument);
                last = argument;
                continue;
            }
            OptionState::Exit(stop) => return Ok(Request::Stopped(stop, last)),
        };
        match kind_of(argument) {
            Kind::End => {
                symbols.extend_from_slice(&arguments[at + 1..])?;
                return Ok(Request::Symbols(flags, symbols));
            }
            Kind::Name => {
                state = after_name(flags, &argument[2..]);
                last = argument;
            }
            Kind::Letters => {
                state = after_letters(flags, argument);
                last = argument;
            }
            Kind::Symbol => symbols.push(argument)?,
        }
    }
    Ok(request_at_end(state, symbols, last))
}
