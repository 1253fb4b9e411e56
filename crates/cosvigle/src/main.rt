//! Replaces mangled C++ symbols in a text by their declarations. If symbols are given as arguments, the program prints
//! the declaration of each on a line, or the argument itself if it isn't read. Otherwise the program copies standard
//! input to standard output.
//!
//! The exit status is 1 after a fault. The status is 2 if the options can't be read, and then nothing is written to
//! standard output. In both cases standard error says what failed. If the reader of standard output has gone, the
//! status is 0 and nothing more is written.
//!
//! `text_filter` replaces the symbols in a text, and reads each symbol that is an argument. Begin with
//! `main` below, and with `options.rt`: `specs/Options` defines what each command line means.
#![tactic(auto)]

ghost use Rattle.std.specs.Prelude.{◌≡◌};
ghost use Rattle.cosvigle.specs.Options as spec;

mod arguments;
mod files;
mod help;
mod option_names;
mod options;
mod output;

use arguments::{Printed, answer_of, set_line};
use cosvigle_engine::{
    DeclarationReader, FilterFault, Printing, ReplaceOptions, Tally, filter_with, replace,
};
use files::{file_name, has_no_nul, words_in};
use help::{HELP, VERSION};
use options::{EarlyExit, Flags, Request, printing_of, read_arguments};
use output::{Output, reported};
use std::alloc::AllocError;
use std::env::{Env, FillError};
use std::io::{ErrorKind, Read, Stdout, Write};
use std::process::ExitCode;
use std::{fs, str};

/// The exit status if the arguments can't be read, and nothing is done.
const USAGE_ERROR: u8 = 2;

/// The most files that arguments may name as `@FILE`.
const MOST_FILES: u32 = 2000;

/// The bytes that are reserved for an argument at first.
const ARGUMENT_LEN: usize = 128;

/// The most bytes that are copied at once.
const COPIED_LEN: usize = 65536;

/// Writes the bytes to standard output.
fn put(output: &mut Output<Stdout>, bytes: &[u8]) -> Result<(), FilterFault> {
    match output.write_all(bytes) {
        Ok(()) => Ok(()),
        Err(_) => Err(FilterFault::Write),
    }
}

/// Returns how the flags say that symbols are replaced.
fn replacement(flags: Flags) -> ReplaceOptions<Printing>
    ensures strip { result.strip ≡ flags.strip }
    ensures printing { result.printing ≡ spec.printing_of flags }
{
    ReplaceOptions {
        strip: flags.strip,
        printing: printing_of(flags),
    }
}

/// Returns what is printed for an argument. If `pass_through` is set, that is the argument itself.
fn output_of<'a>(
    rt: &HostRuntime,
    symbols: &'a mut DeclarationReader,
    flags: Flags,
    argument: &'a [u8],
) -> Result<Printed<'a>, AllocError> {
    if flags.pass_through {
        return Ok(Printed {
            front: b"",
            text: argument,
        });
    }
    answer_of(rt.alloc(), symbols, replacement(flags), argument)
}

/// Prints for each symbol its declaration, or the symbol itself if it isn't read. Each is on a line.
fn print_symbols(
    rt: &HostRuntime,
    output: &mut Output<Stdout>,
    flags: Flags,
    symbols: &[&[u8]],
) -> Result<(), FilterFault> {
    let mut reader = DeclarationReader::new(rt.alloc());
    let mut line = Vec::new(rt.alloc());
    for symbol in symbols {
        let answer = output_of(rt, &mut reader, flags, symbol)?;
        set_line(&mut line, answer)?;
        put(output, &line)?;
    }
    Ok(())
}

/// Copies standard input to standard output unchanged.
fn copy_input(rt: &HostRuntime, output: &mut Output<Stdout>) -> Result<(), FilterFault> {
    let mut chunk = vec![in rt.alloc(); 0u8; COPIED_LEN]?;
    let mut input = rt.stdin();
    // The bound is never reached; each loop needs one.
    for _ in 0..u64::MAX {
        match input.read(&mut chunk) {
            Ok(0) => return Ok(()),
            Ok(count) => put(output, &chunk[..count])?,
            Err(_) => return Err(FilterFault::Read),
        }
    }
    Err(FilterFault::Read)
}

/// Copies standard input to standard output, and replaces symbols by declarations. If `pass_through` is set, nothing is
/// replaced.
fn replace_input(
    rt: &HostRuntime,
    output: &mut Output<Stdout>,
    flags: Flags,
) -> Result<(), FilterFault> {
    if flags.pass_through {
        return copy_input(rt, output);
    }
    // Neither the source nor the sink has a buffer: the filter reads and writes whole chunks.
    let mut source = Tally::new(rt.stdin());
    let mut sink = Tally::new(output);
    let mut reader = DeclarationReader::new(rt.alloc());
    if flags.lines {
        return filter_with(
            rt.alloc(),
            &mut reader,
            printing_of(flags),
            &mut source,
            &mut sink,
        );
    }
    replace(
        rt.alloc(),
        &mut reader,
        replacement(flags),
        &mut source,
        &mut sink,
    )
}

/// Writes to standard error why nothing is done, and the help. Returns the exit status.
fn refuse(rt: &HostRuntime, before: &str, argument: &[u8], after: &str) -> u8 {
    let mut errors = rt.stderr();
    for part in [
        b"cosvigle: ",
        before.as_bytes(),
        argument,
        after.as_bytes(),
        b"\n",
        HELP.as_bytes(),
    ] {
        let _ = errors.write_all(part);
    }
    USAGE_ERROR
}

/// Does what an option asks instead of reading symbols, and returns the exit status.
fn exit_early(
    rt: &HostRuntime,
    output: &mut Output<Stdout>,
    instead: EarlyExit,
    argument: &[u8],
) -> Result<u8, FilterFault> {
    let status = match instead {
        EarlyExit::Help => {
            put(output, HELP.as_bytes())?;
            0
        }
        EarlyExit::Version => {
            put(output, VERSION.as_bytes())?;
            0
        }
        EarlyExit::UnknownOption => refuse(rt, "no option ", argument, ""),
        EarlyExit::AmbiguousOption => refuse(rt, "more than one option begins with ", argument, ""),
        EarlyExit::UnexpectedValue => refuse(rt, "no value is taken: ", argument, ""),
        EarlyExit::MissingValue => refuse(rt, "a value is missing: ", argument, ""),
        EarlyExit::UnknownFormat => refuse(rt, "no such format: ", argument, ""),
        EarlyExit::UnknownStyle => refuse(rt, "no such style: ", argument, ""),
        EarlyExit::NoNumber => refuse(rt, "no number of bytes: ", argument, ""),
    };
    Ok(status)
}

/// Does what the arguments ask, and returns the exit status.
fn execute(
    rt: &HostRuntime,
    output: &mut Output<Stdout>,
    request: &Request,
) -> Result<u8, FilterFault> {
    match request {
        Request::Stopped(by, argument) => return exit_early(rt, output, *by, argument),
        Request::Symbols(flags, symbols) if symbols.is_empty() => replace_input(
            rt, output, *flags,
        )?,
        Request::Symbols(flags, symbols) => print_symbols(rt, output, *flags, symbols)?,
    }
    Ok(0)
}

/// Returns the argument with the index `at`, or `None` past the last argument.
fn argument_at(rt: &HostRuntime, at: usize) -> Result<Option<Vec<u8>>, AllocError> {
    let mut len = ARGUMENT_LEN;
    for _ in 0..64 {
        let mut bytes = vec![in rt.alloc(); 0u8; len]?;
        match rt.arg(at, &mut bytes) {
            Ok(count) => {
                bytes.truncate(count);
                return Ok(Some(bytes));
            }
            Err(FillError::NotPresent) => return Ok(None),
            Err(FillError::TooLong) if len <= usize::MAX / 2 => len *= 2,
            Err(FillError::TooLong) => break,
        }
    }
    Err(AllocError)
}

/// Returns the arguments, without the program's name.
fn given_arguments(rt: &HostRuntime) -> Result<Vec<Vec<u8>>, AllocError> {
    let mut all = Vec::new(rt.alloc());
    for at in 1..usize::MAX {
        match argument_at(rt, at)? {
            Some(argument) => all.push(argument)?,
            None => break,
        }
    }
    Ok(all)
}

/// Returns the words of the file that an argument names as `@FILE`. Returns `None` if the argument names no file, or
/// one that can't be read, or one with a NUL byte.
fn file_words(rt: &HostRuntime, argument: &[u8]) -> Result<Option<Vec<Vec<u8>>>, AllocError> {
    let Some(name) = file_name(argument) else {
        return Ok(None);
    };
    let Ok(name) = str::from_utf8(name) else {
        return Ok(None);
    };
    match fs::read(rt, name) {
        Ok(text) if has_no_nul(&text) => Ok(Some(words_in(rt.alloc(), &text)?)),
        Err(error) if error.kind() == ErrorKind::OutOfMemory => Err(AllocError),
        _ => Ok(None),
    }
}

/// Replaces each `@FILE` by the words of that file, and does the same with an `@FILE` among these words. Returns
/// `None` if there are more than `MOST_FILES` files, for example if a file names itself.
fn expanded(rt: &HostRuntime, arguments: Vec<Vec<u8>>) -> Result<Option<Vec<Vec<u8>>>, AllocError> {
    let mut left = arguments;
    left.reverse();
    let mut all = Vec::new(rt.alloc());
    let mut files = MOST_FILES;
    // The bound is never reached; each loop needs one.
    for _ in 0..u64::MAX {
        let Some(argument) = left.pop() else {
            break;
        };
        match file_words(rt, &argument)? {
            None => all.push(argument)?,
            Some(_) if files == 0 => return Ok(None),
            Some(words) => {
                files -= 1;
                let mut words = words;
                words.reverse();
                left.append(&mut words)?;
            }
        }
    }
    Ok(Some(all))
}

/// Returns the arguments as slices.
fn slices_of<'a>(rt: &HostRuntime, words: &'a [Vec<u8>]) -> Result<Vec<&'a [u8]>, AllocError> {
    let mut slices = Vec::new(rt.alloc());
    for word in words {
        slices.push(word.as_slice())?;
    }
    Ok(slices)
}

/// Reads the arguments, does what they ask, and returns the exit status.
fn run(rt: &HostRuntime, output: &mut Output<Stdout>) -> Result<u8, FilterFault> {
    let Some(words) = expanded(rt, given_arguments(rt)?)? else {
        return Ok(refuse(rt, "too many files stand as @FILE", b"", ""));
    };
    let arguments = slices_of(rt, &words)?;
    let program = argument_at(rt, 0)?.unwrap_or(Vec::new(rt.alloc()));
    let request = read_arguments(rt.alloc(), &program, &arguments)?;
    execute(rt, output, &request)
}

fn main(rt: HostRuntime) -> ExitCode {
    let mut output = Output::new(rt.stdout());
    match run(&rt, &mut output) {
        Ok(status) => ExitCode::from(status),
        Err(fault) => match reported(fault, output.is_closed()) {
            None => ExitCode::SUCCESS,
            Some(fault) => {
                let _ = eprintln!(rt; "cosvigle: {}", fault.reason());
                ExitCode::FAILURE
            }
        },
    }
}
