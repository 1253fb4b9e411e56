//! Copies lines from standard input to standard output. Each line is taken as one mangled C++ symbol: its name is
//! written, or the line itself if it has none. A line that begins with a symbol is one: `_Z3foo at main.c` becomes
//! `foo`.
//!
//! The program takes no arguments. After a fault it writes to standard error what failed, and ends with status 1.
//!
//! `symfilter_engine` does all the work.
#![tactic(auto)]

use std::process::ExitCode;
use symfilter_engine::{Tally, filter};

fn main(rt: HostRuntime) -> ExitCode {
    // Neither the source nor the sink has a buffer: the filter reads and writes many lines at a time.
    let mut source = Tally::new(rt.stdin());
    let mut sink = Tally::new(rt.stdout());
    match filter(rt.alloc(), &mut source, &mut sink) {
        Ok(()) => ExitCode::SUCCESS,
        Err(fault) => {
            let _ = eprintln!(rt; "{}", fault.line());
            ExitCode::FAILURE
        }
    }
}
