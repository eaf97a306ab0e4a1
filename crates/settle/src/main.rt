//! Puts the attribute names of a catalogue in order, each once, with their digests.
#![tactic(auto)]

use ledger::report::settle;
use std::io::{Read, Write};
use std::process::ExitCode;
use std::{env, io};
use thiserror::Error;

const USAGE: &str = "usage: settle < NAMES
Puts the attribute names of a catalogue in order, each once.

Standard input has one name a line: any bytes but the line feed, at most 512.
Standard output has a line for each line that is refused, then each name with
its FNV-1a digest in decimal, in the order of texts, and last how many lines
were read, kept, repeated and refused.

  -h, --help    print this text

The exit status is 0, also where lines are refused, and 1 where an argument is
unknown, or reading, writing or memory fails.
";

// Why the program ends with status 1.
#[derive(Debug, Drop, Error)]
enum Fault {
    #[error("unknown argument '{0}': see settle --help")]
    Argument(String),
    #[error(transparent)]
    Failed(#[from] io::Error),
}

// Reads all of standard input, and writes the report on it.
fn settle_input(rt: &HostRuntime) -> io::Result<()> {
    let heap = rt.alloc();
    let mut input = Vec::new(heap);
    rt.stdin().read_to_end(&mut input)?;
    let report = settle(heap, &input).map_err(|_| io::ErrorKind::OutOfMemory)?;
    rt.stdout().write_all(&report)
}

fn run(rt: &HostRuntime) -> Result<(), Fault> {
    match env::args(rt)?.nth(1) {
        None => settle_input(rt)?,
        Some(word) if matches!(word.as_str(), "-h" | "--help") => {
            rt.stdout().write_all(USAGE.as_bytes())?
        }
        Some(word) => return Err(Fault::Argument(word)),
    }
    Ok(())
}

fn main(rt: HostRuntime) -> ExitCode {
    match run(&rt) {
        Ok(()) => ExitCode::SUCCESS,
        Err(fault) => {
            let _ = eprintln!(rt; "settle: {fault}");
            ExitCode::FAILURE
        }
    }
}
