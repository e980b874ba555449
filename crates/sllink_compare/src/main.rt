//! The program `sllink-compare`: which packets only one of two recordings has.
#![tactic(auto)]

ghost use Rattle.std.specs.Prelude.{◌≡◌, ◌≢◌};
ghost use Rattle.std.specs.IoError.{error_kind};

mod asking;
mod command_line;
mod questions;
mod run;
mod totals;

use clap::error::ErrorKind as WordsKind;
use command_line::{Asked, Refusal, parse};
use run::{FAULT, REFUSED, SAME, report_fault, run};
use sl_files::{one_line, open_file, shown};
use sl_link::{Counted, LinkFault};
use std::fs::File;
use std::hash::RandomState;
use std::io::{ErrorKind, Write};
use std::process::ExitCode;
use std::{env, io};
use totals::Names;

// What `--version` writes.
const VERSION_LINE: &str = "sllink-compare 2.0.0\n";

fn main(rt: HostRuntime) -> ExitCode {
    match start(&rt) {
        Ok(status) => ExitCode::from(status),
        Err(error) => ExitCode::from(explain(&error, &mut rt.stderr())),
    }
}

// Runs what the words ask for. It fails where memory is refused for them, or where they are no
// text.
fn start(rt: &HostRuntime) -> io::Result<u8> {
    let alloc = rt.alloc();
    let words: Vec<String> = env::args(rt)?.collect(alloc)?;
    Ok(match parse(alloc, words.as_slice()) {
        Ok(asked) => run_asked(rt, &asked)?,
        Err(refusal) => report_refusal(rt, &refusal),
    })
}

// Runs what is asked for, unless a file is refused. It fails where memory is refused for the names.
fn run_asked(rt: &HostRuntime, asked: &Asked<'_>) -> io::Result<u8> {
    let first = shown(rt.alloc(), asked.first)?;
    let second = shown(rt.alloc(), asked.second)?;
    let names = Names {
        first: first.as_str(),
        second: second.as_str(),
    };
    let Some(one) = open_named(rt, asked.first, names.first) else {
        return Ok(REFUSED);
    };
    let Some(other) = open_named(rt, asked.second, names.second) else {
        return Ok(REFUSED);
    };
    Ok(run_files(rt, asked, &names, one, other))
}

// Opens a file, or says why it is refused.
fn open_named(rt: &HostRuntime, name: &str, shown: &str) -> Option<File> {
    match open_file(rt, name, shown) {
        Ok(file) => Some(file),
        Err(why) => {
            let _ = writeln!(rt.stderr(), "sllink-compare: {shown}: {why}");
            None
        }
    }
}

// Runs over two files.
fn run_files(rt: &HostRuntime, asked: &Asked<'_>, names: &Names<'_>, one: File, other: File) -> u8 {
    match RandomState::new(rt) {
        Ok(hasher) => run(
            rt.alloc(),
            hasher,
            &asked.comparison,
            names,
            &mut Counted::new(one),
            &mut Counted::new(other),
            &mut Counted::new(rt.stdout()),
            &mut Counted::new(rt.stderr()),
        ),
        Err(_) => report_fault(LinkFault::Read, &mut Counted::new(rt.stderr())),
    }
}

// Writes help, the version, or why the command line is refused, and returns the exit status.
fn report_refusal(rt: &HostRuntime, refusal: &Refusal) -> u8 {
    let Refusal::Words(error) = refusal else {
        let _ = writeln!(rt.stderr(), "sllink-compare: {refusal}");
        return REFUSED;
    };
    match error.kind() {
        WordsKind::DisplayHelp => answer(write!(rt.stdout(), "{error}"), rt),
        WordsKind::DisplayVersion => answer(rt.stdout().write_all(VERSION_LINE.as_bytes()), rt),
        WordsKind::OutOfMemory => report_fault(LinkFault::Memory, &mut Counted::new(rt.stderr())),
        _ => match one_line(rt.alloc(), error) {
            Ok(line) => {
                let _ = writeln!(rt.stderr(), "{line}");
                REFUSED
            }
            Err(_) => report_fault(LinkFault::Memory, &mut Counted::new(rt.stderr())),
        },
    }
}

// The exit status after help or the version was written, or couldn't be.
fn answer(written: io::Result<()>, rt: &HostRuntime) -> u8 {
    match written {
        Ok(()) => SAME,
        Err(_) => report_fault(LinkFault::Write, &mut Counted::new(rt.stderr())),
    }
}

// Says why nothing was run, and gives the exit status: 3 where memory was refused, else 2.
fn explain(error: &io::Error, errors: &mut impl Write) -> u8
    ensures memory { error_kind error.now ≡ ErrorKind.OutOfMemory → result ≡ 3 }
    ensures refused { error_kind error.now ≢ ErrorKind.OutOfMemory → result ≡ 2 }
{
    if error.kind() == ErrorKind::OutOfMemory {
        let _ = writeln!(errors, "sllink-compare: memory");
        return FAULT;
    }
    let _ = writeln!(errors, "error: the command line is no UTF-8 text");
    REFUSED
}
