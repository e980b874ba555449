//! The program `sllink-frames`: the frames of a file as a station wrote it, end to end.
#![tactic(auto)]

ghost use Rattle.std.specs.Prelude.{◌≡◌, ◌≢◌};
ghost use Rattle.std.specs.IoError.{error_kind};

mod command_line;
mod run;

use clap::error::ErrorKind as WordsKind;
use command_line::{Asked, Shape, parse};
use run::{FAULT, REFUSED, SUCCESS, report_fault, run};
use sl_files::{one_line, shown};
use sl_io::{Counted, LinkFault};
use std::fs::File;
use std::io::{ErrorKind, Write};
use std::process::ExitCode;
use std::{env, io};

// What `--version` writes.
const VERSION_LINE: &str = "sllink-frames 2.0.0\n";

fn main(rt: HostRuntime) -> ExitCode {
    match start(&rt) {
        Ok(status) => ExitCode::from(status),
        Err(error) => ExitCode::from(explain(&error, &mut rt.stderr())),
    }
}

// Runs what the words ask for. It fails where memory is refused for them, or where they are no
// text.
fn start(rt: &HostRuntime) -> io::Result<u8> {
    let alloc = rt.alloc();
    let words: Vec<String> = env::args(rt)?.collect(alloc)?;
    Ok(match parse(alloc, words.as_slice()) {
        Ok(asked) => run_asked(rt, &asked),
        Err(refusal) => report_refusal(rt, &refusal),
    })
}

// Runs what is asked for, unless the value of an option is refused.
fn run_asked(rt: &HostRuntime, asked: &Asked<'_>) -> u8 {
    match (&asked.shape, asked.file) {
        (Err(refused), _) => {
            let _ = writeln!(rt.stderr(), "error: {refused}");
            REFUSED
        }
        (Ok(shape), Some(name)) => run_file(rt, shape, name),
        (Ok(shape), None) => {
            let mut reader = Counted::new(rt.stdin());
            let mut writer = Counted::new(rt.stdout());
            run(
                rt.alloc(),
                shape,
                &mut reader,
                &mut writer,
                &mut rt.stderr(),
            )
        }
    }
}

// Runs over a file of this name.
fn run_file(rt: &HostRuntime, shape: &Shape, name: &str) -> u8 {
    match open_file(rt, name) {
        Ok(file) => {
            let mut reader = Counted::new(file);
            let mut writer = Counted::new(rt.stdout());
            run(
                rt.alloc(),
                shape,
                &mut reader,
                &mut writer,
                &mut rt.stderr(),
            )
        }
        Err(fault) => report_unopened(rt, name, &fault),
    }
}

// Says why a file isn't read, and gives the exit status: 3 where memory was refused, else 2.
fn report_unopened(rt: &HostRuntime, name: &str, fault: &io::Error) -> u8 {
    match shown(rt.alloc(), name) {
        Ok(shown) => {
            let _ = writeln!(rt.stderr(), "sllink-frames: {shown}: {fault}");
            REFUSED
        }
        Err(_) => report_fault(LinkFault::Memory, &mut rt.stderr()),
    }
}

// Opens a file to read it. A folder is refused.
fn open_file(rt: &HostRuntime, name: &str) -> io::Result<File> {
    let file = File::open(rt, name)?;
    if file.metadata()?.is_dir() {
        return Err(io::Error::from(ErrorKind::IsADirectory));
    }
    Ok(file)
}

// Writes help, the version, or why the command line is refused, and returns the exit status.
fn report_refusal(rt: &HostRuntime, refusal: &clap::Error) -> u8 {
    match refusal.kind() {
        WordsKind::DisplayHelp => answer(write!(rt.stdout(), "{refusal}"), rt),
        WordsKind::DisplayVersion => answer(rt.stdout().write_all(VERSION_LINE.as_bytes()), rt),
        WordsKind::OutOfMemory => report_fault(LinkFault::Memory, &mut rt.stderr()),
        _ => match one_line(rt.alloc(), refusal) {
            Ok(line) => {
                let _ = writeln!(rt.stderr(), "{line}");
                REFUSED
            }
            Err(_) => report_fault(LinkFault::Memory, &mut rt.stderr()),
        },
    }
}

// The exit status after help or the version was written, or couldn't be.
fn answer(written: io::Result<()>, rt: &HostRuntime) -> u8 {
    match written {
        Ok(()) => SUCCESS,
        Err(_) => report_fault(LinkFault::Write, &mut rt.stderr()),
    }
}

// Says why nothing was run, and gives the exit status: 3 where memory was refused, else 2.
fn explain(error: &io::Error, errors: &mut impl Write) -> u8
    ensures memory { error_kind error.now ≡ ErrorKind.OutOfMemory → result ≡ 3 }
    ensures refused { error_kind error.now ≢ ErrorKind.OutOfMemory → result ≡ 2 }
{
    if error.kind() == ErrorKind::OutOfMemory {
        let _ = writeln!(errors, "sllink-frames: memory");
        return FAULT;
    }
    let _ = writeln!(errors, "error: the command line is no UTF-8 text");
    REFUSED
}
