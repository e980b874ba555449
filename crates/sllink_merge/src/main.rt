//! The program `sllink-merge`: recordings of one pass, merged frame by frame.
#![tactic(auto)]

ghost use Rattle.std.specs.Prelude.{◌≡◌, ◌≢◌};
ghost use Rattle.std.specs.IoError.{error_kind};

mod arrange;
mod command_line;
mod merge;
mod order;
mod reading;
mod run;
mod telling;
mod totals;

use arrange::arrange;
use clap::error::ErrorKind as WordsKind;
use command_line::{Asked, Link, Refusal, parse};
use merge::Recording;
use reading::read_whole;
use run::{FAULT, REFUSED, SUCCESS, report_fault, run};
use sl_files::{one_line, open_file, shown};
use sl_link::{Counted, LinkFault};
use std::alloc::{AllocError, Global};
use std::fs::File;
use std::hash::RandomState;
use std::io::{ErrorKind, Write};
use std::process::ExitCode;
use std::{env, io};
use totals::packets_of;

// What `--version` writes.
const VERSION_LINE: &str = "sllink-merge 2.0.0\n";

fn main(rt: HostRuntime) -> ExitCode {
    match start(&rt) {
        Ok(status) => ExitCode::from(status),
        Err(error) => ExitCode::from(explain(&error, &mut rt.stderr())),
    }
}

// Runs what the words ask for. It fails where memory is refused for them, or where they are no
// text.
fn start(rt: &HostRuntime) -> io::Result<u8> {
    let alloc = rt.alloc();
    let words: Vec<String> = env::args(rt)?.collect(alloc)?;
    Ok(match parse(alloc, words.as_slice()) {
        Ok(asked) => run_asked(rt, &asked)?,
        Err(refusal) => report_refusal(rt, &refusal),
    })
}

// A file, by its name as it stands in a line.
#[derive(Drop)]
struct Opened {
    shown: String,
    file: File,
}

// The octets of a file, by its name as it stands in a line.
#[derive(Drop)]
struct Whole {
    shown: String,
    octets: Vec<u8>,
}

// Runs what is asked for, unless a file is refused. It fails where memory is refused for the names.
fn run_asked(rt: &HostRuntime, asked: &Asked<'_>) -> io::Result<u8> {
    let alloc = rt.alloc();
    let mut files = Vec::new(alloc);
    for name in &asked.names {
        let shown = shown(alloc, name)?;
        let Some(file) = open_named(rt, name, shown.as_str()) else {
            return Ok(REFUSED);
        };
        files.push(Opened { shown, file })?;
    }
    Ok(match read_all(alloc, files, asked.limit) {
        Ok(wholes) => run_read(rt, &asked.link, wholes.as_slice()),
        Err(fault) => report_fault(fault, &mut rt.stderr()),
    })
}

// Opens a file, or says why it is refused.
fn open_named(rt: &HostRuntime, name: &str, shown: &str) -> Option<File> {
    match open_file(rt, name, shown) {
        Ok(file) => Some(file),
        Err(why) => {
            let _ = writeln!(rt.stderr(), "sllink-merge: {shown}: {why}");
            None
        }
    }
}

// Reads files to their ends.
fn read_all(alloc: Global, files: Vec<Opened>, limit: u64) -> Result<Vec<Whole>, LinkFault> {
    let mut wholes = Vec::new(alloc);
    for Opened { shown, file } in files {
        let size = file.metadata().map_or(0, |found| found.len());
        let octets = read_whole(alloc, &mut Counted::new(file), size, limit)?;
        if wholes.push(Whole { shown, octets }).is_err() {
            return Err(LinkFault::Memory);
        }
    }
    Ok(wholes)
}

// Runs over what was read.
fn run_read(rt: &HostRuntime, link: &Link, wholes: &[Whole]) -> u8 {
    let alloc = rt.alloc();
    let Ok(hasher) = RandomState::new(rt) else {
        return report_fault(LinkFault::Read, &mut rt.stderr());
    };
    match recordings_of(alloc, hasher, link, wholes) {
        Ok(recordings) => run(
            alloc,
            hasher,
            link,
            recordings.as_slice(),
            &mut Counted::new(rt.stdout()),
            &mut rt.stderr(),
        ),
        Err(_) => report_fault(LinkFault::Memory, &mut rt.stderr()),
    }
}

// The recordings, in the order in which they are merged.
fn recordings_of<'a>(
    alloc: Global,
    hasher: RandomState,
    link: &Link,
    wholes: &'a [Whole],
) -> Result<Vec<Recording<'a>>, AllocError> {
    let mut recordings = Vec::new(alloc);
    for whole in wholes {
        let octets = whole.octets.as_slice();
        recordings.push(Recording {
            name: whole.shown.as_str(),
            octets,
            packets: packets_of(alloc, link, octets)?,
        })?;
    }
    arrange(alloc, hasher, &link.shape, recordings.as_mut_slice())?;
    Ok(recordings)
}

// Writes help, the version, or why the command line is refused, and returns the exit status.
fn report_refusal(rt: &HostRuntime, refusal: &Refusal) -> u8 {
    let Refusal::Words(error) = refusal else {
        let _ = writeln!(rt.stderr(), "sllink-merge: {refusal}");
        return REFUSED;
    };
    match error.kind() {
        WordsKind::DisplayHelp => answer(write!(rt.stdout(), "{error}"), rt),
        WordsKind::DisplayVersion => answer(rt.stdout().write_all(VERSION_LINE.as_bytes()), rt),
        WordsKind::OutOfMemory => report_fault(LinkFault::Memory, &mut rt.stderr()),
        _ => match one_line(rt.alloc(), error) {
            Ok(line) => {
                let _ = writeln!(rt.stderr(), "{line}");
                REFUSED
            }
            Err(_) => report_fault(LinkFault::Memory, &mut rt.stderr()),
        },
    }
}

// The exit status after help or the version was written, or couldn't be.
fn answer(written: io::Result<()>, rt: &HostRuntime) -> u8 {
    match written {
        Ok(()) => SUCCESS,
        Err(_) => report_fault(LinkFault::Write, &mut rt.stderr()),
    }
}

// Says why nothing was run, and gives the exit status: 3 where memory was refused, else 2.
fn explain(error: &io::Error, errors: &mut impl Write) -> u8
    ensures memory { error_kind error.now ≡ ErrorKind.OutOfMemory → result ≡ 3 }
    ensures refused { error_kind error.now ≢ ErrorKind.OutOfMemory → result ≡ 2 }
{
    if error.kind() == ErrorKind::OutOfMemory {
        let _ = writeln!(errors, "sllink-merge: memory");
        return FAULT;
    }
    let _ = writeln!(errors, "error: the command line is no UTF-8 text");
    REFUSED
}
