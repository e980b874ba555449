//! The program `sllink`: its words and the standard streams, handed to the library.
#![tactic(auto)]

ghost use Rattle.std.specs.Prelude.{◌≡◌, ◌≢◌};
ghost use Rattle.std.specs.IoError.{error_kind};

use sl_link::{Counted, run};
use std::io::{ErrorKind, Write};
use std::process::ExitCode;
use std::{env, io};

// The exit status where the command line is no text.
const REFUSED: u8 = 2;

// The exit status where memory is refused.
const FAULT: u8 = 3;

fn main(rt: HostRuntime) -> ExitCode {
    match start(&rt) {
        Ok(status) => ExitCode::from(status),
        Err(error) => ExitCode::from(explain(&error, &mut rt.stderr())),
    }
}

// Runs the library over the standard streams. It fails where memory is refused for its words, or
// where the words are no text.
fn start(rt: &HostRuntime) -> io::Result<u8> {
    let alloc = rt.alloc();
    let words: Vec<String> = env::args(rt)?.collect(alloc)?;
    let mut reader = Counted::new(rt.stdin());
    let mut writer = Counted::new(rt.stdout());
    Ok(run(
        alloc,
        words.as_slice(),
        &mut reader,
        &mut writer,
        &mut rt.stderr(),
    ))
}

// Says why nothing was run, and gives the exit status: 3 where memory was refused, else 2.
fn explain(error: &io::Error, errors: &mut impl Write) -> u8
    ensures memory { error_kind error.now ≡ ErrorKind.OutOfMemory → result ≡ 3 }
    ensures refused { error_kind error.now ≢ ErrorKind.OutOfMemory → result ≡ 2 }
{
    if error.kind() == ErrorKind::OutOfMemory {
        let _ = writeln!(errors, "sllink: memory");
        return FAULT;
    }
    let _ = writeln!(errors, "error: the command line is no UTF-8 text");
    REFUSED
}

#[cfg(test)]
mod tests;
