//! The program `sllink`, handed its words and its streams.
ghost use Rattle.std.specs.Prelude.{◌≡◌, ◌≢◌, ◌≤◌, ◌⊎◌, map, string_bytes, OnOk, IfOk, IfErr};
ghost use Rattle.clap.specs.Words.{kind_of};
ghost use Rattle.sl_link.specs.Program.Answer.{EndsAsHelp, MayLackMemory, WithAnswer, WithText};
ghost use Rattle.sl_link.specs.Program.CommandLine.{AreRefused};
ghost use Rattle.sl_engine.specs.Io.Streams.{StopsWriting, WritesText};
ghost use Rattle.sl_engine.specs.Engine.{HasWritten, IsStoppedBy};
ghost use Rattle.sl_link.specs.Program.Run.{AsksForRefusedParameter, HasMetAnomalies, HasStopped, HasSucceeded, WithAsked};

pub mod command_line;

use clap::Error;
use clap::error::ErrorKind;
use command_line::{Asked, parse};
use sl_engine::{Engine, Managed, Totals, run_engine};
use sl_io::{Counted, LinkFault, flush, write_text};
use std::alloc::{AllocError, Global};
use std::io::{Read, Write};

/// The exit status where nothing is wrong.
const SUCCESS: u8 = 0;

/// The exit status where anomalies were met.
const ANOMALIES: u8 = 1;

/// The exit status where the command line or a managed parameter is refused.
const REFUSED: u8 = 2;

/// The exit status after a fault.
const FAULT: u8 = 3;

// What `--version` writes.
const VERSION_LINE: &str = "sllink 2.0.0\n";

// What all help ends with.
const HELP_END: &str = "
The recording is read from the standard input: transfer frames end to end, nothing else.
What the verb asks for goes to the standard output, faults to the standard error.
Numbers are decimal.

Exit status:
  0  all was read and written, and check met no anomaly; or help or the version was written
  1  all was read and written, and check met anomalies
  2  the command line or a value is refused; nothing was read or written
  3  reading or writing failed, the recording is too long, or there was no memory
";

/// Runs the program over its words, the first of them its own name, and returns its exit status, 0
/// to 3:
///
/// - 0: the recording was read and the output written, and a check met no anomaly; or help or the
///   version was written;
/// - 1: all was read and written, and a check met anomalies;
/// - 2: the words or a managed parameter are refused, and nothing was read or written;
/// - 3: reading or writing failed, the recording has more octets than the limit, or memory was
///   refused, which may happen with any words.
///
/// `errors` gets the reason for status 2 or 3 in one line, or the command line's own lines where it
/// refuses the words. Where `errors` fails the reason is cut short, and the status is the same.
pub fn run<R: Read, W: Write, E: Write>(
    alloc: Global,
    words: &[String],
    reader: &mut Counted<R>,
    writer: &mut Counted<W>,
    errors: &mut E,
) -> u8
    ensures range { result ≤ 3 }
    // After success the text that the words ask for is written and no anomaly was met, or they ask
    // for help or the version, which is written, and nothing was read.
    ensures succeeded { result ≡ 0 → ((reader.new ≡ reader.old)
        × WithAnswer (map string_bytes words.now) (WritesText W.contents writer.old writer.new))
        ⊎ WithAsked (map string_bytes words.now) (HasSucceeded R.remaining W.contents
        reader.old reader.new writer.old writer.new) }
    // A check that met anomalies has written all of its listing.
    ensures anomalies { result ≡ 1 → WithAsked (map string_bytes words.now)
        (HasMetAnomalies R.remaining W.contents reader.old reader.new writer.old writer.new) }
    // A refused run has read and written nothing: the words are refused, or a managed parameter
    // that they ask for is.
    ensures refused { result ≡ 2 → (reader.new ≡ reader.old) × (writer.new ≡ writer.old)
        × (AreRefused (map string_bytes words.now) ⊎ WithAsked (map string_bytes words.now)
        AsksForRefusedParameter) }
    // Either nothing was read or written, since memory was refused: no clause can say that, so any
    // words may end like this. Or nothing was read, and the writer failed at the text of help or of
    // the version. Or a fault stopped the engine that the words ask for, and has its cause.
    ensures stopped { result ≡ 3 → ((reader.new ≡ reader.old) × ((writer.new ≡ writer.old)
        ⊎ WithAnswer (map string_bytes words.now)
        (λ text. StopsWriting W.contents writer.old writer.new text ⊥ LinkFault.Write)))
        ⊎ WithAsked (map string_bytes words.now)
        (HasStopped R.remaining W.contents reader.old reader.new writer.old writer.new) }
{
    match parse(alloc, words) {
        Ok(asked) => run_asked(alloc, &asked, reader, writer, errors),
        Err(refusal) => report_refusal(alloc, &refusal, writer, errors),
    }
}

// Runs what is asked for, unless a managed parameter is refused.
fn run_asked<R: Read, W: Write, E: Write>(
    alloc: Global,
    asked: &Asked,
    reader: &mut Counted<R>,
    writer: &mut Counted<W>,
    errors: &mut E,
) -> u8
    ensures range { result ≤ 3 }
    ensures succeeded { result ≡ 0 → HasSucceeded R.remaining W.contents reader.old reader.new
        writer.old writer.new asked.now }
    ensures anomalies { result ≡ 1 → HasMetAnomalies R.remaining W.contents reader.old reader.new
        writer.old writer.new asked.now }
    ensures refused { result ≡ 2 → (reader.new ≡ reader.old) × (writer.new ≡ writer.old)
        × AsksForRefusedParameter asked.now }
    ensures stopped { result ≡ 3 → HasStopped R.remaining W.contents reader.old reader.new
        writer.old writer.new asked.now }
{
    let engine = Engine::new(asked.verb, asked.kind);
    match &asked.managed {
        Ok(managed) => match run_and_flush(alloc, engine, managed, reader, writer) {
            Ok(totals) if totals.anomalies() == 0 => SUCCESS,
            // by `check`: no other engine counts anomalies
            Ok(_) => ANOMALIES,
            Err(fault) => report_fault(fault, errors),
        },
        Err(refused) => {
            let _ = writeln!(errors, "sllink: managed: {refused}");
            REFUSED
        }
    }
}

// Runs an engine, and flushes what it has written.
fn run_and_flush<R: Read, W: Write>(
    alloc: Global,
    engine: Engine,
    managed: &Managed,
    reader: &mut Counted<R>,
    writer: &mut Counted<W>,
) -> Result<Totals, LinkFault>
    ensures written { IfOk result (HasWritten R.remaining W.contents reader.old reader.new
        writer.old writer.new engine managed.now) }
    ensures stopped { IfErr result (IsStoppedBy R.remaining W.contents reader.old reader.new
        writer.old writer.new engine managed.now) }
{
    let totals = run_engine(alloc, engine, managed, reader, writer)?;
    flush(writer)?;
    Ok(totals)
}

// Names a fault on the error output, and returns the exit status.
fn report_fault<E: Write>(fault: LinkFault, errors: &mut E) -> u8
    ensures { result ≡ 3 }
{
    let _ = writeln!(errors, "sllink: {fault}");
    FAULT
}

// Writes help, the version, or why the command line is refused, and returns the exit status. The
// word for help or the version counts as a refusal here.
fn report_refusal<W: Write, E: Write>(
    alloc: Global,
    refusal: &Error,
    writer: &mut Counted<W>,
    errors: &mut E,
) -> u8
    ensures range { result ≤ 3 }
    ensures no_anomaly { result ≢ 1 }
    ensures answered { result ≡ 0 → WithText (kind_of refusal.now)
        (WritesText W.contents writer.old writer.new) }
    ensures refused { result ≡ 2 → (writer.new ≡ writer.old)
        × (kind_of refusal.now ≢ ErrorKind.DisplayHelp)
        × (kind_of refusal.now ≢ ErrorKind.DisplayVersion)
        × (kind_of refusal.now ≢ ErrorKind.OutOfMemory) }
    // Where memory is refused or a write fails, there is a fault. Refused words and a failed error
    // output are no faults.
    ensures stopped { result ≡ 3
        → ((writer.new ≡ writer.old) × MayLackMemory (kind_of refusal.now))
        ⊎ WithText (kind_of refusal.now)
        (λ text. StopsWriting W.contents writer.old writer.new text ⊥ LinkFault.Write) }
{
    match refusal.kind() {
        ErrorKind::DisplayHelp => match help_text(alloc, refusal) {
            Ok(text) => answer(text.as_str(), writer, errors),
            Err(_) => report_fault(LinkFault::Memory, errors),
        },
        ErrorKind::DisplayVersion => answer(VERSION_LINE, writer, errors),
        ErrorKind::OutOfMemory => report_fault(LinkFault::Memory, errors),
        _ => {
            let _ = write!(errors, "{refusal}");
            REFUSED
        }
    }
}

// The help of `clap`, and then what all help ends with.
fn help_text(alloc: Global, help: &Error) -> Result<String, AllocError>
    ensures { IfOk result (λ text. EndsAsHelp (string_bytes text)) }
{
    let mut text = format!(in alloc; "{help}")?;
    text.push_str(HELP_END)?;
    Ok(text)
}

// Writes a text that was asked for and returns the exit status.
fn answer<W: Write, E: Write>(text: &str, writer: &mut Counted<W>, errors: &mut E) -> u8
    ensures status { (result ≡ 0) ⊎ (result ≡ 3) }
    ensures written { result ≡ 0 → WritesText W.contents writer.old writer.new text.now }
    ensures stopped { result ≡ 3
        → StopsWriting W.contents writer.old writer.new text.now ⊥ LinkFault.Write }
{
    match write_and_flush(text, writer) {
        Ok(()) => SUCCESS,
        Err(fault) => report_fault(fault, errors),
    }
}

// Writes a text and flushes it.
fn write_and_flush<W: Write>(text: &str, writer: &mut Counted<W>) -> Result<(), LinkFault>
    ensures written { OnOk result (WritesText W.contents writer.old writer.new text.now) }
    ensures stopped { IfErr result (StopsWriting W.contents writer.old writer.new text.now ⊥) }
{
    write_text(writer, text.as_bytes())?;
    flush(writer)
}
