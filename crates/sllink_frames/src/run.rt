//! A run over a reader and a writer.
ghost use Rattle.std.specs.Prelude.{◌≡◌, ◌≢◌, ◌≤◌, IfOk, IfErr};
ghost use Rattle.sllink_frames.specs.Run.{HasEnded, HasStopped, HasWritten, IsStoppedBy, status_of};

use crate::command_line::Shape;
use sl_io::{Counted, LinkFault, flush};
use sl_sync::{Totals, read_cadus, read_cltus};
use std::alloc::Global;
use std::io::{Read, Write};

/// The exit status where nothing is wrong.
pub const SUCCESS: u8 = 0;

/// The exit status where a marker was wrong, a code block was refused, or octets went astray.
pub const ANOMALIES: u8 = 1;

/// The exit status where the command line or the file is refused.
pub const REFUSED: u8 = 2;

/// The exit status after a fault.
pub const FAULT: u8 = 3;

/// Reads a file to its end and writes its frames, end to end. `errors` gets a line with what was
/// counted, or the fault. Where `errors` fails the line is cut short, and the status is the same.
pub fn run<R: Read, W: Write, E: Write>(
    alloc: Global,
    shape: &Shape,
    reader: &mut Counted<R>,
    writer: &mut Counted<W>,
    errors: &mut E,
) -> u8
    ensures ended { result ≢ 3 → HasEnded R.remaining W.contents reader.old reader.new
        writer.old writer.new shape.now result }
    ensures stopped { result ≡ 3 → HasStopped R.remaining W.contents reader.old reader.new
        writer.old writer.new shape.now }
{
    match write_and_flush(alloc, shape, reader, writer) {
        Ok(totals) => {
            report_totals(&totals, errors);
            status_of(&totals)
        }
        Err(fault) => report_fault(fault, errors),
    }
}

// Writes the frames of a file, and flushes them.
fn write_and_flush<R: Read, W: Write>(
    alloc: Global,
    shape: &Shape,
    reader: &mut Counted<R>,
    writer: &mut Counted<W>,
) -> Result<Totals, LinkFault>
    ensures written { IfOk result (HasWritten R.remaining W.contents reader.old reader.new
        writer.old writer.new shape.now) }
    ensures stopped { IfErr result (IsStoppedBy R.remaining W.contents reader.old reader.new
        writer.old writer.new shape.now) }
{
    let totals = write_frames(alloc, shape, reader, writer)?;
    flush(writer)?;
    Ok(totals)
}

// Writes the frames of a file.
fn write_frames<R: Read, W: Write>(
    alloc: Global,
    shape: &Shape,
    reader: &mut Counted<R>,
    writer: &mut Counted<W>,
) -> Result<Totals, LinkFault>
    ensures written { IfOk result (HasWritten R.remaining W.contents reader.old reader.new
        writer.old writer.new shape.now) }
    ensures stopped { IfErr result (IsStoppedBy R.remaining W.contents reader.old reader.new
        writer.old writer.new shape.now) }
{
    match shape {
        Shape::Cadu(shape) => read_cadus(alloc, shape, reader, writer),
        Shape::Cltu(shape) => read_cltus(alloc, shape, reader, writer),
    }
}

// The exit status of a file with these totals.
fn status_of(totals: &Totals) -> u8
    ensures value { result ≡ status_of totals.now }
    ensures range { result ≤ 1 }
{
    if totals.wrong_markers == 0 && totals.refused_blocks == 0 && totals.astray == 0 {
        SUCCESS
    } else {
        ANOMALIES
    }
}

// Writes what was counted on the error output, in one line.
fn report_totals<E: Write>(totals: &Totals, errors: &mut E) {
    let Totals {
        frames,
        wrong_markers,
        skipped,
        refused_blocks,
        cut,
        ..
    } = *totals;
    let _ = writeln!(
        errors,
        "frames {frames} wrong-markers {wrong_markers} skipped-octets {skipped} refused-blocks {refused_blocks} cut-octets {cut}"
    );
}

/// Names a fault on the error output, and returns the exit status.
pub fn report_fault<E: Write>(fault: LinkFault, errors: &mut E) -> u8
    ensures { result ≡ 3 }
{
    let _ = writeln!(errors, "sllink-frames: {fault}");
    FAULT
}
