//! A whole file, from a reader to a writer.
ghost use Rattle.std.specs.Prelude.{◌<◌, length, IfOk, IfErr};
ghost use Rattle.sl_io.specs.Streams.{Stops, TranslatesWithTotals};
ghost use Rattle.sl_sync.specs.Cadu.{cadu_rule};
ghost use Rattle.sl_sync.specs.Cltu.{cltu_rule};
ghost use Rattle.sl_sync.specs.Reading.{IsAtStart, chunk_size, file_totals, most_octets};
ghost use Rattle.sl_sync.specs.Units.{IsSound, frames_text};

use crate::cadu::CaduShape;
use crate::cltu::CltuShape;
use crate::kept::Kept;
use crate::totals::Totals;
use crate::units::Units;
use sl_io::{Counted, LinkFault, read_some, write_text};
use std::alloc::Global;
use std::io::{Read, Write};

// How many octets are read at once, at most.
const CHUNK_SIZE: usize = 0x10000;

/// Reads a file of units of one length to its end, and writes the frames of its units, end to end.
///
/// It keeps what was read last, at most 65,536 octets, two units and a marker that began in earlier
/// reads, and as many octets again that aren't written yet. No clause says what is kept: that is
/// seen by reading.
///
/// The fault is `Read` or `Write` where the reader or the writer had one, `TooLong` where more than
/// 2^64 - 1 octets came, and `Memory` where memory was refused.
pub fn read_cadus<R: Read, W: Write>(
    alloc: Global,
    shape: &CaduShape,
    reader: &mut Counted<R>,
    writer: &mut Counted<W>,
) -> Result<Totals, LinkFault>
    // All is read, and the frames of it are written and nothing else. The totals are those of what
    // was read.
    ensures written { IfOk result (TranslatesWithTotals R.remaining W.contents reader.old reader.new
        writer.old writer.new (frames_text (cadu_rule shape.now))
        (file_totals (cadu_rule shape.now)) most_octets) }
    // A fault has its cause (`IsCaused`), and a prefix of the frames of what was read is written.
    ensures stopped { IfErr result (Stops R.remaining W.contents reader.old reader.new
        writer.old writer.new (frames_text (cadu_rule shape.now)) most_octets chunk_size) }
{
    read_units(alloc, shape, reader, writer)
}

/// Reads a file of CLTUs to its end, and writes the frames of its CLTUs, end to end.
///
/// It keeps what was read last, at most 65,536 octets, one CLTU that began in an earlier read, and
/// as many octets again that aren't written yet. No clause says what is kept: that is seen by
/// reading.
///
/// The fault is `Read` or `Write` where the reader or the writer had one, `TooLong` where more than
/// 2^64 - 1 octets came, and `Memory` where memory was refused.
pub fn read_cltus<R: Read, W: Write>(
    alloc: Global,
    shape: &CltuShape,
    reader: &mut Counted<R>,
    writer: &mut Counted<W>,
) -> Result<Totals, LinkFault>
    // As with `read_cadus`.
    ensures written { IfOk result (TranslatesWithTotals R.remaining W.contents reader.old reader.new
        writer.old writer.new (frames_text (cltu_rule shape.now))
        (file_totals (cltu_rule shape.now)) most_octets) }
    ensures stopped { IfErr result (Stops R.remaining W.contents reader.old reader.new
        writer.old writer.new (frames_text (cltu_rule shape.now)) most_octets chunk_size) }
{
    read_units(alloc, shape, reader, writer)
}

// Reads a file of units to its end, and writes the frames of its units.
fn read_units<U: Units, R: Read, W: Write>(
    alloc: Global,
    units: &U,
    reader: &mut Counted<R>,
    writer: &mut Counted<W>,
) -> Result<Totals, LinkFault>
    requires { IsSound (U.rule units.now) }
    ensures written { IfOk result (TranslatesWithTotals R.remaining W.contents reader.old reader.new
        writer.old writer.new (frames_text (U.rule units.now)) (file_totals (U.rule units.now))
        most_octets) }
    ensures stopped { IfErr result (Stops R.remaining W.contents reader.old reader.new
        writer.old writer.new (frames_text (U.rule units.now)) most_octets chunk_size) }
{
    let mut buffer = [0; CHUNK_SIZE];
    let mut kept = Kept::new(alloc);
    copy_frames(units, reader, writer, &mut buffer, &mut kept)
}

// The same, with room for a chunk and for what is kept.
fn copy_frames<U: Units, R: Read, W: Write>(
    units: &U,
    reader: &mut Counted<R>,
    writer: &mut Counted<W>,
    buffer: &mut [u8],
    kept: &mut Kept,
) -> Result<Totals, LinkFault>
    requires sound { IsSound (U.rule units.now) }
    requires room { 0 < length buffer.old }
    requires start { IsAtStart kept.old }
    ensures written { IfOk result (TranslatesWithTotals R.remaining W.contents reader.old reader.new
        writer.old writer.new (frames_text (U.rule units.now)) (file_totals (U.rule units.now))
        most_octets) }
    ensures stopped { IfErr result (Stops R.remaining W.contents reader.old reader.new
        writer.old writer.new (frames_text (U.rule units.now)) most_octets (length buffer.old)) }
{
    let mut octets = 0;
    'chunks: loop {
        let taken = read_some(reader, buffer, u64::MAX - octets)?;
        octets += taken as u64;
        let ended = taken == 0;
        if kept.cut(units, &buffer[..taken], ended).is_err() {
            return Err(LinkFault::Memory);
        }
        write_text(writer, kept.text.as_slice())?;
        if ended {
            return Ok(kept.totals);
        }
    }
}
