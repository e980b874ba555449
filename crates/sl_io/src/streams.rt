//! Single reads, single writes until a text is written, and the flush after them. None is tried again
//! after an error, an interrupted call included.
ghost use Rattle.std.specs.Prelude.{◌≡◌, ◌≢◌, ◌-◌, [], IfOk, IfErr, OnErr, OnOk, length};
ghost use Rattle.std.specs.Io.KnownBytes.{Keeps};
ghost use Rattle.sl_io.specs.Counted.{stream_of, faults_of, HadOneFault};
ghost use Rattle.sl_io.specs.Streams.{Reads, ReadsSome, StopsReading, WritesText, StopsWriting};

use crate::counted::Counted;
use crate::fault::LinkFault;
use std::io::{Read, Write};

/// Reads once, and reports how many octets came to the front of the buffer. These are 0 only at the
/// end of the input, or where the buffer is empty. More octets than `limit` are the fault
/// `TooLong`, and an error of the reader is `Read`.
pub fn read_some<R: Read>(
    reader: &mut Counted<R>,
    buffer: &mut [u8],
    limit: u64,
) -> Result<usize, LinkFault>
    ensures came { IfOk result (ReadsSome R.remaining reader.old reader.new buffer.new limit) }
    // At `TooLong` more octets came than the argument `limit`, and no more than the buffer holds.
    // So they are past the limit by `length buffer.new - limit` at most, the clause's last number.
    ensures fault { IfErr result
        (StopsReading R.remaining reader.old reader.new limit (length buffer.new - limit)) }
    // At `Read` no octets came.
    ensures none_lost { IfErr result
        (λ fault. fault ≡ LinkFault.Read → Reads R.remaining reader.old reader.new []) }
    ensures not_memory { IfErr result (λ fault. fault ≢ LinkFault.Memory) }
{
    let taken = match reader.read(buffer) {
        Ok(taken) => taken,
        Err(_) => return Err(LinkFault::Read),
    };
    if taken as u64 > limit {
        return Err(LinkFault::TooLong);
    }
    Ok(taken)
}

/// Writes all of a text. An error of the writer, or a write that takes nothing, is the fault
/// `Write`.
pub fn write_text<W: Write>(writer: &mut Counted<W>, text: &[u8]) -> Result<(), LinkFault>
    ensures written { OnOk result (WritesText W.contents writer.old writer.new text.now) }
    // The last argument of `StopsWriting` says when the fault may be `Memory`: never, by ⊥.
    ensures fault { IfErr result (StopsWriting W.contents writer.old writer.new text.now ⊥) }
    // Where nothing is to be written, no write fails.
    ensures some { OnErr result (text.now ≢ []) }
{
    let mut left = text;
    while !left.is_empty() {
        match writer.write(left) {
            Ok(0) => return Err(LinkFault::Write),
            Ok(taken) => left = &left[taken..],
            Err(_) => return Err(LinkFault::Write),
        }
    }
    Ok(())
}

/// Flushes what was written. An error of the writer is the fault `Write`.
pub fn flush<W: Write>(writer: &mut Counted<W>) -> Result<(), LinkFault>
    ensures kept { Keeps (W.contents (stream_of writer.old)) (W.contents (stream_of writer.new)) }
    ensures ok { OnOk result (faults_of writer.new ≡ faults_of writer.old) }
    ensures fault { IfErr result (λ fault. (fault ≡ LinkFault.Write)
        × HadOneFault writer.old writer.new) }
{
    match writer.flush() {
        Ok(()) => Ok(()),
        Err(_) => Err(LinkFault::Write),
    }
}
