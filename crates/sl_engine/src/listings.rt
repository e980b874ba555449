//! The listings of recordings. A call has two buffers of 65,536 octets on its stack: for what is
//! read, and for lines.
//!
//! `inline(never)`: within `run_engine` all loops would share the registers, and most would take more
//! instructions a frame (`show` of TM frames 217 and not 210).
ghost use Rattle.std.specs.Prelude.{◌≡◌, ◌≢◌, IfOk, IfErr, OnOk, Err};
ghost use Rattle.sl_tcframe.specs.TcDelimited.{tc_frames_of};
ghost use Rattle.sl_tmframe.specs.TmDelimited.{tm_frames_of};
ghost use Rattle.sl_engine.specs.Kind.Tc.{IsIncompleteAtLastTc, tc_counts};
ghost use Rattle.sl_engine.specs.Kind.Tm.{IsIncompleteAtLastTm, tm_counts};
ghost use Rattle.sl_engine.specs.Link.Managed.{tc_format};
ghost use Rattle.sl_engine.specs.Verbs.Check.Tc.{check_tc_counts, check_tc_text};
ghost use Rattle.sl_engine.specs.Verbs.Check.Tm.{check_tm_counts, check_tm_text};
ghost use Rattle.sl_engine.specs.Verbs.Packets.Tc.{packets_tc_text};
ghost use Rattle.sl_engine.specs.Verbs.Packets.Tm.{packets_tm_text};
ghost use Rattle.sl_engine.specs.Verbs.Show.Tc.{show_tc_counts, show_tc_text};
ghost use Rattle.sl_engine.specs.Verbs.Show.Tm.{show_tm_counts, show_tm_text};
ghost use Rattle.sl_engine.specs.Io.Streams.{Stops, Translates, TranslatesWithTotals};
ghost use Rattle.sl_engine.specs.Framing.{MayRefuseMemoryAtSome, chunk_size};

use crate::framing::CHUNK_SIZE;
use crate::link::managed::Managed;
use crate::link::totals::Totals;
use crate::verbs::check::Check;
use crate::verbs::list;
use crate::verbs::packets::ListPackets;
use crate::verbs::show::Show;
use crate::verbs::show::shown::TmFrames;
use sl_io::{Counted, LinkFault};
use sl_tcflow::{Farms, Receiver, UnitCounter};
use sl_tmflow::{Extractor, PacketCounter};
use std::alloc::Global;
use std::io::{Read, Write};

/// Reads a recording of TM transfer frames to its end and writes a line for each frame, and one for
/// a remainder. It takes no memory.
///
/// It keeps what was read last and the lines that aren't written yet, at most 65,536 octets each,
/// and one frame at most that began in an earlier read. No clause says what is kept: that is seen
/// by reading.
///
/// The fault is `Read` where the reader had one, `TooLong` where more octets came than the managed
/// limit, and `Write` where the writer had one.
#[inline(never)]
pub fn show_tm<R: Read, W: Write>(
    managed: &Managed,
    reader: &mut Counted<R>,
    writer: &mut Counted<W>,
) -> Result<Totals, LinkFault>
    // All is read, and its listing is written and nothing else.
    ensures listing { OnOk result (Translates R.remaining W.contents reader.old reader.new
        writer.old writer.new (show_tm_text managed.now) managed.now.max_octets) }
    // The totals are those of what was read.
    ensures totals { IfOk result (TranslatesWithTotals R.remaining W.contents reader.old reader.new
        writer.old writer.new (show_tm_text managed.now) (show_tm_counts managed.now)
        managed.now.max_octets) }
    // A fault has its cause (`IsCaused`), and a prefix of the listing of what was read is written.
    ensures fault { IfErr result (Stops R.remaining W.contents reader.old reader.new
        writer.old writer.new (show_tm_text managed.now) managed.now.max_octets chunk_size) }
    ensures no_memory { result ≢ Err LinkFault.Memory }
{
    let mut buffer = [0; CHUNK_SIZE];
    let mut verb = Show::<TmFrames>::begin(managed);
    list(managed, &mut verb, reader, writer, &mut buffer)
}

/// Reads a recording of TC transfer frames (CCSDS 232.0-B) to its end and writes a line for each
/// frame, with what FARM-1 of its virtual channel makes of it and the CLCW after it, and one for a
/// remainder: a last frame that isn't whole; or, where a frame states a length that no frame can
/// have, all octets from that frame on. It takes no memory.
///
/// It keeps what was read last and the lines that aren't written yet, at most 65,536 octets each,
/// one frame at most that began in an earlier read, and the FARM-1 of 64 virtual channels. No
/// clause says what is kept: that is seen by reading.
///
/// The fault is `Read` where the reader had one, `TooLong` where more octets came than the managed
/// limit, and `Write` where the writer had one.
#[inline(never)]
pub fn show_tc<R: Read, W: Write>(
    managed: &Managed,
    reader: &mut Counted<R>,
    writer: &mut Counted<W>,
) -> Result<Totals, LinkFault>
    // All is read, and its listing is written and nothing else.
    ensures listing { OnOk result (Translates R.remaining W.contents reader.old reader.new
        writer.old writer.new (show_tc_text managed.now) managed.now.max_octets) }
    // The totals are those of what was read.
    ensures totals { IfOk result (TranslatesWithTotals R.remaining W.contents reader.old reader.new
        writer.old writer.new (show_tc_text managed.now) (show_tc_counts managed.now)
        managed.now.max_octets) }
    // A fault has its cause (`IsCaused`), and a prefix of the listing of what was read is written.
    ensures fault { IfErr result (Stops R.remaining W.contents reader.old reader.new
        writer.old writer.new (show_tc_text managed.now) managed.now.max_octets chunk_size) }
    ensures no_memory { result ≢ Err LinkFault.Memory }
{
    let mut buffer = [0; CHUNK_SIZE];
    let mut verb = Show::<Farms>::begin(managed);
    list(managed, &mut verb, reader, writer, &mut buffer)
}

/// Reads a recording of TM transfer frames to its end, and writes a line for each anomaly of it,
/// and then one of its totals (docs/listings.md).
///
/// It keeps what was read last and the lines that aren't written yet, at most 65,536 octets each,
/// one frame at most that began in an earlier read, and of each virtual channel the last frame count
/// and the number of octets of the incomplete packet, with the first six of them. It takes no
/// memory, and `alloc` isn't read. No clause says what is kept: that is seen by reading.
///
/// The fault is `Read` where the reader had one, `TooLong` where more octets came than the managed
/// limit, and `Write` where the writer had one.
#[inline(never)]
pub fn check_tm<R: Read, W: Write>(
    alloc: Global,
    managed: &Managed,
    reader: &mut Counted<R>,
    writer: &mut Counted<W>,
) -> Result<Totals, LinkFault>
    // All is read, and its listing is written and nothing else.
    ensures listing { OnOk result (Translates R.remaining W.contents reader.old reader.new
        writer.old writer.new (check_tm_text managed.now) managed.now.max_octets) }
    // The totals are those of what was read.
    ensures totals { IfOk result (TranslatesWithTotals R.remaining W.contents reader.old reader.new
        writer.old writer.new (check_tm_text managed.now) (check_tm_counts managed.now)
        managed.now.max_octets) }
    // A fault has its cause (`IsCaused`), and a prefix of the listing of what was read is written.
    ensures fault { IfErr result (Stops R.remaining W.contents reader.old reader.new
        writer.old writer.new (check_tm_text managed.now) managed.now.max_octets chunk_size) }
    // Memory is never refused, as `no_memory` says: this clause follows from that one.
    ensures memory { IfErr result (λ fault. fault ≡ LinkFault.Memory
        → MayRefuseMemoryAtSome R.remaining reader.old reader.new
        (tm_frames_of managed.now.tm_length) (IsIncompleteAtLastTm managed.now)) }
    ensures no_memory { result ≢ Err LinkFault.Memory }
{
    let mut buffer = [0; CHUNK_SIZE];
    let mut verb = Check::<PacketCounter>::begin(alloc, managed);
    list(managed, &mut verb, reader, writer, &mut buffer)
}

/// Reads a recording of TC transfer frames to its end, and writes a line for each anomaly of it,
/// and then one of its totals (docs/listings.md).
///
/// It keeps what was read last and the lines that aren't written yet, at most 65,536 octets each,
/// one frame at most that began in an earlier read, the FARM-1 of 64 virtual channels, and for each
/// of the 4,096 MAPs 48 octets at most, which count its incomplete series. No clause says what is
/// kept: that is seen by reading.
///
/// The fault is `Read` or `Write` where the reader or the writer had one, `TooLong` where more
/// octets came than the managed limit, and `Memory` where memory was refused. Memory is refused
/// only where the unit of a frame is accepted and a series is incomplete on its MAP, before the
/// frame or after it.
#[inline(never)]
pub fn check_tc<R: Read, W: Write>(
    alloc: Global,
    managed: &Managed,
    reader: &mut Counted<R>,
    writer: &mut Counted<W>,
) -> Result<Totals, LinkFault>
    // All is read, and its listing is written and nothing else.
    ensures listing { OnOk result (Translates R.remaining W.contents reader.old reader.new
        writer.old writer.new (check_tc_text managed.now) managed.now.max_octets) }
    // The totals are those of what was read.
    ensures totals { IfOk result (TranslatesWithTotals R.remaining W.contents reader.old reader.new
        writer.old writer.new (check_tc_text managed.now) (check_tc_counts managed.now)
        managed.now.max_octets) }
    // A fault has its cause (`IsCaused`), and a prefix of the listing of what was read is written.
    ensures fault { IfErr result (Stops R.remaining W.contents reader.old reader.new
        writer.old writer.new (check_tc_text managed.now) managed.now.max_octets chunk_size) }
    // Memory is refused only where the unit of a frame is accepted and a series is incomplete on
    // its MAP, before the frame or after it.
    ensures memory { IfErr result (λ fault. fault ≡ LinkFault.Memory
        → MayRefuseMemoryAtSome R.remaining reader.old reader.new
        (tc_frames_of (tc_format managed.now)) (IsIncompleteAtLastTc managed.now)) }
{
    let mut buffer = [0; CHUNK_SIZE];
    let mut verb = Check::<UnitCounter>::begin(alloc, managed);
    list(managed, &mut verb, reader, writer, &mut buffer)
}

/// Reads a recording of TM transfer frames to its end, and writes a line for each packet that its
/// frames deliver, in the order of the frames in which they end (docs/listings.md).
///
/// It keeps what was read last and the lines that aren't written yet, at most 65,536 octets each,
/// one frame at most that began in an earlier read, and the packet that is incomplete on each
/// virtual channel. No clause says what is kept: that is seen by reading.
///
/// The fault is `Read` or `Write` where the reader or the writer had one, `TooLong` where more
/// octets came than the managed limit, and `Memory` where memory was refused. Memory is refused
/// only where a packet is incomplete on the virtual channel of a frame, before the frame or after
/// it.
#[inline(never)]
pub fn packets_tm<R: Read, W: Write>(
    alloc: Global,
    managed: &Managed,
    reader: &mut Counted<R>,
    writer: &mut Counted<W>,
) -> Result<Totals, LinkFault>
    // All is read, and its listing is written and nothing else.
    ensures listing { OnOk result (Translates R.remaining W.contents reader.old reader.new
        writer.old writer.new (packets_tm_text managed.now) managed.now.max_octets) }
    // The totals are those of what was read.
    ensures totals { IfOk result (TranslatesWithTotals R.remaining W.contents reader.old reader.new
        writer.old writer.new (packets_tm_text managed.now) (tm_counts managed.now)
        managed.now.max_octets) }
    // A fault has its cause (`IsCaused`), and a prefix of the listing of what was read is written.
    ensures fault { IfErr result (Stops R.remaining W.contents reader.old reader.new
        writer.old writer.new (packets_tm_text managed.now) managed.now.max_octets chunk_size) }
    // Memory is refused only where a packet is incomplete on the virtual channel of a frame, before
    // or after it.
    ensures memory { IfErr result (λ fault. fault ≡ LinkFault.Memory
        → MayRefuseMemoryAtSome R.remaining reader.old reader.new
        (tm_frames_of managed.now.tm_length) (IsIncompleteAtLastTm managed.now)) }
{
    let mut buffer = [0; CHUNK_SIZE];
    let mut verb = ListPackets::<Extractor>::begin(alloc, managed);
    list(managed, &mut verb, reader, writer, &mut buffer)
}

/// Reads a recording of TC transfer frames to its end, and writes a line for each packet that its
/// frames deliver, in the order of the frames that end the packets' series (docs/listings.md).
///
/// It keeps what was read last and the lines that aren't written yet, at most 65,536 octets each,
/// one frame at most that began in an earlier read, the FARM-1 of 64 virtual channels, and the
/// series of segments that is incomplete on each MAP. No clause says what is kept: that is seen by
/// reading.
///
/// The fault is `Read` or `Write` where the reader or the writer had one, `TooLong` where more
/// octets came than the managed limit, and `Memory` where memory was refused. Memory is refused
/// only where the unit of a frame is accepted and a series is incomplete on its MAP, before the
/// frame or after it.
#[inline(never)]
pub fn packets_tc<R: Read, W: Write>(
    alloc: Global,
    managed: &Managed,
    reader: &mut Counted<R>,
    writer: &mut Counted<W>,
) -> Result<Totals, LinkFault>
    // All is read, and its listing is written and nothing else.
    ensures listing { OnOk result (Translates R.remaining W.contents reader.old reader.new
        writer.old writer.new (packets_tc_text managed.now) managed.now.max_octets) }
    // The totals are those of what was read.
    ensures totals { IfOk result (TranslatesWithTotals R.remaining W.contents reader.old reader.new
        writer.old writer.new (packets_tc_text managed.now) (tc_counts managed.now)
        managed.now.max_octets) }
    // A fault has its cause (`IsCaused`), and a prefix of the listing of what was read is written.
    ensures fault { IfErr result (Stops R.remaining W.contents reader.old reader.new
        writer.old writer.new (packets_tc_text managed.now) managed.now.max_octets chunk_size) }
    // Memory is refused only where the unit of a frame is accepted and a series is incomplete on
    // its MAP, before the frame or after it.
    ensures memory { IfErr result (λ fault. fault ≡ LinkFault.Memory
        → MayRefuseMemoryAtSome R.remaining reader.old reader.new
        (tc_frames_of (tc_format managed.now)) (IsIncompleteAtLastTc managed.now)) }
{
    let mut buffer = [0; CHUNK_SIZE];
    let mut verb = ListPackets::<Receiver>::begin(alloc, managed);
    list(managed, &mut verb, reader, writer, &mut buffer)
}
