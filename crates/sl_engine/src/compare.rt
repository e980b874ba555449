//! Which packets only one of two recordings delivers.
ghost use Rattle.std.specs.Prelude.{◌≡◌, ◌⊎◌, ◌<◌, ◌-◌, ⊤, IfOk, IfErr, IfSome, IfNone, OnOk, true, false};
ghost use Rattle.sl_tcframe.specs.TcDelimited.{tc_frames_of};
ghost use Rattle.sl_tmframe.specs.TmDelimited.{tm_frames_of};
ghost use Rattle.sl_engine.specs.Compare.{Compares, ReadsBeginning};
ghost use Rattle.sl_engine.specs.Compare.Signs.{signs_by};
ghost use Rattle.sl_engine.specs.Compare.Summarised.{recording_summary, summary_in, tc_summary, tm_summary};
ghost use Rattle.sl_engine.specs.Compare.Text.{difference_text};
ghost use Rattle.sl_pair.specs.Pairing.{ByChannel, StandsAfter};
ghost use Rattle.sl_engine.specs.Verbs.Packets.Tc.{tc_channel_name};
ghost use Rattle.sl_engine.specs.Verbs.Packets.Tm.{tm_channel_name};
ghost use Rattle.sl_engine.specs.Io.Streams.{StopsReading, StopsWriting, WritesText};
ghost use Rattle.sl_engine.specs.Kind.Delivery.{MayRefuseStoreMemory, packets_by_channel};
ghost use Rattle.sl_engine.specs.Kind.Tc.{MayRefuseStoreMemoryTc, tc_packets};
ghost use Rattle.sl_engine.specs.Kind.Tm.{MayRefuseStoreMemoryTm, tm_packets};
ghost use Rattle.sl_engine.specs.Link.Managed.{tc_format};
ghost use Rattle.sl_engine.specs.Verbs.Check.Lines.{anomalies_by};
ghost use Rattle.sl_engine.specs.Framing.{MayRefuseMemoryAtSome, chunk_size};

mod signs;
mod summary;
mod text;
mod turns;
mod words;

use crate::framing::CHUNK_SIZE;
use crate::link::managed::Managed;
use crate::verbs::packets::printer::ChannelName;
pub use signs::Signs;
use sl_io::{Counted, LinkFault};
use sl_pair::{Answer, Pairing, Station};
use sl_tcflow::Receiver;
use sl_tmflow::Extractor;
use std::alloc::Global;
use std::hash::BuildHasher;
use std::io::{Read, Write};
use summary::Summarised;
pub use summary::Summary;
use text::write_left;
use turns::{Recording, read_turn};
pub use words::{CheckWord, WordCounts};

/// How two recordings compare.
#[derive(Drop)]
pub struct Compared<S: BuildHasher + Copy> {
    /// Whether both deliver the same packets.
    pub answer: Answer,
    /// The numbers of the first recording.
    pub first: Summary,
    /// The numbers of the second recording.
    pub second: Summary,
    /// What is left of both: the packets that only one of them delivers.
    pub left: Pairing<S>,
}

/// Reads two recordings of TM transfer frames to their ends, in turns, and answers which packets
/// only one of them delivers on each virtual channel, idle packets left out. Each recording has
/// managed parameters of its own. No clause says in which turns they are read, or what is kept
/// meanwhile: that is seen by reading.
pub fn compare_tm<A: Read, B: Read, S: BuildHasher + Copy>(
    alloc: Global,
    hasher: S,
    one_managed: &Managed,
    one: &mut Counted<A>,
    other_managed: &Managed,
    other: &mut Counted<B>,
) -> Result<Compared<S>, LinkFault>
    // Both recordings are read to their ends, and their packets are compared.
    ensures compared { IfOk result (Compares A.remaining B.remaining one.old one.new other.old
        other.new (tm_packets one_managed.now) (tm_packets other_managed.now)
        (tm_summary one_managed.now) (tm_summary other_managed.now)
        one_managed.now.max_octets other_managed.now.max_octets) }
    // A fault has its cause at one of the recordings, and the beginning of the other one was read.
    ensures fault { IfErr result (λ fault. (StopsReading A.remaining one.old one.new
        one_managed.now.max_octets chunk_size fault
        × ReadsBeginning B.remaining other.old other.new other_managed.now.max_octets)
        ⊎ (ReadsBeginning A.remaining one.old one.new one_managed.now.max_octets
        × StopsReading B.remaining other.old other.new other_managed.now.max_octets chunk_size
        fault)) }
    // Memory is refused only where, in one recording, a packet is incomplete before a frame or
    // after it, or was delivered.
    ensures memory { IfErr result (λ fault. fault ≡ LinkFault.Memory
        → MayRefuseMemoryAtSome A.remaining one.old one.new
        (tm_frames_of one_managed.now.tm_length) (MayRefuseStoreMemoryTm one_managed.now)
        ⊎ MayRefuseMemoryAtSome B.remaining other.old other.new
        (tm_frames_of other_managed.now.tm_length) (MayRefuseStoreMemoryTm other_managed.now)) }
{
    compare::<Extractor, A, B, S>(alloc, hasher, one_managed, one, other_managed, other)
}

/// Reads two recordings of TC transfer frames to their ends, in turns, and answers which packets
/// FARM-1 lets through in only one of them on each virtual channel and MAP, idle packets left out.
/// Each recording has managed parameters of its own. As in [`compare_tm`], no clause says in which
/// turns they are read, or what is kept.
pub fn compare_tc<A: Read, B: Read, S: BuildHasher + Copy>(
    alloc: Global,
    hasher: S,
    one_managed: &Managed,
    one: &mut Counted<A>,
    other_managed: &Managed,
    other: &mut Counted<B>,
) -> Result<Compared<S>, LinkFault>
    // Both recordings are read to their ends, and their packets are compared.
    ensures compared { IfOk result (Compares A.remaining B.remaining one.old one.new other.old
        other.new (tc_packets one_managed.now) (tc_packets other_managed.now)
        (tc_summary one_managed.now) (tc_summary other_managed.now)
        one_managed.now.max_octets other_managed.now.max_octets) }
    // A fault has its cause at one of the recordings, and the beginning of the other one was read.
    ensures fault { IfErr result (λ fault. (StopsReading A.remaining one.old one.new
        one_managed.now.max_octets chunk_size fault
        × ReadsBeginning B.remaining other.old other.new other_managed.now.max_octets)
        ⊎ (ReadsBeginning A.remaining one.old one.new one_managed.now.max_octets
        × StopsReading B.remaining other.old other.new other_managed.now.max_octets chunk_size
        fault)) }
    // Memory is refused only where, in one recording, a series is incomplete before a frame or
    // after it, or a packet was delivered.
    ensures memory { IfErr result (λ fault. fault ≡ LinkFault.Memory
        → MayRefuseMemoryAtSome A.remaining one.old one.new
        (tc_frames_of (tc_format one_managed.now)) (MayRefuseStoreMemoryTc one_managed.now)
        ⊎ MayRefuseMemoryAtSome B.remaining other.old other.new
        (tc_frames_of (tc_format other_managed.now)) (MayRefuseStoreMemoryTc other_managed.now)) }
{
    compare::<Receiver, A, B, S>(alloc, hasher, one_managed, one, other_managed, other)
}

/// Writes what only one of two recordings of TM transfer frames delivers, by virtual channel,
/// recording, APID and place: a line for each run of packets, as in
/// `< vc 0 apid 100 counts 193..199 packets 7`, or where `each` is true for each packet, as
/// `packets` lists it. The mark `<` is of the first recording, and `>` of the second. In a run each
/// packet is its recording's next one of the APID, and has the next sequence count.
pub fn write_difference_tm<S: BuildHasher + Copy, W: Write>(
    compared: &Compared<S>,
    each: bool,
    writer: &mut Counted<W>,
) -> Result<(), LinkFault>
    // The lines of what is left are written, and nothing else.
    ensures written { OnOk result ((firsts seconds : ByChannel)
        → StandsAfter compared.now.left firsts seconds → WritesText W.contents writer.old writer.new
        (difference_text each tm_channel_name firsts seconds 8)) }
    // The fault is `Write` where the writer had one, or `Memory`, and a prefix of the lines is
    // written.
    ensures fault { IfErr result (λ fault. (firsts seconds : ByChannel)
        → StandsAfter compared.now.left firsts seconds
        → StopsWriting W.contents writer.old writer.new
        (difference_text each tm_channel_name firsts seconds 8) ⊤ fault) }
{
    write_left(&compared.left, ChannelName::VirtualChannel, 8, each, writer)
}

/// Writes what only one of two recordings of TC transfer frames delivers, by virtual channel and
/// MAP, recording, APID and place: a line for each run of packets, as in
/// `> vc 1 map 2 apid 1 counts 16380..3 packets 8`, or where `each` is true for each packet, as
/// `packets` lists it. Marks and runs are those of [`write_difference_tm`].
pub fn write_difference_tc<S: BuildHasher + Copy, W: Write>(
    compared: &Compared<S>,
    each: bool,
    writer: &mut Counted<W>,
) -> Result<(), LinkFault>
    // The lines of what is left are written, and nothing else.
    ensures written { OnOk result ((firsts seconds : ByChannel)
        → StandsAfter compared.now.left firsts seconds → WritesText W.contents writer.old writer.new
        (difference_text each tc_channel_name firsts seconds 4096)) }
    // The fault is `Write` where the writer had one, or `Memory`, and a prefix of the lines is
    // written.
    ensures fault { IfErr result (λ fault. (firsts seconds : ByChannel)
        → StandsAfter compared.now.left firsts seconds
        → StopsWriting W.contents writer.old writer.new
        (difference_text each tc_channel_name firsts seconds 4096) ⊤ fault) }
{
    write_left(&compared.left, ChannelName::Map, 4096, each, writer)
}

// Reads two recordings to their ends, in turns, and answers which packets only one of them
// delivers. The recording with fewer packets so far is read next: what waits for a counterpart is
// then what differs.
fn compare<D: Summarised, A: Read, B: Read, S: BuildHasher + Copy>(
    alloc: Global,
    hasher: S,
    one_managed: &Managed,
    one: &mut Counted<A>,
    other_managed: &Managed,
    other: &mut Counted<B>,
) -> Result<Compared<S>, LinkFault>
    requires channels { (D.kind one_managed.now).channels ≡ (D.kind other_managed.now).channels }
    ensures compared { IfOk result (Compares A.remaining B.remaining one.old one.new other.old
        other.new (packets_by_channel (D.kind one_managed.now))
        (packets_by_channel (D.kind other_managed.now))
        (recording_summary (summary_in (D.kind one_managed.now)
        (anomalies_by D.lines_of (D.found one_managed.now)) (D.open_at one_managed.now)
        (signs_by (D.is_own one_managed.now) (D.is_long one_managed.now)
        (D.begun one_managed.now))) (D.kind one_managed.now).frames_of)
        (recording_summary (summary_in (D.kind other_managed.now)
        (anomalies_by D.lines_of (D.found other_managed.now)) (D.open_at other_managed.now)
        (signs_by (D.is_own other_managed.now) (D.is_long other_managed.now)
        (D.begun other_managed.now))) (D.kind other_managed.now).frames_of)
        one_managed.now.max_octets other_managed.now.max_octets) }
    ensures fault { IfErr result (λ fault. (StopsReading A.remaining one.old one.new
        one_managed.now.max_octets chunk_size fault
        × ReadsBeginning B.remaining other.old other.new other_managed.now.max_octets)
        ⊎ (ReadsBeginning A.remaining one.old one.new one_managed.now.max_octets
        × StopsReading B.remaining other.old other.new other_managed.now.max_octets chunk_size
        fault)) }
    ensures memory { IfErr result (λ fault. fault ≡ LinkFault.Memory
        → MayRefuseMemoryAtSome A.remaining one.old one.new (D.kind one_managed.now).frames_of
        (MayRefuseStoreMemory (D.kind one_managed.now) (D.is_incomplete_at_last one_managed.now))
        ⊎ MayRefuseMemoryAtSome B.remaining other.old other.new (D.kind other_managed.now).frames_of
        (MayRefuseStoreMemory (D.kind other_managed.now)
        (D.is_incomplete_at_last other_managed.now))) }
{
    let mut buffer = [0; CHUNK_SIZE];
    let mut first = Recording::<D>::begin(alloc, one_managed);
    let mut second = Recording::<D>::begin(alloc, other_managed);
    let mut pairing = Pairing::new(alloc, hasher);
    while let Some(station) = next_turn(&first, &second) {
        match station {
            Station::First => read_turn(
                one_managed,
                Station::First,
                &mut first,
                one,
                &mut pairing,
                &mut buffer,
            )?,
            Station::Second => read_turn(
                other_managed,
                Station::Second,
                &mut second,
                other,
                &mut pairing,
                &mut buffer,
            )?,
        }
    }
    Ok(Compared {
        answer: pairing.answer(),
        first: first.summary(),
        second: second.summary(),
        left: pairing,
    })
}

// Whose recording is read next, unless both were read to their ends: the one with fewer packets so
// far.
fn next_turn<D: Summarised>(first: &Recording<D>, second: &Recording<D>) -> Option<Station>
    ensures first { IfSome result (λ station. station ≡ Station.First
        → first.now.is_read ≡ false) }
    ensures second { IfSome result (λ station. station ≡ Station.Second
        → second.now.is_read ≡ false) }
    ensures none { IfNone result ((first.now.is_read ≡ true) × (second.now.is_read ≡ true)) }
{
    let is_first_behind = first.counting.so_far.packets() <= second.counting.so_far.packets();
    match (first.is_read, second.is_read) {
        (true, true) => None,
        (false, true) => Some(Station::First),
        (true, false) => Some(Station::Second),
        (false, false) if is_first_behind => Some(Station::First),
        (false, false) => Some(Station::Second),
    }
}
