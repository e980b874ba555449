//! The normal form of a recording.
ghost use Rattle.std.specs.Prelude.{◌≡◌, ◌≢◌, ℕ, List, [], IfOk, IfErr, OnErr, OnOk};
ghost use Rattle.sl_tcframe.specs.TcDelimited.{tc_frames_of};
ghost use Rattle.sl_tmframe.specs.TmDelimited.{tm_frames_of};
ghost use Rattle.sl_engine.specs.Kind.Delivery.{AddsByChannel, AreStored, MayRefuseStoreMemory, counts_in, packets_by_channel};
ghost use Rattle.sl_engine.specs.Kind.Tc.{MayRefuseStoreMemoryTc, tc_counts, tc_packets};
ghost use Rattle.sl_engine.specs.Kind.Tm.{MayRefuseStoreMemoryTm, tm_counts, tm_packets};
ghost use Rattle.sl_engine.specs.Link.Managed.{tc_format};
ghost use Rattle.sl_engine.specs.Normalise.Form.{HasSome, IsMemoryRefused, StoresAll, channel_lists, form_text};
ghost use Rattle.sl_engine.specs.Normalise.Tc.{tc_normal_form};
ghost use Rattle.sl_engine.specs.Normalise.Tm.{tm_normal_form};
ghost use Rattle.sl_engine.specs.Tally.{recording_counts};
ghost use Rattle.sl_engine.specs.Io.Streams.{HasText, IsRead, KeepsPackets, Stops, StopsReading, StopsWriting, Translates, TranslatesWithTotals, WritesText};
ghost use Rattle.sl_engine.specs.Framing.{MayRefuseMemoryAtSome, MayRefuseMemoryIn, chunk_size};

mod form;

use crate::framing::{CHUNK_SIZE, FrameSink, Framer, cut_chunk, read_recording};
use crate::kind::Deliverer;
use crate::link::managed::Managed;
use crate::link::totals::Totals;
use crate::normalise::form::write_form;
use sl_io::{Counted, LinkFault};
use sl_packet::Delivered;
use sl_tcflow::{Receiver, TcForm};
use sl_tmflow::{Extractor, TmForm};
use std::alloc::Global;
use std::io::{Read, Write};

/// Reads a recording of TM transfer frames to its end, and then writes the normal form of the
/// packets that its frames deliver (docs/normal-form.md).
///
/// It keeps these packets. While it reads, it also keeps what was read last, at most 65,536 octets,
/// one frame at most that began in an earlier read, and the packet that is incomplete on each
/// virtual channel. While it writes, it also keeps octets of the normal form that aren't written
/// yet, at most 262,144 (65,536 that wait, and room for a piece). No clause says what is kept: that
/// is seen by reading.
///
/// The fault is `Read` or `Write` where the reader or the writer had one, `TooLong` where more
/// octets came than the managed limit, and `Memory` where memory was refused. Memory is refused
/// only where a packet is incomplete on the virtual channel of a frame, before the frame or after
/// it, or where a packet was delivered. After `Write` the writer has a prefix of the normal form;
/// after another fault nothing was written.
pub fn normalise_tm<R: Read, W: Write>(
    alloc: Global,
    managed: &Managed,
    reader: &mut Counted<R>,
    writer: &mut Counted<W>,
) -> Result<Totals, LinkFault>
    // All is read, and the normal form of it is written and nothing else.
    ensures normal_form { OnOk result (Translates R.remaining W.contents reader.old reader.new
        writer.old writer.new (tm_normal_form managed.now) managed.now.max_octets) }
    // The totals are those of what was read.
    ensures totals { IfOk result (TranslatesWithTotals R.remaining W.contents reader.old reader.new
        writer.old writer.new (tm_normal_form managed.now) (tm_counts managed.now)
        managed.now.max_octets) }
    // The normal form delivers the packets of the recording.
    ensures packets { OnOk result (KeepsPackets R.remaining W.contents reader.old reader.new
        writer.old writer.new (tm_packets managed.now)) }
    // A fault has its cause (`IsCaused`), and a prefix of the normal form of what was read is
    // written.
    ensures fault { IfErr result (Stops R.remaining W.contents reader.old reader.new
        writer.old writer.new (tm_normal_form managed.now) managed.now.max_octets chunk_size) }
    // After a fault something is written only if the writer failed, and then all was read.
    ensures all_read { IfErr result (λ fault. fault ≡ LinkFault.Write
        → IsRead R.remaining reader.new) }
    ensures nothing { IfErr result (λ fault. fault ≢ LinkFault.Write → writer.new ≡ writer.old) }
    // The writer fails only where the normal form has an octet.
    ensures some { IfErr result (λ fault. fault ≡ LinkFault.Write
        → HasText R.remaining reader.old reader.new (tm_normal_form managed.now)) }
    // Memory is refused only where a packet is incomplete before a frame or after it, or was
    // delivered.
    ensures memory { IfErr result (λ fault. fault ≡ LinkFault.Memory
        → MayRefuseMemoryAtSome R.remaining reader.old reader.new
        (tm_frames_of managed.now.tm_length) (MayRefuseStoreMemoryTm managed.now)) }
{
    normalise::<Extractor, R, W>(alloc, managed, reader, writer)
}

/// Reads a recording of TC transfer frames to its end, and then writes the normal form of the
/// packets that its frames deliver, on each virtual channel and MAP (docs/normal-form.md).
///
/// It keeps these packets. While it reads, it also keeps what was read last, at most 65,536 octets,
/// one frame at most that began in an earlier read, the FARM-1 of 64 virtual channels, and the
/// series that is incomplete on each MAP. While it writes, it also keeps octets of the normal form
/// that aren't written yet, at most 262,144 (65,536 that wait, and room for a piece). No clause
/// says what is kept: that is seen by reading.
///
/// The fault is `Read` or `Write` where the reader or the writer had one, `TooLong` where more
/// octets came than the managed limit, and `Memory` where memory was refused. Memory is refused
/// only where the unit of a frame is accepted and a series is incomplete on its MAP, before the
/// frame or after it, or where a packet was delivered. After `Write` the writer has a prefix of the
/// normal form; after another fault nothing was written.
pub fn normalise_tc<R: Read, W: Write>(
    alloc: Global,
    managed: &Managed,
    reader: &mut Counted<R>,
    writer: &mut Counted<W>,
) -> Result<Totals, LinkFault>
    // All is read, and the normal form of it is written and nothing else.
    ensures normal_form { OnOk result (Translates R.remaining W.contents reader.old reader.new
        writer.old writer.new (tc_normal_form managed.now) managed.now.max_octets) }
    // The totals are those of what was read.
    ensures totals { IfOk result (TranslatesWithTotals R.remaining W.contents reader.old reader.new
        writer.old writer.new (tc_normal_form managed.now) (tc_counts managed.now)
        managed.now.max_octets) }
    // The normal form delivers the packets of the recording.
    ensures packets { OnOk result (KeepsPackets R.remaining W.contents reader.old reader.new
        writer.old writer.new (tc_packets managed.now)) }
    // A fault has its cause (`IsCaused`), and a prefix of the normal form of what was read is
    // written.
    ensures fault { IfErr result (Stops R.remaining W.contents reader.old reader.new
        writer.old writer.new (tc_normal_form managed.now) managed.now.max_octets chunk_size) }
    // After a fault something is written only if the writer failed, and then all was read.
    ensures all_read { IfErr result (λ fault. fault ≡ LinkFault.Write
        → IsRead R.remaining reader.new) }
    ensures nothing { IfErr result (λ fault. fault ≢ LinkFault.Write → writer.new ≡ writer.old) }
    // The writer fails only where the normal form has an octet.
    ensures some { IfErr result (λ fault. fault ≡ LinkFault.Write
        → HasText R.remaining reader.old reader.new (tc_normal_form managed.now)) }
    // Memory is refused only where a series is incomplete before a frame or after it, or a packet
    // was delivered.
    ensures memory { IfErr result (λ fault. fault ≡ LinkFault.Memory
        → MayRefuseMemoryAtSome R.remaining reader.old reader.new
        (tc_frames_of (tc_format managed.now)) (MayRefuseStoreMemoryTc managed.now)) }
{
    normalise::<Receiver, R, W>(alloc, managed, reader, writer)
}

/// The normal form of the packets of a kind of frames.
trait Formed: Deliverer {
    ghost use Rattle.sl_engine.specs.Link.Managed.{Parameters};

    /// The normal form of lists of packets, one for each channel.
    ghost form_of: { Parameters → List (List (List ℕ)) → List ℕ };

    /// Writes the normal form of the delivered packets of a recording.
    fn write<W: Write>(
        alloc: Global,
        managed: &Managed,
        delivered: &Delivered,
        writer: &mut Counted<W>,
    ) -> Result<(), LinkFault>
        // The packets are those of a recording.
        requires { (recording : List ℕ) × AreStored (Self.kind managed.now)
            ((Self.kind managed.now).frames_of recording) delivered.now.lists }
        ensures written { OnOk result (WritesText W.contents writer.old writer.new
            (form_of managed.now (channel_lists (Self.kind managed.now) delivered.now.lists))) }
        // Not about what this call does: the normal form delivers these packets again.
        ensures delivers { packets_by_channel (Self.kind managed.now)
            (form_of managed.now (channel_lists (Self.kind managed.now) delivered.now.lists))
            ≡ channel_lists (Self.kind managed.now) delivered.now.lists }
        // Nothing is written where memory was refused, and it is refused only where there are
        // packets.
        ensures fault { IfErr result (StopsWriting W.contents writer.old writer.new
            (form_of managed.now (channel_lists (Self.kind managed.now) delivered.now.lists))
            ((writer.new ≡ writer.old) × HasSome (Self.kind managed.now) delivered.now.lists)) }
        ensures some { OnErr result
            (form_of managed.now (channel_lists (Self.kind managed.now) delivered.now.lists) ≢ []) };
}

impl Formed for Extractor {
    ghost use Rattle.sl_engine.specs.Normalise.Tm.{tm_form_of};

    ghost form_of = { tm_form_of };

    fn write<W: Write>(
        alloc: Global,
        managed: &Managed,
        delivered: &Delivered,
        writer: &mut Counted<W>,
    ) -> Result<(), LinkFault> {
        let mut form = TmForm::new(alloc, &managed.tm, managed.spacecraft, delivered);
        write_form(alloc, &mut form, writer)
    }
}

impl Formed for Receiver {
    ghost use Rattle.sl_engine.specs.Normalise.Tc.{tc_form_of};

    ghost form_of = { tc_form_of };

    fn write<W: Write>(
        alloc: Global,
        managed: &Managed,
        delivered: &Delivered,
        writer: &mut Counted<W>,
    ) -> Result<(), LinkFault> {
        let mut form = TcForm::new(
            managed.tc,
            managed.spacecraft,
            managed.starts,
            managed.plain,
            delivered,
        );
        write_form(alloc, &mut form, writer)
    }
}

// Reads a recording to its end, and then writes the normal form of the packets that its frames
// deliver.
fn normalise<D: Formed, R: Read, W: Write>(
    alloc: Global,
    managed: &Managed,
    reader: &mut Counted<R>,
    writer: &mut Counted<W>,
) -> Result<Totals, LinkFault>
    ensures normal_form { OnOk result (Translates R.remaining W.contents reader.old reader.new
        writer.old writer.new (form_text (D.kind managed.now) (D.form_of managed.now))
        managed.now.max_octets) }
    ensures totals { IfOk result (TranslatesWithTotals R.remaining W.contents reader.old reader.new
        writer.old writer.new (form_text (D.kind managed.now) (D.form_of managed.now))
        (recording_counts (counts_in (D.kind managed.now)) (D.kind managed.now).frames_of)
        managed.now.max_octets) }
    ensures packets { OnOk result (KeepsPackets R.remaining W.contents reader.old reader.new
        writer.old writer.new (packets_by_channel (D.kind managed.now))) }
    ensures fault { IfErr result (Stops R.remaining W.contents reader.old reader.new
        writer.old writer.new (form_text (D.kind managed.now) (D.form_of managed.now))
        managed.now.max_octets chunk_size) }
    ensures all_read { IfErr result (λ fault. fault ≡ LinkFault.Write
        → IsRead R.remaining reader.new) }
    ensures nothing { IfErr result (λ fault. fault ≢ LinkFault.Write → writer.new ≡ writer.old) }
    ensures some { IfErr result (λ fault. fault ≡ LinkFault.Write → HasText R.remaining reader.old
        reader.new (form_text (D.kind managed.now) (D.form_of managed.now))) }
    ensures memory { IfErr result (λ fault. fault ≡ LinkFault.Memory
        → MayRefuseMemoryAtSome R.remaining reader.old reader.new (D.kind managed.now).frames_of
        (MayRefuseStoreMemory (D.kind managed.now) (D.is_incomplete_at_last managed.now))) }
{
    let (delivered, totals) = store_packets::<D, R>(alloc, managed, reader)?;
    D::write(alloc, managed, &delivered, writer)?;
    Ok(totals)
}

/// Reads a recording to its end, and stores the packets that its frames deliver.
// Apart from `run_engine`, as the listings are.
#[inline(never)]
pub fn store_packets<D: Deliverer, R: Read>(
    alloc: Global,
    managed: &Managed,
    reader: &mut Counted<R>,
) -> Result<(Delivered, Totals), LinkFault>
    ensures all { IfOk result (λ stored. StoresAll R.remaining reader.old reader.new
        (D.kind managed.now) managed.now.max_octets stored.0.lists stored.1) }
    ensures stopped { IfErr result (StopsReading R.remaining reader.old reader.new
        managed.now.max_octets chunk_size) }
    ensures memory { IfErr result (λ fault. fault ≡ LinkFault.Memory
        → MayRefuseMemoryAtSome R.remaining reader.old reader.new (D.kind managed.now).frames_of
        (MayRefuseStoreMemory (D.kind managed.now) (D.is_incomplete_at_last managed.now))) }
{
    let mut buffer = [0; CHUNK_SIZE];
    let mut store = Store {
        deliverer: D::begin(alloc, managed),
        so_far: Totals::none(),
        delivered: Delivered::new(alloc),
    };
    let octets = read_recording(managed, &mut store, reader, &mut buffer)?;
    let Store {
        so_far,
        delivered,
        ..
    } = store;
    Ok((
        delivered,
        so_far.with_remainder(octets - so_far.octets(), 0),
    ))
}

/// Stores the packets that the frames of a recording in memory deliver.
pub fn store_packets_in_memory<D: Deliverer>(
    alloc: Global,
    managed: &Managed,
    recording: &[u8],
) -> Result<Delivered, LinkFault>
    // `AddsByChannel` holds of the kind. A caller has no deliverer that could say so (`within`),
    // and gets by it from what is stored to `packets_by_channel`.
    ensures all { IfOk result (λ stored. AddsByChannel (D.kind managed.now)
        × AreStored (D.kind managed.now) ((D.kind managed.now).frames_of recording.now)
        stored.lists) }
    ensures memory { IfErr result (IsMemoryRefused (MayRefuseMemoryIn (D.kind managed.now).frames_of
        (MayRefuseStoreMemory (D.kind managed.now) (D.is_incomplete_at_last managed.now))
        recording.now)) }
{
    let mut framer = D::Framer::begin(managed);
    let mut store = Store {
        deliverer: D::begin(alloc, managed),
        so_far: Totals::none(),
        delivered: Delivered::new(alloc),
    };
    cut_chunk(managed, &mut framer, &mut store, recording)?;
    let Store { delivered, .. } = store;
    Ok(delivered)
}

// Stores the packets that frames deliver.
#[derive(Drop)]
struct Store<D: Deliverer> {
    deliverer: D,
    so_far: Totals,
    delivered: Delivered,
}

impl<D: Deliverer> FrameSink for Store<D> {
    ghost use Rattle.sl_engine.specs.Kind.Delivery.{AreStored, HasDelivered, MayRefuseStoreMemory};
    ghost use Rattle.sl_engine.specs.Normalise.Form.{IsMemoryRefused};

    type Framer = D::Framer;

    // What holds of the store, `now`, after these frames, whatever store it was at the `start`. It
    // counts no anomalies: that is the 0.
    ghost took = { λ p start now frames. HasDelivered (D.kind p) (D.has_processed now.deliverer p)
        frames 0 now.so_far × AreStored (D.kind p) frames now.delivered.lists };

    ghost stopped = { λ p start now frames fault. IsMemoryRefused (MayRefuseStoreMemory (D.kind p)
        (D.is_incomplete_at_last p) frames) fault };

    fn frame(&mut self, managed: &Managed, frame: &[u8]) -> Result<(), LinkFault> {
        let (report, _) = self.deliverer.deliver(managed, frame, &mut self.delivered)?;
        self.so_far.add(frame.len() as u64, report);
        Ok(())
    }

    fn pause(&mut self) -> Result<(), LinkFault> {
        Ok(())
    }
}
