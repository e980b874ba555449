//! Whether two recordings deliver the same packets.
ghost use Rattle.std.specs.Prelude.{◌≡◌, ◌⊎◌, ◌↔◌, ◌≤◌, ℕ, List, IsTrue, IfOk, IfErr, OnOk, length, max};
ghost use Rattle.sl_tcframe.specs.TcDelimited.{tc_frames_of};
ghost use Rattle.sl_tmframe.specs.TmDelimited.{tm_frames_of};
ghost use Rattle.sl_engine.specs.Io.Streams.{ReadsAll, StopsReading};
ghost use Rattle.sl_engine.specs.Kind.Delivery.{MayRefuseStoreMemory, packets_by_channel};
ghost use Rattle.sl_engine.specs.Kind.Tc.{MayRefuseStoreMemoryTc, tc_packets};
ghost use Rattle.sl_engine.specs.Kind.Tm.{MayRefuseStoreMemoryTm, tm_packets};
ghost use Rattle.sl_engine.specs.Link.Managed.{tc_format};
ghost use Rattle.sl_engine.specs.Framing.{MayRefuseMemoryAtSome, MayRefuseMemoryIn, chunk_size};
ghost use Rattle.sl_engine.specs.Same.{ComparesPackets, MayRefuseStoreMemoryInTc, MayRefuseStoreMemoryInTm, StopsInMemory};

use crate::kind::Deliverer;
use crate::link::managed::Managed;
use crate::normalise::{store_packets, store_packets_in_memory};
use sl_io::{Counted, LinkFault};
use sl_tcflow::Receiver;
use sl_tmflow::Extractor;
use std::alloc::Global;
use std::io::Read;

/// Reads two recordings of TM transfer frames to their ends, one after the other, and reports
/// whether both deliver the same packets on each virtual channel, idle packets left out. So the
/// answer is true exactly where the normal forms of both are equal octet for octet.
///
/// The call keeps the packets of both recordings. While it reads, it also keeps what was read last,
/// at most 65,536 octets, of each recording one frame at most that began in an earlier read, and
/// the packet that is incomplete on each virtual channel. No clause says what is kept: that is seen
/// by reading.
///
/// The fault is `Read` where a reader had one, `TooLong` where more octets came from a reader than
/// the managed limit, and `Memory` where memory was refused. Memory is refused only where a packet
/// is incomplete on the virtual channel of a frame, before the frame or after it, or where a packet
/// was delivered. Where the first recording isn't read to its end, nothing is read of the other
/// one.
pub fn same_packets_tm<A: Read, B: Read>(
    alloc: Global,
    managed: &Managed,
    one: &mut Counted<A>,
    other: &mut Counted<B>,
) -> Result<bool, LinkFault>
    // Both recordings are read to their ends, and the answer is true exactly where their packets
    // are the same.
    ensures same { IfOk result (ComparesPackets A.remaining B.remaining one.old one.new other.old
        other.new (tm_packets managed.now) managed.now.max_octets) }
    // A fault has its cause: at the first recording, and nothing was read of the other; or at the
    // other, once the first was read to its end.
    ensures fault { IfErr result (λ fault. (StopsReading A.remaining one.old one.new
        managed.now.max_octets chunk_size fault × (other.new ≡ other.old))
        ⊎ (((octets : List ℕ) × ReadsAll A.remaining one.old one.new managed.now.max_octets octets)
        × StopsReading B.remaining other.old other.new managed.now.max_octets chunk_size fault)) }
    // Memory is refused only where, in one recording, a packet is incomplete before a frame or
    // after it, or was delivered.
    ensures memory { IfErr result (λ fault. fault ≡ LinkFault.Memory
        → MayRefuseMemoryAtSome A.remaining one.old one.new (tm_frames_of managed.now.tm_length)
        (MayRefuseStoreMemoryTm managed.now) ⊎ MayRefuseMemoryAtSome B.remaining other.old other.new
        (tm_frames_of managed.now.tm_length) (MayRefuseStoreMemoryTm managed.now)) }
{
    same_packets::<Extractor, A, B>(alloc, managed, one, other)
}

/// Reads two recordings of TC transfer frames to their ends, one after the other, and reports
/// whether FARM-1 lets the same packets of both through on each virtual channel and MAP, idle
/// packets left out. So the answer is true exactly where the normal forms of both are equal octet
/// for octet.
///
/// The call keeps the packets of both recordings. While it reads, it also keeps what was read last,
/// at most 65,536 octets, of each recording one frame at most that began in an earlier read, the
/// FARM-1 of 64 virtual channels, and the series that is incomplete on each MAP. No clause says
/// what is kept: that is seen by reading.
///
/// The fault is `Read` where a reader had one, `TooLong` where more octets came from a reader than
/// the managed limit, and `Memory` where memory was refused. Memory is refused only where the unit
/// of a frame is accepted and a series is incomplete on its MAP, before the frame or after it, or
/// where a packet was delivered. Where the first recording isn't read to its end, nothing is read
/// of the other one.
pub fn same_packets_tc<A: Read, B: Read>(
    alloc: Global,
    managed: &Managed,
    one: &mut Counted<A>,
    other: &mut Counted<B>,
) -> Result<bool, LinkFault>
    // Both recordings are read to their ends, and the answer is true exactly where their packets
    // are the same.
    ensures same { IfOk result (ComparesPackets A.remaining B.remaining one.old one.new other.old
        other.new (tc_packets managed.now) managed.now.max_octets) }
    // A fault has its cause: at the first recording, and nothing was read of the other; or at the
    // other, once the first was read to its end.
    ensures fault { IfErr result (λ fault. (StopsReading A.remaining one.old one.new
        managed.now.max_octets chunk_size fault × (other.new ≡ other.old))
        ⊎ (((octets : List ℕ) × ReadsAll A.remaining one.old one.new managed.now.max_octets octets)
        × StopsReading B.remaining other.old other.new managed.now.max_octets chunk_size fault)) }
    // Memory is refused only where, in one recording, a series is incomplete before a frame or
    // after it, or a packet was delivered.
    ensures memory { IfErr result (λ fault. fault ≡ LinkFault.Memory
        → MayRefuseMemoryAtSome A.remaining one.old one.new (tc_frames_of (tc_format managed.now))
        (MayRefuseStoreMemoryTc managed.now) ⊎ MayRefuseMemoryAtSome B.remaining other.old other.new
        (tc_frames_of (tc_format managed.now)) (MayRefuseStoreMemoryTc managed.now)) }
{
    same_packets::<Receiver, A, B>(alloc, managed, one, other)
}

// Reads two recordings to their ends, one after the other, and reports whether both deliver the
// same packets.
fn same_packets<D: Deliverer, A: Read, B: Read>(
    alloc: Global,
    managed: &Managed,
    one: &mut Counted<A>,
    other: &mut Counted<B>,
) -> Result<bool, LinkFault>
    ensures same { IfOk result (ComparesPackets A.remaining B.remaining one.old one.new other.old
        other.new (packets_by_channel (D.kind managed.now)) managed.now.max_octets) }
    ensures fault { IfErr result (λ fault. (StopsReading A.remaining one.old one.new
        managed.now.max_octets chunk_size fault × (other.new ≡ other.old))
        ⊎ (((octets : List ℕ) × ReadsAll A.remaining one.old one.new managed.now.max_octets octets)
        × StopsReading B.remaining other.old other.new managed.now.max_octets chunk_size fault)) }
    ensures memory { IfErr result (λ fault. fault ≡ LinkFault.Memory
        → MayRefuseMemoryAtSome A.remaining one.old one.new (D.kind managed.now).frames_of
        (MayRefuseStoreMemory (D.kind managed.now) (D.is_incomplete_at_last managed.now))
        ⊎ MayRefuseMemoryAtSome B.remaining other.old other.new (D.kind managed.now).frames_of
        (MayRefuseStoreMemory (D.kind managed.now) (D.is_incomplete_at_last managed.now))) }
{
    let (stored, _) = store_packets::<D, A>(alloc, managed, one)?;
    let (others, _) = store_packets::<D, B>(alloc, managed, other)?;
    Ok(stored.has_same_packets(&others))
}

/// Reports whether two recordings of TM transfer frames in memory deliver the same packets on each
/// virtual channel, idle packets left out.
///
/// The fault is `TooLong` where a recording has more octets than the managed limit, and else
/// `Memory`, where memory was refused. Memory is refused only where a packet is incomplete on the
/// virtual channel of a frame, before the frame or after it, or where a packet was delivered.
pub fn same_packets_in_memory_tm(
    alloc: Global,
    managed: &Managed,
    one: &[u8],
    other: &[u8],
) -> Result<bool, LinkFault>
    ensures same { IfOk result (λ same. IsTrue same
        ↔ (tm_packets managed.now one.now ≡ tm_packets managed.now other.now)) }
    ensures within { OnOk result (max (length one.now) (length other.now)
        ≤ managed.now.max_octets) }
    // Memory is refused only where, in one recording, a packet is incomplete before a frame or
    // after it, or was delivered.
    ensures fault { IfErr result (StopsInMemory managed.now.max_octets
        (max (length one.now) (length other.now)) (MayRefuseStoreMemoryInTm managed.now one.now
        ⊎ MayRefuseStoreMemoryInTm managed.now other.now)) }
{
    same_packets_in_memory::<Extractor>(alloc, managed, one, other)
}

/// Reports whether FARM-1 lets the same packets of two recordings of TC transfer frames in memory
/// through on each virtual channel and MAP, idle packets left out.
///
/// The fault is `TooLong` where a recording has more octets than the managed limit, and else
/// `Memory`, where memory was refused. Memory is refused only where the unit of a frame is accepted
/// and a series is incomplete on its MAP, before the frame or after it, or where a packet was
/// delivered.
pub fn same_packets_in_memory_tc(
    alloc: Global,
    managed: &Managed,
    one: &[u8],
    other: &[u8],
) -> Result<bool, LinkFault>
    ensures same { IfOk result (λ same. IsTrue same
        ↔ (tc_packets managed.now one.now ≡ tc_packets managed.now other.now)) }
    ensures within { OnOk result (max (length one.now) (length other.now)
        ≤ managed.now.max_octets) }
    // Memory is refused only where, in one recording, a series is incomplete before a frame or
    // after it, or a packet was delivered.
    ensures fault { IfErr result (StopsInMemory managed.now.max_octets
        (max (length one.now) (length other.now)) (MayRefuseStoreMemoryInTc managed.now one.now
        ⊎ MayRefuseStoreMemoryInTc managed.now other.now)) }
{
    same_packets_in_memory::<Receiver>(alloc, managed, one, other)
}

// Reports whether two recordings in memory deliver the same packets.
fn same_packets_in_memory<D: Deliverer>(
    alloc: Global,
    managed: &Managed,
    one: &[u8],
    other: &[u8],
) -> Result<bool, LinkFault>
    ensures same { IfOk result (λ same. IsTrue same ↔
        (packets_by_channel (D.kind managed.now) one.now
        ≡ packets_by_channel (D.kind managed.now) other.now)) }
    ensures within { OnOk result (max (length one.now) (length other.now)
        ≤ managed.now.max_octets) }
    ensures fault { IfErr result (StopsInMemory managed.now.max_octets
        (max (length one.now) (length other.now))
        (MayRefuseMemoryIn (D.kind managed.now).frames_of
        (MayRefuseStoreMemory (D.kind managed.now) (D.is_incomplete_at_last managed.now)) one.now
        ⊎ MayRefuseMemoryIn (D.kind managed.now).frames_of
        (MayRefuseStoreMemory (D.kind managed.now) (D.is_incomplete_at_last managed.now))
        other.now)) }
{
    if one.len().max(other.len()) as u64 > managed.max_octets {
        return Err(LinkFault::TooLong);
    }
    let stored = store_packets_in_memory::<D>(alloc, managed, one)?;
    let also = store_packets_in_memory::<D>(alloc, managed, other)?;
    Ok(stored.has_same_packets(&also))
}
