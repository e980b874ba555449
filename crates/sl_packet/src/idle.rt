//! Idle packets: how they are recognised, and how one is added to octets.
ghost use Rattle.std.specs.Prelude.{◌≡◌, ◌<◌, ◌≤◌, ◌+◌, ◌++◌, OnOk, OnErr};
ghost use Rattle.std.specs.Vec.{vec_len, vec_capacity};
ghost use Rattle.sl_fields.specs.Field.{octets_of};
ghost use Rattle.sl_packet.specs.IdlePacket.{idle_fields, idle_packet};
ghost use Rattle.sl_packet.specs.Packet.{is_idle_packet};

use byteorder::{BigEndian, ByteOrder};
use sl_fields::PacketHeader;
use std::alloc::AllocError;

/// The APID of idle packets (CCSDS 133.0-B): eleven bits, all ones.
const IDLE: u16 = 2047;

/// Whether the octets begin like an idle packet (CCSDS 133.0-B): there are two octets or more, and
/// their APID is 2047. No other field is looked at.
pub fn is_idle(octets: &[u8]) -> bool
    ensures { result ≡ is_idle_packet octets.now }
{
    // The APID is the last eleven bits of the first two octets.
    match octets.first_chunk::<2>() {
        Some(first) => BigEndian::read_u16(first) % 2048 == IDLE,
        None => false,
    }
}

/// Adds an idle packet (CCSDS 133.0-B) of `len` octets, 7 to 65,542. The packet is telemetry,
/// unsegmented and without a secondary header, and has sequence count 0 and zeros as its data. The
/// packet type, the sequence flags, the count and the data are this project's choice.
///
/// Memory is refused only where the capacity of `out` has no room for the packet. `out` then has
/// the octets that it had.
pub fn push_idle(out: &mut Vec<u8>, len: u32) -> Result<(), AllocError>
    requires least { 7 ≤ len }
    requires most { len ≤ 65542 }
    // The packet is added. Where memory is refused, nothing is added.
    ensures added { OnOk result (out.new.items ≡ out.old.items ++ idle_packet len) }
    ensures unchanged { OnErr result (out.new.items ≡ out.old.items) }

    // Memory is refused only where there is no room. The capacity never becomes smaller.
    ensures full { OnErr result (vec_capacity out.old < vec_len out.old + len) }
    ensures capacity { vec_capacity out.old ≤ vec_capacity out.new }
{
    let header = idle_header((len - 7) as u16);
    out.reserve(len as usize)?;
    out.extend_from_slice(&header)?;
    // Zeros fill the packet up after the six octets of its header.
    let end = out.len() + len as usize - 6;
    out.resize(end, 0)
}

// The header of an idle packet with this packet data length, which is 7 less than its octets.
fn idle_header(length: u16) -> [u8; 6]
    ensures { result ≡ octets_of 6 (idle_fields (length + 7)) }
{
    PacketHeader::of_telemetry(IDLE, 0, length).write()
}
