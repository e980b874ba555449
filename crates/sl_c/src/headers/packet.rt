//! The primary header of a space packet.
ghost use Rattle.std.specs.Prelude.{◌≡◌};
ghost use Rattle.sl_fields.specs.PacketHeader.{FitsPacketHeader, packet_header, packet_octets};
ghost use Rattle.sl_c.specs.Answer.{Says};
ghost use Rattle.sl_c.specs.Headers.{WritesOctets, packet_fields_of};

use crate::answer::Answer;
use sl_fields::PacketHeader;

/// The primary header of a space packet, as its fields, in the ranges of [`PacketHeader::new`].
#[repr(C)]
#[derive(Clone, Copy)]
pub struct PacketHeaderFields {
    pub version: u8,
    pub kind: u8,
    pub secondary: bool,
    pub apid: u16,
    pub flags: u8,
    pub count: u16,
    pub length: u16,
}

/// Reads the header that the six octets are, whatever they are.
#[unsafe(no_mangle)]
pub extern "C" fn sllink_packet_header_read(octets: &[u8; 6], header: &mut PacketHeaderFields)
    ensures { packet_fields_of header.new ≡ packet_header octets.now }
{
    let read = PacketHeader::read(octets);
    *header = PacketHeaderFields {
        version: read.version(),
        kind: read.kind(),
        secondary: read.secondary(),
        apid: read.apid(),
        flags: read.flags(),
        count: read.count(),
        length: read.length(),
    };
}

/// Writes the six octets of the header, and answers `Done`. Where a field is out of its range the
/// answer is `Field`, and nothing is written.
#[unsafe(no_mangle)]
pub extern "C" fn sllink_packet_header_write(
    header: &PacketHeaderFields,
    octets: &mut [u8; 6],
) -> u32
    ensures octets { WritesOctets (FitsPacketHeader (packet_fields_of header.now))
        (packet_octets (packet_fields_of header.now)) octets.old octets.new result }
    // The octets are read back as this header.
    ensures reads_back { Says result Answer.Done
        → packet_header octets.new ≡ packet_fields_of header.now }
{
    match PacketHeader::new(
        header.version,
        header.kind,
        header.secondary,
        header.apid,
        header.flags,
        header.count,
        header.length,
    ) {
        Some(fields) => {
            *octets = fields.write();
            Answer::Done.number()
        }
        None => Answer::Field.number(),
    }
}
