//! The segment header of a TC transfer frame.
ghost use Rattle.std.specs.Prelude.{◌≡◌};
ghost use Rattle.sl_fields.specs.SegmentHeader.{FitsSegmentHeader, segment_header, segment_octets};
ghost use Rattle.sl_c.specs.Answer.{Says};
ghost use Rattle.sl_c.specs.Headers.{WritesOctets, segment_fields_of};

use crate::answer::Answer;
use sl_fields::SegmentHeader;

/// The segment header of a TC transfer frame, as its fields, in the ranges of
/// [`SegmentHeader::new`].
#[repr(C)]
#[derive(Clone, Copy)]
pub struct SegmentHeaderFields {
    pub flags: u8,
    pub map: u8,
}

/// Reads the header that the one octet is, whatever it is.
#[unsafe(no_mangle)]
pub extern "C" fn sllink_segment_header_read(octets: &[u8; 1], header: &mut SegmentHeaderFields)
    ensures { segment_fields_of header.new ≡ segment_header octets.now }
{
    let read = SegmentHeader::read(octets);
    *header = SegmentHeaderFields {
        flags: read.flags(),
        map: read.map(),
    };
}

/// Writes the one octet of the header, and answers `Done`. Where a field is out of its range the
/// answer is `Field`, and nothing is written.
#[unsafe(no_mangle)]
pub extern "C" fn sllink_segment_header_write(
    header: &SegmentHeaderFields,
    octets: &mut [u8; 1],
) -> u32
    ensures octets { WritesOctets (FitsSegmentHeader (segment_fields_of header.now))
        (segment_octets (segment_fields_of header.now)) octets.old octets.new result }
    // The octets are read back as this header.
    ensures reads_back { Says result Answer.Done
        → segment_header octets.new ≡ segment_fields_of header.now }
{
    match SegmentHeader::new(header.flags, header.map) {
        Some(fields) => {
            *octets = fields.write();
            Answer::Done.number()
        }
        None => Answer::Field.number(),
    }
}
