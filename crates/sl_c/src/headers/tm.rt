//! The primary header of a TM transfer frame.
ghost use Rattle.std.specs.Prelude.{◌≡◌};
ghost use Rattle.sl_fields.specs.TmHeader.{FitsTmHeader, tm_header, tm_octets};
ghost use Rattle.sl_c.specs.Answer.{Says};
ghost use Rattle.sl_c.specs.Headers.{WritesOctets, tm_fields_of};

use crate::answer::Answer;
use sl_fields::TmHeader;

/// The primary header of a TM transfer frame, as its fields, in the ranges of [`TmHeader::new`].
#[repr(C)]
#[derive(Clone, Copy)]
pub struct TmHeaderFields {
    pub version: u8,
    pub spacecraft: u16,
    pub vc: u8,
    pub control: bool,
    pub mc: u8,
    pub vcc: u8,
    pub secondary: bool,
    pub sync: bool,
    pub order: bool,
    pub segment: u8,
    pub first: u16,
}

/// Reads the header that the six octets are, whatever they are.
#[unsafe(no_mangle)]
pub extern "C" fn sllink_tm_header_read(octets: &[u8; 6], header: &mut TmHeaderFields)
    ensures { tm_fields_of header.new ≡ tm_header octets.now }
{
    let read = TmHeader::read(octets);
    *header = TmHeaderFields {
        version: read.version(),
        spacecraft: read.spacecraft(),
        vc: read.vc(),
        control: read.control(),
        mc: read.mc(),
        vcc: read.vcc(),
        secondary: read.secondary(),
        sync: read.sync(),
        order: read.order(),
        segment: read.segment(),
        first: read.first(),
    };
}

/// Writes the six octets of the header, and answers `Done`. Where a field is out of its range the
/// answer is `Field`, and nothing is written.
#[unsafe(no_mangle)]
pub extern "C" fn sllink_tm_header_write(header: &TmHeaderFields, octets: &mut [u8; 6]) -> u32
    ensures octets { WritesOctets (FitsTmHeader (tm_fields_of header.now))
        (tm_octets (tm_fields_of header.now)) octets.old octets.new result }
    // The octets are read back as this header.
    ensures reads_back { Says result Answer.Done → tm_header octets.new ≡ tm_fields_of header.now }
{
    match TmHeader::new(
        header.version,
        header.spacecraft,
        header.vc,
        header.control,
        header.mc,
        header.vcc,
        header.secondary,
        header.sync,
        header.order,
        header.segment,
        header.first,
    ) {
        Some(fields) => {
            *octets = fields.write();
            Answer::Done.number()
        }
        None => Answer::Field.number(),
    }
}
