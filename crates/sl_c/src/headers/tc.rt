//! The primary header of a TC transfer frame.
ghost use Rattle.std.specs.Prelude.{◌≡◌};
ghost use Rattle.sl_fields.specs.TcHeader.{FitsTcHeader, tc_header, tc_octets};
ghost use Rattle.sl_c.specs.Answer.{Says};
ghost use Rattle.sl_c.specs.Headers.{WritesOctets, tc_fields_of};

use crate::answer::Answer;
use sl_fields::TcHeader;

/// The primary header of a TC transfer frame, as its fields, in the ranges of [`TcHeader::new`].
#[repr(C)]
#[derive(Clone, Copy)]
pub struct TcHeaderFields {
    pub version: u8,
    pub bypass: bool,
    pub command: bool,
    pub spare: u8,
    pub spacecraft: u16,
    pub vc: u8,
    pub length: u16,
    pub ns: u8,
}

/// Reads the header that the five octets are, whatever they are.
#[unsafe(no_mangle)]
pub extern "C" fn sllink_tc_header_read(octets: &[u8; 5], header: &mut TcHeaderFields)
    ensures { tc_fields_of header.new ≡ tc_header octets.now }
{
    let read = TcHeader::read(octets);
    *header = TcHeaderFields {
        version: read.version(),
        bypass: read.bypass(),
        command: read.command(),
        spare: read.spare(),
        spacecraft: read.spacecraft(),
        vc: read.vc(),
        length: read.length(),
        ns: read.ns(),
    };
}

/// Writes the five octets of the header, and answers `Done`. Where a field is out of its range the
/// answer is `Field`, and nothing is written.
#[unsafe(no_mangle)]
pub extern "C" fn sllink_tc_header_write(header: &TcHeaderFields, octets: &mut [u8; 5]) -> u32
    ensures octets { WritesOctets (FitsTcHeader (tc_fields_of header.now))
        (tc_octets (tc_fields_of header.now)) octets.old octets.new result }
    // The octets are read back as this header.
    ensures reads_back { Says result Answer.Done → tc_header octets.new ≡ tc_fields_of header.now }
{
    match TcHeader::new(
        header.version,
        header.bypass,
        header.command,
        header.spare,
        header.spacecraft,
        header.vc,
        header.length,
        header.ns,
    ) {
        Some(fields) => {
            *octets = fields.write();
            Answer::Done.number()
        }
        None => Answer::Field.number(),
    }
}
