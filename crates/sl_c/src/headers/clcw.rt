//! The Communications Link Control Word.
ghost use Rattle.std.specs.Prelude.{◌≡◌};
ghost use Rattle.sl_fields.specs.Clcw.{FitsClcw, clcw_word, clcw_octets};
ghost use Rattle.sl_c.specs.Answer.{Says};
ghost use Rattle.sl_c.specs.Headers.{WritesOctets, clcw_fields_of};

use crate::answer::Answer;
use sl_fields::Clcw;

/// The Communications Link Control Word, as its fields, in the ranges of [`Clcw::new`].
#[repr(C)]
#[derive(Clone, Copy)]
pub struct ClcwWordFields {
    pub word: u8,
    pub version: u8,
    pub status: u8,
    pub cop: u8,
    pub vc: u8,
    pub spare: u8,
    pub no_rf: bool,
    pub no_lock: bool,
    pub lockout: bool,
    pub wait: bool,
    pub retransmit: bool,
    pub farm_b: u8,
    pub spare_end: bool,
    pub report: u8,
}

/// Reads the word that the four octets are, whatever they are.
#[unsafe(no_mangle)]
pub extern "C" fn sllink_clcw_read(octets: &[u8; 4], word: &mut ClcwWordFields)
    ensures { clcw_fields_of word.new ≡ clcw_word octets.now }
{
    let read = Clcw::read(octets);
    *word = ClcwWordFields {
        word: read.word(),
        version: read.version(),
        status: read.status(),
        cop: read.cop(),
        vc: read.vc(),
        spare: read.spare(),
        no_rf: read.no_rf(),
        no_lock: read.no_lock(),
        lockout: read.lockout(),
        wait: read.wait(),
        retransmit: read.retransmit(),
        farm_b: read.farm_b(),
        spare_end: read.spare_end(),
        report: read.report(),
    };
}

/// Writes the four octets of the word, and answers `Done`. Where a field is out of its range the
/// answer is `Field`, and nothing is written.
#[unsafe(no_mangle)]
pub extern "C" fn sllink_clcw_write(word: &ClcwWordFields, octets: &mut [u8; 4]) -> u32
    ensures octets { WritesOctets (FitsClcw (clcw_fields_of word.now))
        (clcw_octets (clcw_fields_of word.now)) octets.old octets.new result }
    // The octets are read back as this word.
    ensures reads_back { Says result Answer.Done → clcw_word octets.new ≡ clcw_fields_of word.now }
{
    match Clcw::new(
        word.word,
        word.version,
        word.status,
        word.cop,
        word.vc,
        word.spare,
        word.no_rf,
        word.no_lock,
        word.lockout,
        word.wait,
        word.retransmit,
        word.farm_b,
        word.spare_end,
        word.report,
    ) {
        Some(fields) => {
            *octets = fields.write();
            Answer::Done.number()
        }
        None => Answer::Field.number(),
    }
}
