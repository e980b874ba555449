//! The laws on this crate's definitions. Each function is empty, and nothing calls it. Its clauses
//! are the laws, and the check of the function proves them.
ghost use Rattle.sl_fields.specs.FecfFolds.{RunsMayMove};
ghost use Rattle.sl_fields.specs.FecfWords.{AreWords};
ghost use Rattle.sl_fields.specs.Remainder.{DivisionFindsRemainder, RemainderIsOnlyOne};
ghost use Rattle.sl_fields.specs.Remainder.{FieldIsRemainder, WordIsRemainder};

use crate::words::WORDS;

/// Each list of sixteen or more bits is the sum, without carries, of a multiple of the generator
/// x^16 + x^12 + x^5 + 1 and a remainder of sixteen bits. The long division finds this remainder,
/// and there is no other.
pub fn bits_have_one_remainder()
    ensures found { DivisionFindsRemainder }
    ensures only { RemainderIsOnlyOne }
{}

/// The frame error control field is the remainder of a list of bits: the message's bits and sixteen
/// zeros after them, with the first sixteen bits of the list inverted.
pub fn fecf_is_a_remainder()
    ensures { FieldIsRemainder }
{}

/// The word of an octet is the remainder of a list of bits: the octet's eight bits, eight zeros for
/// each later octet of the message, and sixteen zeros, without preset.
///
/// `WORDS` has, for each value of an octet, the word of this octet at the end of a message.
pub fn words_are_remainders()
    ensures word { WordIsRemainder }
    ensures last { AreWords WORDS }
{}

/// Zeros may stand in the place of a run of octets of a message if the run, as it was, is then
/// added, without carries, to the octets 4, 11 and 16 places later, or 8, 22 and 32, or 16, 44 and
/// 64, or another power of two times 4, 11 and 16, where all three lie within the message. The
/// frame error control field is the same, whatever stands before the run and behind it.
pub fn runs_may_move()
    ensures { RunsMayMove }
{}
