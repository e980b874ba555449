//! A run over two readers and a writer.
ghost use Rattle.std.specs.Prelude.{◌≡◌, ◌≢◌, ◌⊎◌, ◌++◌, ⊤, string_bytes, None, IfOk, IfErr, OnOk};
ghost use Rattle.sl_io.specs.Streams.{StopsWriting, WritesText};
ghost use Rattle.sl_io.specs.declared.fault.LinkFault.{LinkFault};
ghost use Rattle.sl_engine.specs.Compare.{Compares};
ghost use Rattle.sl_pair.specs.Pairing.{ByChannel, StandsAfter};
ghost use Rattle.sllink_compare.specs.Asking.{question_text};
ghost use Rattle.sllink_compare.specs.Run.{Asks, HasEnded, HasStopped, MayLackMemory, Says, StopsComparing};
ghost use Rattle.sllink_compare.specs.Run.{answer_text, difference_head, differences};
ghost use Rattle.sllink_compare.specs.Run.{fault_text, has_field, open_question, output_text};
ghost use Rattle.sllink_compare.specs.Run.{packets_of, status_of, summary_of};
ghost use Rattle.sllink_compare.specs.Totals.{totals_text};

use crate::asking::question_text;
use crate::questions::{Allowed, Question, Seen, question_of};
use crate::totals::{Names, totals_text};
use sl_io::{flush, write_text};
use sl_link::{
    Compared, Counted, LinkFault, Managed, RecordingKind, compare_tc, compare_tm,
    write_difference_tc, write_difference_tm,
};
use sl_pair::Answer;
use std::alloc::{AllocError, Global};
use std::hash::BuildHasher;
use std::io::{Read, Write};

/// The exit status where both recordings have the same packets.
pub const SAME: u8 = 0;

/// The exit status where packets differ, or are in another order.
pub const DIFFERENT: u8 = 1;

/// The exit status where neither can be said, or the command line or a file is refused.
pub const REFUSED: u8 = 2;

/// The exit status after a fault.
pub const FAULT: u8 = 3;

/// What is compared, and how.
#[derive(Clone, Copy)]
pub struct Comparison {
    pub kind: RecordingKind,
    /// The managed parameters of the first recording.
    pub first: Managed,
    /// Those of the second one.
    pub second: Managed,
    /// The questions that are answered.
    pub allowed: Allowed,
    /// Whether each packet is listed in place of runs.
    pub each: bool,
}

/// Reads two recordings to their ends, and writes the totals of both and which packets only one of
/// them has, or asks a question. The exit status is 0 where both have the same packets in the same
/// order, 1 where they have them in another order or packets differ, 2 where a question is open,
/// and 3 after a fault. `errors` gets the question or the fault, in one line, and else nothing.
/// Where it fails the line is cut short, and the status is the same.
pub fn run<A: Read, B: Read, S: BuildHasher + Copy, W: Write, E: Write>(
    alloc: Global,
    hasher: S,
    comparison: &Comparison,
    names: &Names<'_>,
    one: &mut Counted<A>,
    other: &mut Counted<B>,
    writer: &mut Counted<W>,
    errors: &mut Counted<E>,
) -> u8
    ensures ended { result ≢ 3 → HasEnded A.remaining B.remaining W.contents E.contents one.old
        one.new other.old other.new writer.old writer.new errors.old errors.new comparison.now
        names.now result }
    ensures stopped { result ≡ 3 → HasStopped A.remaining B.remaining W.contents E.contents one.old
        one.new other.old other.new writer.old writer.new errors.old errors.new comparison.now
        names.now }
{
    match compare(alloc, hasher, comparison, one, other) {
        Ok(compared) => answer(alloc, comparison, names, &compared, writer, errors),
        Err(fault) => report_fault(fault, errors),
    }
}

// Compares two recordings.
fn compare<A: Read, B: Read, S: BuildHasher + Copy>(
    alloc: Global,
    hasher: S,
    comparison: &Comparison,
    one: &mut Counted<A>,
    other: &mut Counted<B>,
) -> Result<Compared<S>, LinkFault>
    ensures compared { IfOk result (Compares A.remaining B.remaining one.old one.new other.old
        other.new (packets_of comparison.now.kind comparison.now.first)
        (packets_of comparison.now.kind comparison.now.second)
        (summary_of comparison.now.kind comparison.now.first)
        (summary_of comparison.now.kind comparison.now.second)
        comparison.now.first.max_octets comparison.now.second.max_octets) }
    ensures stopped { IfErr result (StopsComparing A.remaining B.remaining one.old one.new
        other.old other.new comparison.now) }
    ensures memory { IfErr result (MayLackMemory A.remaining B.remaining one.old one.new
        other.old other.new comparison.now) }
{
    let Comparison { first, second, .. } = comparison;
    match comparison.kind {
        RecordingKind::Tm => compare_tm(alloc, hasher, first, one, second, other),
        RecordingKind::Tc => compare_tc(alloc, hasher, first, one, second, other),
    }
}

// Writes the totals of two recordings and how they compare, or asks a question, and returns the
// exit status.
fn answer<S: BuildHasher + Copy, W: Write, E: Write>(
    alloc: Global,
    comparison: &Comparison,
    names: &Names<'_>,
    compared: &Compared<S>,
    writer: &mut Counted<W>,
    errors: &mut Counted<E>,
) -> u8
    ensures ended { result ≢ 3 → (firsts seconds : ByChannel)
        → StandsAfter compared.now.left firsts seconds
        → WritesText W.contents writer.old writer.new (output_text comparison.now names.now
        compared.now.answer compared.now.first compared.now.second firsts seconds) }
    ensures status { result ≢ 3 → result ≡ status_of (open_question comparison.now
        compared.now.answer compared.now.first compared.now.second) compared.now.answer }
    ensures asked { result ≢ 3 → Asks E.contents errors.old errors.new comparison.now names.now
        compared.now.first compared.now.second (open_question comparison.now
        compared.now.answer compared.now.first compared.now.second) }
    ensures stopped { result ≡ 3 → (fault : LinkFault)
        × Says E.contents errors.old errors.new (fault_text fault) × ((firsts seconds : ByChannel)
        → StandsAfter compared.now.left firsts seconds
        → StopsWriting W.contents writer.old writer.new (output_text comparison.now names.now
        compared.now.answer compared.now.first compared.now.second firsts seconds) ⊤ fault) }
{
    if let Err(fault) = write_totals(alloc, names, compared, writer) {
        return report_fault(fault, errors);
    }
    if let Some(question) = open_question(comparison, compared) {
        return ask(alloc, question, comparison, names, compared, errors);
    }
    match write_answer(alloc, comparison, names, compared, writer) {
        Ok(()) => status_of(compared.answer),
        Err(fault) => report_fault(fault, errors),
    }
}

// Asks a question on the error output, and returns the exit status.
fn ask<S: BuildHasher + Copy, E: Write>(
    alloc: Global,
    question: Question,
    comparison: &Comparison,
    names: &Names<'_>,
    compared: &Compared<S>,
    errors: &mut Counted<E>,
) -> u8
    ensures status { (result ≡ 2) ⊎ (result ≡ 3) }
    ensures said { result ≢ 3 → Says E.contents errors.old errors.new (question_text question
        comparison.now names.now compared.now.first compared.now.second) }
    ensures stopped { result ≡ 3 → Says E.contents errors.old errors.new
        (fault_text LinkFault.Memory) }
{
    let (first, second) = (&compared.first, &compared.second);
    match question_text(alloc, question, comparison, names, first, second) {
        Ok(line) => {
            say(line.as_str(), errors);
            REFUSED
        }
        Err(_) => report_fault(LinkFault::Memory, errors),
    }
}

// Writes a line on the error output. Where it fails the line is cut short.
fn say<E: Write>(line: &str, errors: &mut Counted<E>)
    ensures { Says E.contents errors.old errors.new line.now }
{
    let _ = write_text(errors, line.as_bytes());
}

// Writes the totals of two recordings, and flushes them.
fn write_totals<S: BuildHasher + Copy, W: Write>(
    alloc: Global,
    names: &Names<'_>,
    compared: &Compared<S>,
    writer: &mut Counted<W>,
) -> Result<(), LinkFault>
    ensures written { OnOk result (WritesText W.contents writer.old writer.new
        (totals_text names.now compared.now.first compared.now.second)) }
    ensures stopped { IfErr result (StopsWriting W.contents writer.old writer.new
        (totals_text names.now compared.now.first compared.now.second) ⊤) }
{
    match totals_text(alloc, names, &compared.first, &compared.second) {
        Ok(text) => write_and_flush(text.as_str(), writer),
        Err(_) => Err(LinkFault::Memory),
    }
}

// Writes a text, and flushes it.
fn write_and_flush<W: Write>(text: &str, writer: &mut Counted<W>) -> Result<(), LinkFault>
    ensures written { OnOk result (WritesText W.contents writer.old writer.new text.now) }
    ensures stopped { IfErr result (StopsWriting W.contents writer.old writer.new text.now ⊥) }
{
    write_text(writer, text.as_bytes())?;
    flush(writer)
}

// The first question that is open, if one is.
fn open_question<S: BuildHasher + Copy>(
    comparison: &Comparison,
    compared: &Compared<S>,
) -> Option<Question>
    ensures { result ≡ open_question comparison.now compared.now.answer compared.now.first
        compared.now.second }
{
    let first = Seen {
        summary: compared.first,
        has_field: has_field(comparison.kind, &comparison.first),
    };
    let second = Seen {
        summary: compared.second,
        has_field: has_field(comparison.kind, &comparison.second),
    };
    question_of(compared.answer, &comparison.allowed, &first, &second)
}

// Whether frames of this kind have an error control field.
fn has_field(kind: RecordingKind, managed: &Managed) -> bool
    ensures { result ≡ has_field kind managed.now }
{
    match kind {
        RecordingKind::Tm => managed.tm_fecf(),
        RecordingKind::Tc => managed.tc_fecf(),
    }
}

// Writes how two recordings compare, and flushes it.
fn write_answer<S: BuildHasher + Copy, W: Write>(
    alloc: Global,
    comparison: &Comparison,
    names: &Names<'_>,
    compared: &Compared<S>,
    writer: &mut Counted<W>,
) -> Result<(), LinkFault>
    ensures written { OnOk result ((firsts seconds : ByChannel)
        → StandsAfter compared.now.left firsts seconds
        → WritesText W.contents writer.old writer.new (answer_text comparison.now names.now
        compared.now.answer firsts seconds)) }
    ensures stopped { IfErr result (λ fault. (firsts seconds : ByChannel)
        → StandsAfter compared.now.left firsts seconds
        → StopsWriting W.contents writer.old writer.new (answer_text comparison.now names.now
        compared.now.answer firsts seconds) ⊤ fault) }
{
    match compared.answer {
        Answer::Same => write_and_flush("same packets\n", writer),
        Answer::Reordered => write_and_flush("same packets in another order\n", writer),
        Answer::Different => write_differences(alloc, comparison, names, compared, writer),
    }
}

// Writes which packets only one of two recordings has, and flushes it.
fn write_differences<S: BuildHasher + Copy, W: Write>(
    alloc: Global,
    comparison: &Comparison,
    names: &Names<'_>,
    compared: &Compared<S>,
    writer: &mut Counted<W>,
) -> Result<(), LinkFault>
    ensures written { OnOk result ((firsts seconds : ByChannel)
        → StandsAfter compared.now.left firsts seconds
        → WritesText W.contents writer.old writer.new (difference_head names.now
        ++ differences comparison.now.kind comparison.now.each firsts seconds)) }
    ensures stopped { IfErr result (λ fault. (firsts seconds : ByChannel)
        → StandsAfter compared.now.left firsts seconds
        → StopsWriting W.contents writer.old writer.new (difference_head names.now
        ++ differences comparison.now.kind comparison.now.each firsts seconds) ⊤ fault) }
{
    write_head(alloc, names, writer)?;
    write_difference(comparison, compared, writer)?;
    flush(writer)
}

// Writes what stands before the packets that only one recording has.
fn write_head<W: Write>(
    alloc: Global,
    names: &Names<'_>,
    writer: &mut Counted<W>,
) -> Result<(), LinkFault>
    ensures written { OnOk result (WritesText W.contents writer.old writer.new
        (difference_head names.now)) }
    ensures stopped { IfErr result (StopsWriting W.contents writer.old writer.new
        (difference_head names.now) ⊤) }
{
    match difference_head(alloc, names) {
        Ok(head) => write_text(writer, head.as_str().as_bytes()),
        Err(_) => Err(LinkFault::Memory),
    }
}

// What stands before the packets that only one recording has.
fn difference_head(alloc: Global, names: &Names<'_>) -> Result<String, AllocError>
    ensures { IfOk result (λ head. string_bytes head ≡ difference_head names.now) }
{
    let Names { first, second } = *names;
    format!(in alloc; "different packets: < only in {first}, > only in {second}\n")
}

// Writes the packets that only one of two recordings has.
fn write_difference<S: BuildHasher + Copy, W: Write>(
    comparison: &Comparison,
    compared: &Compared<S>,
    writer: &mut Counted<W>,
) -> Result<(), LinkFault>
    ensures written { OnOk result ((firsts seconds : ByChannel)
        → StandsAfter compared.now.left firsts seconds
        → WritesText W.contents writer.old writer.new
        (differences comparison.now.kind comparison.now.each firsts seconds)) }
    ensures stopped { IfErr result (λ fault. (firsts seconds : ByChannel)
        → StandsAfter compared.now.left firsts seconds
        → StopsWriting W.contents writer.old writer.new
        (differences comparison.now.kind comparison.now.each firsts seconds) ⊤ fault) }
{
    match comparison.kind {
        RecordingKind::Tm => write_difference_tm(compared, comparison.each, writer),
        RecordingKind::Tc => write_difference_tc(compared, comparison.each, writer),
    }
}

// The exit status of this answer.
fn status_of(answer: Answer) -> u8
    ensures { result ≡ status_of None answer }
{
    match answer {
        Answer::Same => SAME,
        Answer::Reordered | Answer::Different => DIFFERENT,
    }
}

/// Names a fault on the error output, and returns the exit status.
pub fn report_fault<E: Write>(fault: LinkFault, errors: &mut Counted<E>) -> u8
    ensures status { result ≡ 3 }
    ensures said { Says E.contents errors.old errors.new (fault_text fault) }
{
    say(fault_text(fault), errors);
    FAULT
}

// The line of a fault.
fn fault_text(fault: LinkFault) -> &'static str
    ensures { result.now ≡ fault_text fault }
{
    match fault {
        LinkFault::Read => "sllink-compare: read\n",
        LinkFault::TooLong => "sllink-compare: too long\n",
        LinkFault::Memory => "sllink-compare: memory\n",
        LinkFault::Write => "sllink-compare: write\n",
    }
}
