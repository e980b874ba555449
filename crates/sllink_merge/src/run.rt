//! A run over recordings and a writer.
ghost use Rattle.std.specs.Prelude.{◌≡◌, ◌≢◌, ◌<◌, IfErr, OnOk, length};
ghost use Rattle.sl_io.specs.Streams.{StopsWriting, WritesText};
ghost use Rattle.sl_io.specs.declared.fault.LinkFault.{LinkFault};
ghost use Rattle.sllink_merge.specs.Run.{HasEnded, HasStopped, refused_status, status_of};

use crate::command_line::Link;
use crate::merge::{Merge, Recording, Refused, Unmerged, merge_all};
use crate::order::Unordered;
use crate::telling::tell_turns;
use sl_io::{flush, write_text};
use sl_link::{Counted, LinkFault};
use std::alloc::Global;
use std::hash::BuildHasher;
use std::io::Write;

/// The exit status where a merge is written, and each frame that is left out is skipped or a repeat.
pub const SUCCESS: u8 = 0;

/// The exit status where a merge is written, but frames are left out whose place isn't known, or
/// the order of some is a guess.
pub const UNSURE: u8 = 1;

/// The exit status where there is no merge, or the command line or a file is refused.
pub const REFUSED: u8 = 2;

/// The exit status after a fault.
pub const FAULT: u8 = 3;

/// Merges recordings, the first two and then each further one with what came before it, and writes
/// the merge. The exit status is 0 where each frame that is left out is skipped or a repeat, 1 where
/// others are left out or the order of a stretch is a guess, 2 where there is no merge, and 3 after
/// a fault. `errors` gets lines with what became of the frames, or why there is no merge, or the
/// fault, in one line. Where it fails these are cut short, and the status is the same.
pub fn run<S: BuildHasher + Copy, W: Write, E: Write>(
    alloc: Global,
    hasher: S,
    link: &Link,
    recordings: &[Recording<'_>],
    writer: &mut Counted<W>,
    errors: &mut E,
) -> u8
    ensures ended { result ≢ 2 → result ≢ 3
        → HasEnded W.contents writer.old writer.new link.now recordings.now result }
    ensures refused { result ≡ 2 → writer.new ≡ writer.old }
    ensures stopped { result ≡ 3
        → HasStopped W.contents writer.old writer.new link.now recordings.now }
    ensures few { length recordings.now < 2 → result ≡ 2 }
{
    let [first, others @ ..] = recordings else {
        return report_few(errors);
    };
    let [second, later @ ..] = others else {
        return report_few(errors);
    };
    match merge_all(alloc, hasher, link, first, second, later) {
        Ok(merge) => finish(link, first, others, &merge, writer, errors),
        Err(refused) => report_refused(&refused, errors),
    }
}

// Writes a merge, tells what became of the frames, and returns the exit status.
fn finish<W: Write, E: Write>(
    link: &Link,
    first: &Recording<'_>,
    others: &[Recording<'_>],
    merge: &Merge,
    writer: &mut Counted<W>,
    errors: &mut E,
) -> u8
    ensures written { result ≢ 3 → WritesText W.contents writer.old writer.new
        merge.now.octets.items }
    ensures status { result ≢ 3 → result ≡ status_of merge.now.is_sure }
    ensures stopped { result ≡ 3 → (fault : LinkFault) × StopsWriting W.contents writer.old
        writer.new merge.now.octets.items ⊥ fault }
{
    match write_and_flush(merge.octets.as_slice(), writer) {
        Ok(()) => {
            tell_turns(&link.shape, first, others, merge.turns.as_slice(), errors);
            status_of(merge.is_sure)
        }
        Err(fault) => report_fault(fault, errors),
    }
}

// Writes octets, and flushes them.
fn write_and_flush<W: Write>(octets: &[u8], writer: &mut Counted<W>) -> Result<(), LinkFault>
    ensures written { OnOk result (WritesText W.contents writer.old writer.new octets.now) }
    ensures stopped { IfErr result (StopsWriting W.contents writer.old writer.new octets.now ⊥) }
{
    write_text(writer, octets)?;
    flush(writer)
}

// The exit status where a merge was written.
fn status_of(is_sure: bool) -> u8
    ensures value { result ≡ status_of is_sure }
    ensures range { result < 2 }
{
    if is_sure { SUCCESS } else { UNSURE }
}

// Says that there are fewer than two recordings, and returns the exit status.
fn report_few<E: Write>(errors: &mut E) -> u8
    ensures { result ≡ 2 }
{
    let _ = writeln!(errors, "sllink-merge: two recordings or more are merged");
    REFUSED
}

// Says why two recordings aren't merged, and returns the exit status.
fn report_refused<E: Write>(refused: &Refused<'_>, errors: &mut E) -> u8
    ensures { result ≡ refused_status refused.now.why }
{
    let Refused { first, second, why } = refused;
    if *why == Unmerged::Memory {
        return report_fault(LinkFault::Memory, errors);
    }
    let _ = if *why == Unmerged::Unordered(Unordered::Apart) {
        writeln!(
            errors,
            "sllink-merge: {first} and {second}: {why}; sllink-identify {second} says what it is"
        )
    } else {
        writeln!(errors, "sllink-merge: {first} and {second}: {why}")
    };
    REFUSED
}

/// Names a fault on the error output, and returns the exit status.
pub fn report_fault<E: Write>(fault: LinkFault, errors: &mut E) -> u8
    ensures { result ≡ 3 }
{
    let _ = writeln!(errors, "sllink-merge: {fault}");
    FAULT
}
