//! What became of the frames, as lines.

use crate::merge::{Recording, SO_FAR, Turn};
use sl_merge::LeftOut;
use sl_tmframe::TmShape;
use std::io;
use std::io::Write;

/// Tells what became of the frames of recordings that were merged in these turns. Where `errors`
/// fails the lines are cut short.
pub fn tell_turns<E: Write>(
    shape: &TmShape,
    first: &Recording<'_>,
    others: &[Recording<'_>],
    turns: &[Turn],
    errors: &mut E,
) {
    let _ = write_turns(shape, first, others, turns, errors);
}

fn write_turns<E: Write>(
    shape: &TmShape,
    first: &Recording<'_>,
    others: &[Recording<'_>],
    turns: &[Turn],
    errors: &mut E,
) -> io::Result<()> {
    let mut before = *first;
    for (other, turn) in others.iter().zip(turns) {
        write_turn(shape, &before, other, turn, errors)?;
        before = Recording {
            name: SO_FAR,
            octets: &[],
            packets: turn.packets,
        };
    }
    Ok(())
}

// A line for each of two recordings, and one for what they were merged to.
fn write_turn<E: Write>(
    shape: &TmShape,
    before: &Recording<'_>,
    other: &Recording<'_>,
    turn: &Turn,
    errors: &mut E,
) -> io::Result<()> {
    let Turn {
        counts,
        outages,
        guessed,
        undecided,
        idle,
        packets,
    } = turn;
    let (both, first, second) = (counts.both, counts.first, counts.second);
    write_side(shape, before, both, first, &counts.first_left_out, errors)?;
    write_side(shape, other, both, second, &counts.second_left_out, errors)?;
    let frames = both.saturating_add(first).saturating_add(second);
    writeln!(
        errors,
        "merge: frames {frames} in-both {both} packets {packets} outages {outages} open {guessed} undecided {undecided} idle {idle}"
    )
}

// The line of one of two recordings.
fn write_side<E: Write>(
    shape: &TmShape,
    recording: &Recording<'_>,
    both: u64,
    only: u64,
    left_out: &LeftOut,
    errors: &mut E,
) -> io::Result<()> {
    let Recording {
        name,
        octets,
        packets,
    } = recording;
    let LeftOut {
        skipped,
        repeats,
        stretches,
    } = left_out;
    let frames = [both, only, *skipped, *repeats, *stretches]
        .iter()
        .fold(0u64, |sum, number| sum.saturating_add(*number));
    let rest = octets.len() % usize::from(shape.len());
    writeln!(
        errors,
        "{name}: frames {frames} only-here {only} skipped {skipped} repeats {repeats} left-out {stretches} rest {rest} packets {packets}"
    )
}
