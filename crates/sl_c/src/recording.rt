//! The engines, over a recording in memory.
//!
//! Each call makes the text of a recording: it writes as much of the front of the text as fits to
//! `output`, the size of the whole text in octets to `size`, and what was counted to `totals`. The
//! answer is `Done`, or `Room` where the text is longer than `output`. Under any other answer, a
//! refused parameter, `TooLong` or `Memory`, nothing is written.
ghost use Rattle.std.specs.Prelude.{◌≡◌, ◌++◌, ◌<◌, ◌≤◌, length, take, drop, IfSome};
ghost use Rattle.sl_engine.specs.Engine.{engine_counts, engine_text};
ghost use Rattle.sl_engine.specs.Kind.Tc.{tc_counts};
ghost use Rattle.sl_engine.specs.Kind.Tm.{tm_counts};
ghost use Rattle.sl_engine.specs.Normalise.Tc.{tc_normal_form};
ghost use Rattle.sl_engine.specs.Normalise.Tm.{tm_normal_form};
ghost use Rattle.sl_engine.specs.Verbs.Check.Tc.{check_tc_counts, check_tc_text};
ghost use Rattle.sl_engine.specs.Verbs.Check.Tm.{check_tm_counts, check_tm_text};
ghost use Rattle.sl_engine.specs.Verbs.Packets.Tc.{packets_tc_text};
ghost use Rattle.sl_engine.specs.Verbs.Packets.Tm.{packets_tm_text};
ghost use Rattle.sl_engine.specs.Verbs.Show.Tc.{show_tc_counts, show_tc_text};
ghost use Rattle.sl_engine.specs.Verbs.Show.Tm.{show_tm_counts, show_tm_text};
ghost use Rattle.sl_c.specs.Answer.{Says};
ghost use Rattle.sl_c.specs.Recording.{GivesText, lent};

use crate::answer::Answer;
use crate::link::{ManagedFields, TotalsFields, managed_for, totals_fields};
use sl_link::{Counted, Engine, Managed, RecordingKind, Totals, VerbName, run_engine};
use std::alloc::Global;

/// Lists the frames of a recording of TM transfer frames.
#[unsafe(no_mangle)]
pub extern "C" fn sllink_show_tm(
    alloc: Global,
    managed: &ManagedFields,
    recording: &[u8],
    output: &mut [u8],
    size: &mut usize,
    totals: &mut TotalsFields,
) -> u32
    ensures { GivesText show_tm_text show_tm_counts managed.now recording.now
        (lent output.old size.old totals.old) (lent output.new size.new totals.new) result }
{
    give_text(
        alloc,
        Engine::new(VerbName::Show, RecordingKind::Tm),
        managed,
        recording,
        output,
        size,
        totals,
    )
}

/// Lists the frames of a recording of TC transfer frames, with FARM-1's verdict on each and the
/// CLCW after it.
#[unsafe(no_mangle)]
pub extern "C" fn sllink_show_tc(
    alloc: Global,
    managed: &ManagedFields,
    recording: &[u8],
    output: &mut [u8],
    size: &mut usize,
    totals: &mut TotalsFields,
) -> u32
    ensures { GivesText show_tc_text show_tc_counts managed.now recording.now
        (lent output.old size.old totals.old) (lent output.new size.new totals.new) result }
{
    give_text(
        alloc,
        Engine::new(VerbName::Show, RecordingKind::Tc),
        managed,
        recording,
        output,
        size,
        totals,
    )
}

/// Lists the anomalies of a recording of TM transfer frames.
#[unsafe(no_mangle)]
pub extern "C" fn sllink_check_tm(
    alloc: Global,
    managed: &ManagedFields,
    recording: &[u8],
    output: &mut [u8],
    size: &mut usize,
    totals: &mut TotalsFields,
) -> u32
    ensures { GivesText check_tm_text check_tm_counts managed.now recording.now
        (lent output.old size.old totals.old) (lent output.new size.new totals.new) result }
{
    give_text(
        alloc,
        Engine::new(VerbName::Check, RecordingKind::Tm),
        managed,
        recording,
        output,
        size,
        totals,
    )
}

/// Lists the anomalies of a recording of TC transfer frames.
#[unsafe(no_mangle)]
pub extern "C" fn sllink_check_tc(
    alloc: Global,
    managed: &ManagedFields,
    recording: &[u8],
    output: &mut [u8],
    size: &mut usize,
    totals: &mut TotalsFields,
) -> u32
    ensures { GivesText check_tc_text check_tc_counts managed.now recording.now
        (lent output.old size.old totals.old) (lent output.new size.new totals.new) result }
{
    give_text(
        alloc,
        Engine::new(VerbName::Check, RecordingKind::Tc),
        managed,
        recording,
        output,
        size,
        totals,
    )
}

/// Lists the packets that a recording of TM transfer frames delivers, idle ones left out.
#[unsafe(no_mangle)]
pub extern "C" fn sllink_packets_tm(
    alloc: Global,
    managed: &ManagedFields,
    recording: &[u8],
    output: &mut [u8],
    size: &mut usize,
    totals: &mut TotalsFields,
) -> u32
    ensures { GivesText packets_tm_text tm_counts managed.now recording.now
        (lent output.old size.old totals.old) (lent output.new size.new totals.new) result }
{
    give_text(
        alloc,
        Engine::new(VerbName::Packets, RecordingKind::Tm),
        managed,
        recording,
        output,
        size,
        totals,
    )
}

/// Lists the packets that a recording of TC transfer frames delivers, idle ones left out.
#[unsafe(no_mangle)]
pub extern "C" fn sllink_packets_tc(
    alloc: Global,
    managed: &ManagedFields,
    recording: &[u8],
    output: &mut [u8],
    size: &mut usize,
    totals: &mut TotalsFields,
) -> u32
    ensures { GivesText packets_tc_text tc_counts managed.now recording.now
        (lent output.old size.old totals.old) (lent output.new size.new totals.new) result }
{
    give_text(
        alloc,
        Engine::new(VerbName::Packets, RecordingKind::Tc),
        managed,
        recording,
        output,
        size,
        totals,
    )
}

/// Gives the normal form of a recording of TM transfer frames.
#[unsafe(no_mangle)]
pub extern "C" fn sllink_normalise_tm(
    alloc: Global,
    managed: &ManagedFields,
    recording: &[u8],
    output: &mut [u8],
    size: &mut usize,
    totals: &mut TotalsFields,
) -> u32
    ensures { GivesText tm_normal_form tm_counts managed.now recording.now
        (lent output.old size.old totals.old) (lent output.new size.new totals.new) result }
{
    give_text(
        alloc,
        Engine::new(VerbName::Normalise, RecordingKind::Tm),
        managed,
        recording,
        output,
        size,
        totals,
    )
}

/// Gives the normal form of a recording of TC transfer frames.
#[unsafe(no_mangle)]
pub extern "C" fn sllink_normalise_tc(
    alloc: Global,
    managed: &ManagedFields,
    recording: &[u8],
    output: &mut [u8],
    size: &mut usize,
    totals: &mut TotalsFields,
) -> u32
    ensures { GivesText tc_normal_form tc_counts managed.now recording.now
        (lent output.old size.old totals.old) (lent output.new size.new totals.new) result }
{
    give_text(
        alloc,
        Engine::new(VerbName::Normalise, RecordingKind::Tc),
        managed,
        recording,
        output,
        size,
        totals,
    )
}

// Gives what an engine makes of a recording.
fn give_text(
    alloc: Global,
    engine: Engine,
    fields: &ManagedFields,
    recording: &[u8],
    output: &mut [u8],
    size: &mut usize,
    totals: &mut TotalsFields,
) -> u32
    ensures { GivesText (engine_text engine.verb engine.kind) (engine_counts engine.verb engine.kind)
        fields.now recording.now (lent output.old size.old totals.old)
        (lent output.new size.new totals.new) result }
{
    let managed = match managed_for(fields, recording.len()) {
        Ok(managed) => managed,
        Err(answer) => return answer.number(),
    };
    match read_whole(alloc, engine, &managed, recording) {
        Some((text, counted)) => {
            *size = text.len();
            *totals = totals_fields(&counted);
            lend(text.as_slice(), output)
        }
        None => Answer::Memory.number(),
    }
}

// Copies as much of the front of a text as there is room for. The answer is `Done` where that is
// all of the text, and else `Room`.
fn lend(text: &[u8], output: &mut [u8]) -> u32
    ensures front { output.new ≡ take (length output.old) text.now
        ++ drop (length text.now) output.old }
    ensures fits { length text.now ≤ length output.old → Says result Answer.Done }
    ensures room { length output.old < length text.now → Says result Answer.Room }
{
    let fits = text.len().min(output.len());
    output[..fits].copy_from_slice(&text[..fits]);
    if fits < text.len() {
        return Answer::Room.number();
    }
    Answer::Done.number()
}

// The text that an engine makes of a recording, and what it counts, or `None` where memory was
// refused. There is no other fault: the reader and the writer are memory, and the recording is
// within the limit.
fn read_whole(
    alloc: Global,
    engine: Engine,
    managed: &Managed,
    recording: &[u8],
) -> Option<(Vec<u8>, Totals)>
    ensures text { IfSome result (λ read. read.0.items
        ≡ engine_text engine.verb engine.kind managed.now recording.now) }
    ensures counts { IfSome result (λ read. read.1
        ≡ engine_counts engine.verb engine.kind managed.now recording.now) }
{
    let mut reader = Counted::new(recording);
    let mut writer = Counted::new(Vec::new(alloc));
    match run_engine(alloc, engine, managed, &mut reader, &mut writer) {
        Ok(totals) => Some((writer.into_inner(), totals)),
        Err(_) => None,
    }
}
