//! The engines, by what is done with a recording and by the kind of its frames.
ghost use Rattle.std.specs.Prelude.{◌≡◌, IfOk, IfErr};
ghost use Rattle.sl_engine.specs.Engine.{HasWritten, IsStoppedBy, MayRefuseEngineMemory, engine_frames, engine_of};
ghost use Rattle.sl_engine.specs.Framing.{MayRefuseMemoryAtSome};

use crate::link::managed::Managed;
use crate::link::totals::Totals;
use crate::listings::{check_tc, check_tm, packets_tc, packets_tm, show_tc, show_tm};
use crate::normalise::{normalise_tc, normalise_tm};
use sl_io::{Counted, LinkFault};
use std::alloc::Global;
use std::io::{Read, Write};

/// What is done with a recording.
#[derive(Clone, Copy)]
pub enum VerbName {
    /// Its frames are listed.
    Show,
    /// Its anomalies are listed.
    Check,
    /// Its packets are listed.
    Packets,
    /// The normal form of its packets is written.
    Normalise,
}

/// Which transfer frames a recording has.
#[derive(Clone, Copy)]
pub enum RecordingKind {
    /// TM transfer frames.
    Tm,
    /// TC transfer frames.
    Tc,
}

/// What is done with a recording, and which frames it has.
#[derive(Clone, Copy)]
pub struct Engine {
    pub verb: VerbName,
    pub kind: RecordingKind,
}

impl Engine {
    /// The engine of a verb and a kind.
    pub fn new(verb: VerbName, kind: RecordingKind) -> Engine
        ensures { result ≡ engine_of verb kind }
    {
        Engine { verb, kind }
    }
}

/// Calls an engine: for `Show` and `Tm` [`show_tm`], and so on. The faults are the engine's;
/// `Memory` comes where that engine may be refused memory: never for `Show`, nor for `Check` of TM.
pub fn run_engine<R: Read, W: Write>(
    alloc: Global,
    engine: Engine,
    managed: &Managed,
    reader: &mut Counted<R>,
    writer: &mut Counted<W>,
) -> Result<Totals, LinkFault>
    // All is read, the engine's text is written and nothing else, and the totals are its counts.
    ensures written { IfOk result (HasWritten R.remaining W.contents reader.old reader.new
        writer.old writer.new engine managed.now) }
    // A fault has its cause, and a prefix of the text of what was read is written.
    ensures stopped { IfErr result (IsStoppedBy R.remaining W.contents reader.old reader.new
        writer.old writer.new engine managed.now) }
    // Memory is refused only where that engine may be refused it, for a listing of frames, or of
    // the anomalies of TM frames, nowhere.
    ensures memory { IfErr result (λ fault. fault ≡ LinkFault.Memory
        → MayRefuseMemoryAtSome R.remaining reader.old reader.new
        (engine_frames engine.kind managed.now)
        (MayRefuseEngineMemory engine.verb engine.kind managed.now)) }
{
    match (engine.verb, engine.kind) {
        (VerbName::Show, RecordingKind::Tm) => show_tm(managed, reader, writer),
        (VerbName::Show, RecordingKind::Tc) => show_tc(managed, reader, writer),
        (VerbName::Check, RecordingKind::Tm) => check_tm(alloc, managed, reader, writer),
        (VerbName::Check, RecordingKind::Tc) => check_tc(alloc, managed, reader, writer),
        (VerbName::Packets, RecordingKind::Tm) => packets_tm(alloc, managed, reader, writer),
        (VerbName::Packets, RecordingKind::Tc) => packets_tc(alloc, managed, reader, writer),
        (VerbName::Normalise, RecordingKind::Tm) => normalise_tm(alloc, managed, reader, writer),
        (VerbName::Normalise, RecordingKind::Tc) => normalise_tc(alloc, managed, reader, writer),
    }
}
