//! Listings of a recording, written while it is read.
ghost use Rattle.std.specs.Prelude.{◌≡◌, ◌+◌, ◌-◌, ◌^◌, ◌<◌, ◌≤◌, ◌++◌, ◌∷◌, [], length, IfOk, IfErr, OnErr, OnOk};
ghost use Rattle.std.specs.List.{concat};
ghost use Rattle.sl_engine.specs.Io.Output.{Adds, KeepsWriter};
ghost use Rattle.sl_engine.specs.Io.Streams.{StopsWriting};
ghost use Rattle.sl_engine.specs.Verbs.Listing.{EndsListing};

pub mod check;
pub mod packets;
pub mod show;

use crate::framing::{FrameSink, Framer, read_recording};
use crate::io::lines::Lines;
use crate::io::output::{Output, Written};
use crate::link::managed::Managed;
use crate::link::totals::Totals;
use sl_io::{Counted, LinkFault};
use std::io::{Read, Write};

/// A verb that lists, `show`, `check` or `packets`, for one kind of frames. A clause with `before`
/// or `frames` holds for every list of frames listed before. After a fault too, the output still
/// holds the lent writer (`lent`), and a prefix of the waiting and new lines has been written
/// (`fault`).
pub trait Verb {
    ghost use Rattle.sl_engine.specs.Link.Managed.{Parameters};
    ghost use Rattle.sl_engine.specs.Verbs.Listing.{Frames, Listing};

    /// What delimits the frames.
    type Framer: Framer;

    /// What the verb writes and counts.
    ghost listing: { Parameters → Listing };

    /// The verb has listed these frames.
    ghost has_listed: { Self → Parameters → Frames → Type 0 };

    /// Memory may be refused at the last of these frames.
    ghost may_refuse_memory: { Parameters → Frames → Type 0 };

    /// Adds the lines of the next frame. Lines are written where room is wanted.
    fn frame<W: Write>(&mut self, managed: &Managed, frame: &[u8], out: &mut Output<W>) -> Written
        requires { (before : Frames) × has_listed self.old managed.now before
            × Self.Framer.is_frame managed.now frame.now
            × (length (concat before) + length frame.now < 2 ^ 64) }
        ensures has_listed { OnOk result ((before : Frames) → has_listed self.old managed.now
            before → has_listed self.new managed.now (before ++ frame.now ∷ [])) }
        ensures lines { OnOk result ((before : Frames) → has_listed self.old managed.now before
            → Adds W.contents out.old ((listing managed.now).lines before frame.now) out.new) }
        ensures lent { OnErr result (KeepsWriter out.old out.new) }
        ensures fault { IfErr result (λ fault. (before : Frames)
            → has_listed self.old managed.now before
            → StopsWriting W.contents out.old.writer.now out.new.writer.now
            (out.old.lines ++ (listing managed.now).lines before frame.now)
            (may_refuse_memory managed.now (before ++ frame.now ∷ [])) fault) };

    /// Adds the lines after the last frame of a recording of `octets` octets, and answers the
    /// totals. `managed` is there for the clauses.
    fn finish<W: Write>(
        &self,
        managed: &Managed,
        octets: u64,
        out: &mut Output<W>,
    ) -> Result<Totals, LinkFault>
        requires { (frames : Frames) × has_listed self.now managed.now frames
            × (length (concat frames) ≤ octets) }
        ensures lines { OnOk result ((frames : Frames) → has_listed self.now managed.now frames
            → Adds W.contents out.old
            ((listing managed.now).last frames (octets - length (concat frames))) out.new) }
        ensures counts { IfOk result (λ totals. (frames : Frames)
            → has_listed self.now managed.now frames → totals ≡ (listing managed.now).counts frames
            (octets - length (concat frames))) }
        ensures lent { OnErr result (KeepsWriter out.old out.new) }
        ensures fault { IfErr result (λ fault. (frames : Frames)
            → has_listed self.now managed.now frames
            → StopsWriting W.contents out.old.writer.now out.new.writer.now (out.old.lines
            ++ (listing managed.now).last frames (octets - length (concat frames))) ⊥ fault) };
}

/// A verb, with the output that it lists into: a sink of frames.
#[derive(Drop)]
pub struct Lister<'a, 'b, 'c, W: Write, V: Verb> {
    pub verb: &'a mut V,
    pub out: &'b mut Output<'c, W>,
}

impl<'a, 'b, 'c, W: Write, V: Verb> FrameSink for Lister<'a, 'b, 'c, W, V> {
    ghost use Rattle.std.specs.Prelude.{◌≡◌, ◌++◌, []};
    ghost use Rattle.sl_engine.specs.Io.Output.{Adds, KeepsWriter};
    ghost use Rattle.sl_engine.specs.Io.Streams.{StopsWriting};
    ghost use Rattle.sl_engine.specs.Verbs.Listing.{lines_from};

    type Framer = V::Framer;

    // The verb and the output are those that were lent, and the lines of these frames were added.
    ghost took = { λ p start now frames. (now.verb.ghost_name ≡ start.verb.ghost_name)
        × (now.out.ghost_name ≡ start.out.ghost_name) × V.has_listed now.verb.now p frames
        × Adds W.contents start.out.now (lines_from (V.listing p).lines [] frames) now.out.now };

    // The output and its writer are those that were lent, and a prefix of the waiting lines and
    // those of these frames was written.
    ghost stopped = { λ p start now frames fault. (now.out.ghost_name ≡ start.out.ghost_name)
        × KeepsWriter start.out.now now.out.now
        × StopsWriting W.contents start.out.now.writer.now now.out.now.writer.now
        (start.out.now.lines ++ lines_from (V.listing p).lines [] frames)
        (V.may_refuse_memory p frames) fault };

    fn frame(&mut self, managed: &Managed, frame: &[u8]) -> Written {
        self.verb.frame(managed, frame, self.out)
    }

    fn pause(&mut self) -> Written {
        self.out.flush()
    }
}

// Reads a recording to its end, and writes the listing of it into an output in which no line waits.
// Apart from `list`, which owns the output, because the proofs of a verb's steps are about a
// borrowed one.
fn list_into<V: Verb, R: Read, W: Write>(
    managed: &Managed,
    verb: &mut V,
    reader: &mut Counted<R>,
    out: &mut Output<W>,
    buffer: &mut [u8],
) -> Result<Totals, LinkFault>
    requires room { 0 < length buffer.old }
    requires begun { V.has_listed verb.old managed.now [] }
    requires empty { out.old.lines ≡ [] }
    ensures { KeepsWriter out.old out.new
        × EndsListing R.remaining W.contents reader.old reader.new out.old.writer.now
        out.new.writer.now (V.Framer.frames_of managed.now) (V.listing managed.now)
        managed.now.max_octets (length buffer.old) (V.may_refuse_memory managed.now) result }
{
    // A copy, which may stay in registers over the frames: `check` takes 2 to 5 % fewer
    // instructions.
    let managed = *managed;
    let mut lister = Lister { verb, out };
    let octets = read_recording(&managed, &mut lister, reader, buffer)?;
    let totals = verb.finish(&managed, octets, out)?;
    out.flush()?;
    Ok(totals)
}

/// Reads a recording to its end, and writes the listing of it. `buffer` is for what is read at
/// once; the contract holds of any length but 0.
pub fn list<V: Verb, R: Read, W: Write>(
    managed: &Managed,
    verb: &mut V,
    reader: &mut Counted<R>,
    writer: &mut Counted<W>,
    buffer: &mut [u8],
) -> Result<Totals, LinkFault>
    requires room { 0 < length buffer.old }
    requires begun { V.has_listed verb.old managed.now [] }
    ensures { EndsListing R.remaining W.contents reader.old reader.new writer.old writer.new
        (V.Framer.frames_of managed.now) (V.listing managed.now) managed.now.max_octets
        (length buffer.old) (V.may_refuse_memory managed.now) result }
{
    let mut out = Output {
        writer,
        lines: Lines::new(),
    };
    list_into(managed, verb, reader, &mut out, buffer)
}
