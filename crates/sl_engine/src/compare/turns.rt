//! Two recordings that are read in turns, a chunk at a time.
ghost use Rattle.std.specs.Prelude.{◌≡◌, ◌⊎◌, ◌+◌, ◌^◌, ◌<◌, ◌≤◌, ◌-◌, ◌++◌, ◌∷◌, [], ℕ, List, false, true, IfOk, IfErr, OnOk, flat_map, length};
ghost use Rattle.std.specs.List.{concat};
ghost use Rattle.sl_packet.specs.Packets.{without_idle};
ghost use Rattle.sl_packet.specs.Sink.{TakesAll};
ghost use Rattle.sl_packet.specs.Stopping.{IsStopped};
ghost use Rattle.sl_pair.specs.Pairing.{ByChannel, StandsAfter, in_order};
ghost use Rattle.sl_engine.specs.Compare.Signs.{signs_by};
ghost use Rattle.sl_engine.specs.Compare.Summarised.{HasSummed, summary_in};
ghost use Rattle.sl_engine.specs.Compare.Turns.{IsReadSoFar, packets_on};
ghost use Rattle.sl_engine.specs.Compare.Words.{word_counts};
ghost use Rattle.sl_engine.specs.Io.Streams.{IsRead, StopsReading};
ghost use Rattle.sl_engine.specs.Kind.Delivery.{MayRefuseStoreMemory};
ghost use Rattle.sl_engine.specs.Link.Managed.{Parameters};
ghost use Rattle.sl_engine.specs.Tally.{no_counts};
ghost use Rattle.sl_engine.specs.Verbs.Check.Lines.{anomalies_by};
ghost use Rattle.sl_engine.specs.Framing.{MayRefuseMemoryAtSome, StopsPassing};

use crate::compare::signs::Signs;
use crate::compare::summary::{Summarised, Summary};
use crate::compare::words::{CheckWord, WordCounts};
use crate::framing::{FrameSink, Framer, read_chunk};
use crate::link::managed::Managed;
use crate::link::totals::Totals;
use sl_io::{Counted, LinkFault};
use sl_packet::{FlowFault, PacketSink};
use sl_pair::{Pairing, Station};
use std::alloc::Global;
use std::hash::BuildHasher;
use std::io::Read;

/// What the frames of a recording delivered so far, counted, and their signs.
#[derive(Drop)]
pub struct Counting<D: Summarised> {
    pub deliverer: D,
    pub so_far: Totals,
    pub words: WordCounts,
    pub signs: Signs,
}

impl<D: Summarised> Counting<D> {
    // Hands a sink the packets that end in the next frame, and counts what `check` has of it.
    fn deliver<P: PacketSink>(
        &mut self,
        managed: &Managed,
        frame: &[u8],
        sink: &mut P,
    ) -> Result<(), FlowFault>
        requires { (before : List (List ℕ)) × HasSummed (D.kind managed.now)
            (anomalies_by D.lines_of (D.found managed.now))
            (D.has_processed self.old.deliverer managed.now)
            (signs_by (D.is_own managed.now) (D.is_long managed.now) (D.begun managed.now))
            self.old.so_far self.old.words self.old.signs before
            × D.Framer.is_frame managed.now frame.now
            × (length (concat before) + length frame.now < 2 ^ 64) }
        ensures delivered { OnOk result ((before : List (List ℕ))
            → HasSummed (D.kind managed.now) (anomalies_by D.lines_of (D.found managed.now))
            (D.has_processed self.old.deliverer managed.now)
            (signs_by (D.is_own managed.now) (D.is_long managed.now) (D.begun managed.now))
            self.old.so_far self.old.words self.old.signs before
            → HasSummed (D.kind managed.now) (anomalies_by D.lines_of (D.found managed.now))
            (D.has_processed self.new.deliverer managed.now)
            (signs_by (D.is_own managed.now) (D.is_long managed.now) (D.begun managed.now))
            self.new.so_far self.new.words self.new.signs (before ++ frame.now ∷ [])
            × TakesAll P.taking sink.old ((D.kind managed.now).channel frame.now)
            (without_idle ((D.kind managed.now).packets_ended_by before frame.now)) sink.new) }
        ensures fault { IfErr result (λ fault. (before : List (List ℕ))
            → D.has_processed self.old.deliverer managed.now before
            → IsStopped P.taking P.failing P.failures sink.old
            ((D.kind managed.now).channel frame.now)
            (without_idle ((D.kind managed.now).packets_ended_by before frame.now)) fault sink.new
            × (fault ≡ FlowFault.Memory
            → D.is_incomplete_at_last managed.now (before ++ frame.now ∷ []))) }
    {
        let (report, found) = self.deliverer.deliver(managed, frame, sink)?;
        let anomalies = D::count_lines(&mut self.words, found);
        self.so_far.add(frame.len() as u64, report);
        self.so_far.add_anomalies(anomalies);
        self.signs.take::<D>(managed, frame, found);
        Ok(())
    }
}

// Pairs the packets that the frames of a recording deliver.
#[derive(Drop)]
struct Turn<'a, 'b, D: Summarised, S: BuildHasher + Copy> {
    counting: &'a mut Counting<D>,
    pairing: &'b mut Pairing<S>,
}

impl<'a, 'b, D: Summarised, S: BuildHasher + Copy> FrameSink for Turn<'a, 'b, D, S> {
    ghost use Rattle.std.specs.Prelude.{◌≡◌};
    ghost use Rattle.sl_engine.specs.Compare.Signs.{signs_by};
    ghost use Rattle.sl_engine.specs.Compare.Summarised.{HasSummed};
    ghost use Rattle.sl_engine.specs.Compare.Turns.{GoesOn};
    ghost use Rattle.sl_engine.specs.Kind.Delivery.{MayRefuseStoreMemory};
    ghost use Rattle.sl_engine.specs.Normalise.Form.{IsMemoryRefused};
    ghost use Rattle.sl_engine.specs.Verbs.Check.Lines.{anomalies_by};

    type Framer = D::Framer;

    // The store is the one that was lent, and after these frames both are as `GoesOn` has it. Those
    // that the recording had before this turn are the first of them.
    ghost took = { λ p start now frames. (now.counting.ghost_name ≡ start.counting.ghost_name)
        × (now.pairing.ghost_name ≡ start.pairing.ghost_name)
        × GoesOn (D.kind p) (HasSummed (D.kind p) (anomalies_by D.lines_of (D.found p))
        (D.has_processed now.counting.now.deliverer p)
        (signs_by (D.is_own p) (D.is_long p) (D.begun p))
        now.counting.now.so_far now.counting.now.words now.counting.now.signs)
        start.counting.now.so_far.frames start.pairing.now now.pairing.now frames };

    ghost stopped = { λ p start now frames fault.
        (now.counting.ghost_name ≡ start.counting.ghost_name)
        × IsMemoryRefused (MayRefuseStoreMemory (D.kind p) (D.is_incomplete_at_last p) frames)
        fault };

    fn frame(&mut self, managed: &Managed, frame: &[u8]) -> Result<(), LinkFault> {
        self.counting.deliver(managed, frame, self.pairing)?;
        Ok(())
    }

    fn pause(&mut self) -> Result<(), LinkFault> {
        Ok(())
    }
}

impl<'a, 'b, D: Summarised, S: BuildHasher + Copy> Turn<'a, 'b, D, S> {
    // Reads the next chunk, and takes the frames that it completes, as `read_chunk` has it. Apart
    // from `read_turn`, which makes the turn: the borrow checker covers a call that is handed a
    // framer of an associated type only where the turn's lifetimes are parameters.
    fn read<R: Read>(
        &mut self,
        managed: &Managed,
        framer: &mut D::Framer,
        reader: &mut Counted<R>,
        buffer: &mut [u8],
        octets: u64,
    ) -> Result<usize, LinkFault>
        requires room { 0 < length buffer.old }
        requires ready { (begun : Counted R) × (so_far : List ℕ)
            × IsReadSoFar R.remaining D.Framer.is_frame D.Framer.waits D.Framer.frames_of
            (⟦<Turn<'a, 'b, D, S> as FrameSink>⟧.took managed.now self.old self.old) managed.now
            begun reader.old framer.old octets so_far }
        ensures passed { IfOk result (λ taken. (begun : Counted R) (so_far : List ℕ)
            → IsReadSoFar R.remaining D.Framer.is_frame D.Framer.waits D.Framer.frames_of
            (⟦<Turn<'a, 'b, D, S> as FrameSink>⟧.took managed.now self.old self.old) managed.now
            begun reader.old framer.old octets so_far
            → (chunk : List ℕ)
            × IsReadSoFar R.remaining D.Framer.is_frame D.Framer.waits D.Framer.frames_of
            (⟦<Turn<'a, 'b, D, S> as FrameSink>⟧.took managed.now self.old self.new) managed.now
            begun reader.new framer.new (octets + taken) (so_far ++ chunk)) }
        ensures end { IfOk result (λ taken. taken ≡ 0 → IsRead R.remaining reader.new) }
        ensures fits { IfOk result (λ taken. octets + taken < 2 ^ 64) }
        ensures fault { IfErr result (λ fault. (begun : Counted R) (so_far : List ℕ)
            → IsReadSoFar R.remaining D.Framer.is_frame D.Framer.waits D.Framer.frames_of
            (⟦<Turn<'a, 'b, D, S> as FrameSink>⟧.took managed.now self.old self.old) managed.now
            begun reader.old framer.old octets so_far
            → StopsPassing R.remaining begun reader.new (D.Framer.frames_of managed.now)
            (⟦<Turn<'a, 'b, D, S> as FrameSink>⟧.took managed.now self.old self.new)
            (⟦<Turn<'a, 'b, D, S> as FrameSink>⟧.stopped managed.now self.old self.new)
            managed.now.max_octets (length buffer.old) fault) }
    {
        read_chunk(managed, framer, self, reader, buffer, octets)
    }
}

/// One of two recordings, as far as it was read.
#[derive(Drop)]
pub struct Recording<D: Summarised> {
    pub framer: D::Framer,
    pub counting: Counting<D>,
    pub octets: u64,
    pub is_read: bool,
}

impl<D: Summarised> Recording<D> {
    /// Nothing was read.
    pub fn begin(alloc: Global, managed: &Managed) -> Recording<D>
        ensures framer { D.Framer.waits result.framer managed.now [] }
        ensures begun { D.has_processed result.counting.deliverer managed.now [] }
        ensures none { result.counting.so_far ≡ no_counts }
        ensures no_words { result.counting.words ≡ word_counts [] }
        ensures no_signs { result.counting.signs ≡ signs_by (D.is_own managed.now)
            (D.is_long managed.now) (D.begun managed.now) [] }
        ensures octets { result.octets ≡ 0 }
        ensures not_read { result.is_read ≡ false }
    {
        Recording {
            framer: D::Framer::begin(managed),
            counting: Counting {
                deliverer: D::begin(alloc, managed),
                so_far: Totals::none(),
                words: WordCounts::none(),
                signs: Signs::none(),
            },
            octets: 0,
            is_read: false,
        }
    }

    /// What `check` has of the recording, in numbers, where all was read.
    pub fn summary(&self) -> Summary
        requires { (p : Parameters) × (frames : List (List ℕ)) × HasSummed (D.kind p)
            (anomalies_by D.lines_of (D.found p)) (D.has_processed self.now.counting.deliverer p)
            (signs_by (D.is_own p) (D.is_long p) (D.begun p)) self.now.counting.so_far
            self.now.counting.words self.now.counting.signs frames
            × (length (concat frames) ≤ self.now.octets) }
        ensures { (p : Parameters) (frames : List (List ℕ)) → HasSummed (D.kind p)
            (anomalies_by D.lines_of (D.found p)) (D.has_processed self.now.counting.deliverer p)
            (signs_by (D.is_own p) (D.is_long p) (D.begun p)) self.now.counting.so_far
            self.now.counting.words self.now.counting.signs frames
            → length (concat frames) ≤ self.now.octets
            → result ≡ summary_in (D.kind p) (anomalies_by D.lines_of (D.found p)) (D.open_at p)
            (signs_by (D.is_own p) (D.is_long p) (D.begun p)) frames
            (self.now.octets - length (concat frames)) }
    {
        let so_far = self.counting.so_far;
        let remainder = self.octets - so_far.octets();
        let mut words = self.counting.words;
        let remainders = words.add(CheckWord::Rest, remainder > 0);
        let incomplete = count_incomplete(&self.counting.deliverer, &mut words);
        Summary {
            totals: so_far.with_remainder(remainder, remainders + incomplete),
            words,
            signs: self.counting.signs,
        }
    }
}

// Counts the lines of what is incomplete at the end of a recording, by their word, and answers how
// many these are. No number depends on the offset that the lines name.
fn count_incomplete<D: Summarised>(deliverer: &D, words: &mut WordCounts) -> u64
    requires { (p : Parameters) × (frames lines : List (List ℕ))
        × D.has_processed deliverer.now p frames × (words.old ≡ word_counts lines)
        × (length lines + length frames < 2 ^ 64) }
    ensures words { (p : Parameters) (offset : ℕ) (frames lines : List (List ℕ)) → offset < 2 ^ 64
        → D.has_processed deliverer.now p frames → words.old ≡ word_counts lines
        → words.new ≡ word_counts (lines ++ flat_map (D.open_at p offset frames)
        (D.kind p).channels) }
    ensures number { (p : Parameters) (offset : ℕ) (frames : List (List ℕ)) → offset < 2 ^ 64
        → D.has_processed deliverer.now p frames
        → result ≡ length (flat_map (D.open_at p offset frames) (D.kind p).channels) }
    ensures few { (p : Parameters) (frames : List (List ℕ))
        → D.has_processed deliverer.now p frames → result ≤ length frames }
{
    let mut number = 0;
    for channel in 0..deliverer.open_below() {
        number += words.add(CheckWord::Open, deliverer.is_incomplete(channel));
    }
    number
}

/// Reads the next chunk of a station's recording, and pairs the packets that its frames deliver.
pub fn read_turn<D: Summarised, R: Read, S: BuildHasher + Copy>(
    managed: &Managed,
    station: Station,
    recording: &mut Recording<D>,
    reader: &mut Counted<R>,
    pairing: &mut Pairing<S>,
    buffer: &mut [u8],
) -> Result<(), LinkFault>
    requires room { 0 < length buffer.old }
    requires ready { (begun : Counted R) × (so_far : List ℕ)
        × IsReadSoFar R.remaining D.Framer.is_frame D.Framer.waits D.Framer.frames_of
        (HasSummed (D.kind managed.now) (anomalies_by D.lines_of (D.found managed.now))
        (D.has_processed recording.old.counting.deliverer managed.now)
        (signs_by (D.is_own managed.now) (D.is_long managed.now) (D.begun managed.now))
        recording.old.counting.so_far recording.old.counting.words recording.old.counting.signs)
        managed.now begun reader.old recording.old.framer recording.old.octets so_far }
    ensures paired { OnOk result ((begun : Counted R) (so_far : List ℕ)
        → IsReadSoFar R.remaining D.Framer.is_frame D.Framer.waits D.Framer.frames_of
        (HasSummed (D.kind managed.now) (anomalies_by D.lines_of (D.found managed.now))
        (D.has_processed recording.old.counting.deliverer managed.now)
        (signs_by (D.is_own managed.now) (D.is_long managed.now) (D.begun managed.now))
        recording.old.counting.so_far recording.old.counting.words recording.old.counting.signs)
        managed.now begun reader.old recording.old.framer recording.old.octets so_far
        → (chunk : List ℕ)
        × IsReadSoFar R.remaining D.Framer.is_frame D.Framer.waits D.Framer.frames_of
        (HasSummed (D.kind managed.now) (anomalies_by D.lines_of (D.found managed.now))
        (D.has_processed recording.new.counting.deliverer managed.now)
        (signs_by (D.is_own managed.now) (D.is_long managed.now) (D.begun managed.now))
        recording.new.counting.so_far recording.new.counting.words recording.new.counting.signs)
        managed.now begun reader.new recording.new.framer recording.new.octets (so_far ++ chunk)
        × ((others : ByChannel)
        → in_order station (StandsAfter pairing.old)
        (packets_on (D.kind managed.now) ((D.kind managed.now).frames_of so_far)) others
        → in_order station (StandsAfter pairing.new)
        (packets_on (D.kind managed.now) ((D.kind managed.now).frames_of (so_far ++ chunk)))
        others)) }
    ensures end { OnOk result (recording.new.is_read ≡ true → IsRead R.remaining reader.new) }
    ensures nearer { OnOk result ((recording.new.is_read ≡ true)
        ⊎ (recording.old.octets < recording.new.octets)) }
    ensures fault { IfErr result (λ fault. (begun : Counted R) (so_far : List ℕ)
        → IsReadSoFar R.remaining D.Framer.is_frame D.Framer.waits D.Framer.frames_of
        (HasSummed (D.kind managed.now) (anomalies_by D.lines_of (D.found managed.now))
        (D.has_processed recording.old.counting.deliverer managed.now)
        (signs_by (D.is_own managed.now) (D.is_long managed.now) (D.begun managed.now))
        recording.old.counting.so_far recording.old.counting.words recording.old.counting.signs)
        managed.now begun reader.old recording.old.framer recording.old.octets so_far
        → StopsReading R.remaining begun reader.new managed.now.max_octets (length buffer.old) fault
        × (fault ≡ LinkFault.Memory → MayRefuseMemoryAtSome R.remaining begun reader.new
        (D.kind managed.now).frames_of (MayRefuseStoreMemory (D.kind managed.now)
        (D.is_incomplete_at_last managed.now)))) }
{
    pairing.take_turn(station);
    let mut turn = Turn {
        counting: &mut recording.counting,
        pairing,
    };
    let octets = recording.octets;
    let taken = turn.read(managed, &mut recording.framer, reader, buffer, octets)?;
    recording.octets = octets + taken as u64;
    recording.is_read = taken == 0;
    Ok(())
}
