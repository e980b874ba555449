//! Every engine over a recording.
use super::rows::Stop;
use super::run::text;
use super::streams::InPieces;
use sl_link::{
    Counted, LinkFault, Managed, Totals, check_tc, check_tm, normalise_tc, normalise_tm,
    packets_tc, packets_tm, show_tc, show_tm,
};
use std::alloc::Global;
use std::io::{Read, Write};

/// The kinds of frames.
#[derive(Clone, Copy, Debug)]
pub enum Kind {
    Tm,
    Tc,
}

/// What is done with a recording.
#[derive(Clone, Copy, Debug, PartialEq)]
pub enum Verb {
    Show,
    Check,
    Packets,
    Normalise,
}

/// All octets at a time.
pub const ALL: usize = usize::MAX;

pub const VERBS: [Verb; 4] = [Verb::Show, Verb::Check, Verb::Packets, Verb::Normalise];

/// A link, where frames of one kind are recorded.
#[derive(Clone, Copy)]
pub struct Link {
    kind: Kind,
    managed: Managed,
}

/// What an engine counted, how many faults its reader and its writer had, and what it wrote.
#[derive(PartialEq, Drop)]
pub struct Answer {
    totals: Totals,
    faults: (u64, u64),
    pub output: Vec<u8>,
}

impl Answer {
    /// What was written, as text.
    pub fn text(&self) -> &str {
        text(self.output.as_slice())
    }

    /// All totals: octets, frames, skipped frames, octets of the remainder, packets, idle packets
    /// and anomalies.
    pub fn counts(&self) -> [u64; 7] {
        let totals = &self.totals;
        [
            totals.octets(),
            totals.frames(),
            totals.skipped(),
            totals.rest(),
            totals.packets(),
            totals.idle(),
            totals.anomalies(),
        ]
    }

    /// Whether an engine counted this, wrote this, and its streams had no fault.
    pub fn is(&self, counts: [u64; 7], output: &[u8]) -> bool {
        self.counts() == counts && self.output.as_slice() == output && self.faults == (0, 0)
    }
}

/// How an engine ended: totals or fault, numbers of faults of reader and writer, and the writer.
#[derive(Drop)]
pub struct Ending<W> {
    pub outcome: Result<Totals, LinkFault>,
    pub faults: (u64, u64),
    pub writer: W,
}

impl<W> Ending<W> {
    /// Whether it answered totals, and its streams had no fault.
    pub fn is_done(&self) -> bool {
        self.outcome.is_ok() && self.faults == (0, 0)
    }

    /// Whether it met this fault, after these faults of the reader and of the writer.
    pub fn is_fault(&self, fault: LinkFault, faults: (u64, u64)) -> bool {
        match self.outcome {
            Ok(_) => false,
            Err(found) => found == fault && self.faults == faults,
        }
    }
}

impl Link {
    /// With frames of (at most) this length, with error control or not, and with this initial V(R).
    pub fn new(kind: Kind, length: u16, fecf: bool, vr: u8, max_octets: u64) -> Result<Link, Stop> {
        let managed = match kind {
            Kind::Tm => Managed::new(1, length, fecf, 16, false, 10, vr, max_octets),
            Kind::Tc => Managed::new(1, 32, false, length, fecf, 10, vr, max_octets),
        };
        match managed {
            Ok(managed) => Ok(Link { kind, managed }),
            Err(_) => Err(Stop::Absent),
        }
    }

    // Runs an engine.
    fn run<R: Read, W: Write>(
        &self,
        alloc: Global,
        verb: Verb,
        reader: &mut Counted<R>,
        writer: &mut Counted<W>,
    ) -> Result<Totals, LinkFault> {
        let link = &self.managed;
        match (self.kind, verb) {
            (Kind::Tm, Verb::Show) => show_tm(link, reader, writer),
            (Kind::Tm, Verb::Check) => check_tm(alloc, link, reader, writer),
            (Kind::Tm, Verb::Packets) => packets_tm(alloc, link, reader, writer),
            (Kind::Tm, Verb::Normalise) => normalise_tm(alloc, link, reader, writer),
            (Kind::Tc, Verb::Show) => show_tc(link, reader, writer),
            (Kind::Tc, Verb::Check) => check_tc(alloc, link, reader, writer),
            (Kind::Tc, Verb::Packets) => packets_tc(alloc, link, reader, writer),
            (Kind::Tc, Verb::Normalise) => normalise_tc(alloc, link, reader, writer),
        }
    }

    /// What an engine answers, where streams give and take at most this number of octets at a time.
    pub fn answer(
        &self,
        alloc: Global,
        verb: Verb,
        recording: &[u8],
        most: usize,
    ) -> Result<Answer, LinkFault> {
        let reader = InPieces(recording, most);
        let writer = InPieces(Vec::new(alloc), most);
        let ending = self.end(alloc, verb, reader, writer);
        Ok(Answer {
            totals: ending.outcome?,
            faults: ending.faults,
            output: ending.writer.0,
        })
    }

    /// Whether what an engine writes all at once is this.
    pub fn writes(
        &self,
        alloc: Global,
        verb: Verb,
        recording: &[u8],
        wanted: &[u8],
    ) -> Result<bool, LinkFault> {
        let answer = self.answer(alloc, verb, recording, ALL)?;
        Ok(answer.output.as_slice() == wanted)
    }

    /// How an engine ends with these streams.
    pub fn end<R: Read + Drop, W: Write>(
        &self,
        alloc: Global,
        verb: Verb,
        reader: R,
        writer: W,
    ) -> Ending<W> {
        let mut reader = Counted::new(reader);
        let mut writer = Counted::new(writer);
        let outcome = self.run(alloc, verb, &mut reader, &mut writer);
        Ending {
            outcome,
            faults: (reader.faults(), writer.faults()),
            writer: writer.into_inner(),
        }
    }
}
