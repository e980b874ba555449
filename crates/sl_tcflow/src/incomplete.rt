//! The series of segments that is incomplete on a MAP.
ghost use Rattle.std.specs.Prelude.{◌≡◌, ◌≢◌, ◌⊎◌, ◌≤◌, ◌<◌, length, None, option_map, OnOk, OnErr};
ghost use Rattle.std.specs.Prelude.{IfOk, IfErr, IfSome};
ghost use Rattle.sl_packet.specs.Delivered.{channel_count};
ghost use Rattle.sl_packet.specs.Packet.{longest_packet};
ghost use Rattle.sl_packet.specs.Stopping.{HandsOver};
ghost use Rattle.sl_tcframe.specs.TcFrame.{longest_unit};
ghost use Rattle.sl_tcflow.specs.Incomplete.{if_fits};
ghost use Rattle.sl_tcflow.specs.IncompleteSteps.{IsReportOnSegment, continued_report, extended};
ghost use Rattle.sl_tcflow.specs.IncompleteSteps.{empty_report, incomplete_with, packets_with};
ghost use Rattle.sl_tcflow.specs.StepReport.{counts_of};

use crate::hand_over::hand;
use crate::report::{EMPTY_STEP, TcStep};
use crate::segment::{CONTINUING, FIRST, LAST, Segment};
use sl_packet::{FlowFault, LONGEST_PACKET, PacketSink, add_part, give_back};
use std::alloc::Global;
use std::marker::Model;

/// The memory of an ended series is kept for the next series where its capacity is at most this
/// number of octets, as the invariant `IsKept` has it too. So a MAP with short series takes memory
/// once, and one with a long series doesn't hold it for ever.
const MOST_KEPT: usize = 4096;

/// The incomplete series of a MAP, if there is one. In clauses it is the octets of the series so
/// far, or `None`.
#[derive(Drop)]
pub struct Incomplete {
    // Whether a series is incomplete.
    is_begun: bool,
    // The octets of this series so far. There are none where no series is incomplete.
    octets: Vec<u8>,
}

impl Model for Incomplete {
    ghost use Rattle.std.specs.Prelude.{Option, List, ℕ};

    ghost Value = { Option (List ℕ) };

    ghost use Rattle.sl_tcflow.specs.IncompleteModel.{octets_so_far, IsKept};

    ghost view = { octets_so_far };

    ghost invariant = { IsKept };
}

impl Incomplete {
    /// The state in which no series is incomplete. It holds no memory.
    pub fn new(alloc: Global) -> Incomplete
        ensures { result ≡ None }
    {
        Incomplete {
            is_begun: false,
            octets: Vec::new(alloc),
        }
    }

    /// The number of octets so far of the incomplete series, 0 to 65,542. `None` where no series is
    /// incomplete.
    #[inline(always)]
    pub fn held(&self) -> Option<u32>
        ensures octets { result ≡ option_map length self.now }
        ensures most { IfSome result (λ octets. octets ≤ longest_packet) }
    {
        if !self.is_begun {
            return None;
        }
        Some(self.octets.len() as u32)
    }

    /// Takes the next segment. Hands the sink the packets of the service data unit that ends with
    /// the segment, and reports their numbers and the segment's anomalies.
    ///
    /// The fault is `Memory` where memory was refused, and `Sink` where the sink refused a packet.
    /// Clauses don't say what is incomplete after a fault.
    #[inline(always)]
    pub fn advance<S: PacketSink>(
        &mut self,
        segment: &Segment,
        sink: &mut S,
    ) -> Result<TcStep, FlowFault>
        // The series continues, begins or ends as the sequence flags say.
        ensures state { OnOk result (self.new
            ≡ incomplete_with self.old segment.now.flags segment.now.octets) }

        // The sink is handed the packets that end with the segment, and the step reports them.
        ensures hands_over { HandsOver S.taking S.failing S.failures counts_of
            sink.old segment.now.channel
            (packets_with self.old segment.now.flags segment.now.octets) result sink.new }
        ensures step { IfOk result
            (IsReportOnSegment self.old segment.now.flags segment.now.octets) }

        // Memory is refused only where a series is incomplete, before the segment or after it.
        ensures memory { IfErr result (λ flow. flow ≡ FlowFault.Memory → (self.old ≢ None)
            ⊎ (incomplete_with self.old segment.now.flags segment.now.octets ≢ None)) }
    {
        match segment.flags {
            CONTINUING => self.extend(segment.octets),
            FIRST => self.begin_series(segment.octets),
            LAST => self.end(segment.octets, segment.channel, sink),
            // `WHOLE`, no segmentation
            _ => {
                let held = self.release();
                match hand(sink, segment.channel, segment.octets) {
                    Ok(step) => Ok(TcStep {
                        dropped: held,
                        ..step
                    }),
                    Err(flow) => Err(flow),
                }
            }
        }
    }

    // Begins a series with these octets, which are never too many for one (`if_fits`). Drops the
    // incomplete series before, if there is one.
    #[inline(always)]
    fn begin_series(&mut self, octets: &[u8]) -> Result<TcStep, FlowFault>
        requires { length octets.now ≤ longest_unit }
        ensures state { OnOk result (self.new ≡ if_fits octets.now) }
        ensures step { IfOk result (λ step.
            step ≡ record empty_report { dropped = option_map length self.old }) }
        ensures only_memory { IfErr result (λ flow. flow ≡ FlowFault.Memory) }
    {
        let dropped = self.release();
        self.is_begun = true;
        match add_part(&mut self.octets, octets) {
            Ok(()) => Ok(TcStep {
                dropped,
                ..EMPTY_STEP
            }),
            Err(_) => Err(FlowFault::Memory),
        }
    }

    // Continues the incomplete series with these octets, and gives the series up where it becomes
    // too long. Where no series is incomplete, the octets are dropped, and the report says so
    // (`stray`).
    #[inline(always)]
    fn extend(&mut self, octets: &[u8]) -> Result<TcStep, FlowFault>
        requires { length octets.now ≤ longest_unit }
        ensures state { OnOk result (self.new ≡ extended self.old octets.now) }
        ensures step { IfOk result (λ step. step ≡ continued_report self.old octets.now) }

        // The only fault is `Memory`, and only where a series is incomplete.
        ensures only_memory { IfErr result (λ flow. flow ≡ FlowFault.Memory) }
        ensures begun { OnErr result (self.old ≢ None) }
    {
        if !self.is_begun {
            return Ok(TcStep {
                stray: true,
                ..EMPTY_STEP
            });
        }
        if self.octets.len() + octets.len() > LONGEST_PACKET {
            self.release();
            return Ok(TcStep {
                long: true,
                ..EMPTY_STEP
            });
        }
        match add_part(&mut self.octets, octets) {
            Ok(()) => Ok(EMPTY_STEP),
            Err(_) => Err(FlowFault::Memory),
        }
    }

    // Ends the incomplete series with these octets, and hands the sink its packets. Where no series
    // is incomplete, or the series becomes too long, the sink is handed nothing, and the report
    // says so. The number 2 in the clauses is the sequence flags of a last segment.
    #[inline(always)]
    fn end<S: PacketSink>(
        &mut self,
        octets: &[u8],
        channel: u16,
        sink: &mut S,
    ) -> Result<TcStep, FlowFault>
        requires short { length octets.now ≤ longest_unit }
        requires channel { channel < channel_count }
        ensures state { OnOk result (self.new ≡ None) }
        ensures hands_over { HandsOver S.taking S.failing S.failures counts_of
            sink.old channel (packets_with self.old 2 octets.now) result sink.new }
        ensures step { IfOk result (IsReportOnSegment self.old 2 octets.now) }
        ensures memory { IfErr result (λ flow. flow ≡ FlowFault.Memory → self.old ≢ None) }
    {
        // `match` and not `?`: `?` converts the fault, and each clause on faults would then have to
        // be proved by hand.
        let step = match self.extend(octets) {
            Ok(step) => step,
            Err(flow) => return Err(flow),
        };
        if !self.is_begun {
            return Ok(step);
        }
        let ended = hand(sink, channel, self.octets.as_slice());
        self.close();
        ended
    }

    // Clears a series that has ended. Its memory is kept for the next series where the capacity is
    // at most `MOST_KEPT`, and is given back otherwise.
    #[inline(always)]
    fn close(&mut self)
        ensures { self.new ≡ None }
    {
        if self.octets.capacity() > MOST_KEPT {
            self.release();
            return;
        }
        self.is_begun = false;
        self.octets.clear();
    }

    // Clears the series, if there is one, and gives its memory back. Answers how many octets the
    // series had so far, 0 to 65,542.
    #[inline(always)]
    fn release(&mut self) -> Option<u32>
        ensures none { self.new ≡ None }
        ensures held { result ≡ option_map length self.old }
        ensures most { IfSome result (λ held. held ≤ longest_packet) }
    {
        let held = self.held()?;
        self.is_begun = false;
        give_back(&mut self.octets);
        Some(held)
    }
}
