//! The packets of a recording as lines.
ghost use Rattle.std.specs.Prelude.{ℕ, [], List};
ghost use Rattle.sl_engine.specs.Kind.Delivery.{HasDelivered};

pub mod lines;
pub mod printer;

use crate::io::output::{Output, Written};
use crate::kind::Deliverer;
use crate::link::managed::Managed;
use crate::link::totals::Totals;
use crate::verbs::Verb;
use crate::verbs::packets::printer::{ChannelName, Printer};
use sl_io::LinkFault;
use sl_tcflow::Receiver;
use sl_tmflow::Extractor;
use std::alloc::Global;
use std::io::Write;

/// How the packets of a kind of frames are listed.
pub trait Printed: Deliverer {
    ghost use Rattle.sl_engine.specs.Link.Managed.{Parameters};
    ghost use Rattle.sl_engine.specs.Verbs.Packets.Printed.{ArePrinted};

    /// The lines of the packets that end in a frame that comes after others.
    ghost lines: { Parameters → List (List ℕ) → List ℕ → List ℕ };

    /// How a line names the channel of its packet.
    fn channel_name() -> ChannelName
        // With channels named so, `lines` are those of the packets that end in the frame, idle ones
        // left out.
        ensures { (p : Parameters) → ArePrinted (Self.kind p) result (lines p) };
}

impl Printed for Extractor {
    ghost use Rattle.sl_engine.specs.Verbs.Packets.Tm.{packets_tm_lines};

    ghost lines = { packets_tm_lines };

    #[tactic(auto, using(crate::proofs::lemmas::Verbs::Packets::Printed::tm_printed))]
    fn channel_name() -> ChannelName {
        ChannelName::VirtualChannel
    }
}

impl Printed for Receiver {
    ghost use Rattle.sl_engine.specs.Verbs.Packets.Tc.{packets_tc_lines};

    ghost lines = { packets_tc_lines };

    #[tactic(auto, using(crate::proofs::lemmas::Verbs::Packets::Printed::tc_printed))]
    fn channel_name() -> ChannelName {
        ChannelName::Map
    }
}

/// Lists the packets that end in the frames.
#[derive(Drop)]
pub struct ListPackets<D: Printed> {
    deliverer: D,
    so_far: Totals,
}

impl<D: Printed> ListPackets<D> {
    /// No packets yet. In the clauses 0 is the number of anomalies: `packets` counts none.
    pub fn begin(alloc: Global, managed: &Managed) -> ListPackets<D>
        ensures { HasDelivered (D.kind managed.now) (D.has_processed result.deliverer managed.now)
            [] 0 result.so_far }
    {
        ListPackets {
            deliverer: D::begin(alloc, managed),
            so_far: Totals::none(),
        }
    }
}

impl<D: Printed> Verb for ListPackets<D> {
    ghost use Rattle.sl_engine.specs.Kind.Delivery.{HasDelivered};
    ghost use Rattle.sl_engine.specs.Verbs.Packets.Line.{packets_listing};

    type Framer = D::Framer;

    ghost listing = { λ p. packets_listing (D.kind p) (D.lines p) };

    ghost has_listed = { λ verb p frames. HasDelivered (D.kind p) (D.has_processed verb.deliverer p)
        frames 0 verb.so_far };

    ghost may_refuse_memory = { D.is_incomplete_at_last };

    fn frame<W: Write>(&mut self, managed: &Managed, frame: &[u8], out: &mut Output<W>) -> Written {
        let mut printer = Printer {
            out,
            names: D::channel_name(),
            failures: 0,
        };
        let (report, _) = self.deliverer.deliver(managed, frame, &mut printer)?;
        self.so_far.add(frame.len() as u64, report);
        Ok(())
    }

    fn finish<W: Write>(
        &self,
        _managed: &Managed,
        octets: u64,
        _out: &mut Output<W>,
    ) -> Result<Totals, LinkFault> {
        Ok(self.so_far.with_remainder(octets - self.so_far.octets(), 0))
    }
}
