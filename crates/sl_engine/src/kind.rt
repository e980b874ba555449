//! The packets of frames of either kind, TM or TC, delivered or counted, and what is found of the
//! frames.
ghost use Rattle.std.specs.Prelude.{◌≡◌, ◌++◌, ◌∷◌, [], ℕ, List, OnOk, IfOk, IfErr};
ghost use Rattle.sl_packet.specs.Packets.{without_idle};
ghost use Rattle.sl_packet.specs.Stopping.{IsStopped};
ghost use Rattle.sl_engine.specs.Kind.Delivery.{Brings, Delivers};

pub mod tc;
pub mod tm;

use crate::framing::Framer;
use crate::link::managed::Managed;
use crate::tally::FrameReport;
use sl_packet::{FlowFault, PacketSink};
use std::alloc::Global;

/// Follows the frames of one kind, which are given one after another: a [`Deliverer`] of their
/// packets, or a [`Counter`]. A clause with `before` holds for every list of frames given before.
pub trait Followed: Drop {
    ghost use Rattle.sl_engine.specs.Link.Managed.{Parameters};
    ghost use Rattle.sl_engine.specs.Kind.Delivery.{IsWithin, Kind};

    /// What delimits the frames.
    type Framer: Framer;

    /// What is found of a frame: why it is skipped, or else a [`TmFound`](tm::TmFound) or a
    /// [`TcFound`](tc::TcFound).
    type Found: Copy;

    /// The kind of the frames, which says what they deliver.
    ghost kind: { Parameters → Kind };

    /// Whether the state is the one after these frames, processed in this order.
    ghost has_processed: { Self → Parameters → List (List ℕ) → Type 0 };

    /// What is found of a frame that comes after others.
    ghost found: { Parameters → List (List ℕ) → List ℕ → Self.Found };

    /// The kind adds packets by channel, and the frames that were processed deliver at most as many
    /// packets as they have octets.
    ghost within: { (state : Self) (p : Parameters) (frames : List (List ℕ))
        → has_processed state p frames → IsWithin (kind p) frames };

    /// The frames that the framer cuts are those of the kind.
    ghost frames: { (p : Parameters) → Self.Framer.frames_of p ≡ (kind p).frames_of };
}

/// Delivers the packets of frames of one kind, and reports what is found of the frames.
pub trait Deliverer: Followed {
    ghost use Rattle.sl_engine.specs.Link.Managed.{Parameters};

    /// Whether a packet, or a series of segments, is incomplete on the channel of the last of these
    /// frames, before that frame or after it: only then may its delivery take memory. For TC this
    /// implies that the frame's unit was accepted.
    ghost is_incomplete_at_last: { Parameters → List (List ℕ) → Type 0 };

    /// No frame has been processed yet. Memory is taken only as frames come.
    fn begin(alloc: Global, managed: &Managed) -> Self
        ensures { Self.has_processed result managed.now [] };

    /// Hands a sink the packets that end in the next frame, idle packets left out. Answers the
    /// report on the frame, which is whether it is skipped and its numbers of packets, and what is
    /// found of it. In a skipped frame no packet ends. The fault is the sink's, or `Memory`.
    fn deliver<S: PacketSink>(
        &mut self,
        managed: &Managed,
        frame: &[u8],
        sink: &mut S,
    ) -> Result<(FrameReport, Self::Found), FlowFault>
        requires { (before : List (List ℕ)) × Self.has_processed self.old managed.now before
            × Self.Framer.is_frame managed.now frame.now }
        ensures processed { OnOk result ((before : List (List ℕ))
            → Self.has_processed self.old managed.now before
            → Self.has_processed self.new managed.now (before ++ frame.now ∷ [])) }
        ensures delivers { IfOk result (λ answer. (before : List (List ℕ))
            → Self.has_processed self.old managed.now before
            → Delivers S.taking (Self.kind managed.now) before frame.now sink.old answer.0
            sink.new) }
        ensures found { IfOk result (λ answer. (before : List (List ℕ))
            → Self.has_processed self.old managed.now before
            → answer.1 ≡ Self.found managed.now before frame.now) }
        ensures stopped { IfErr result (λ fault. (before : List (List ℕ))
            → Self.has_processed self.old managed.now before
            → IsStopped S.taking S.failing S.failures sink.old
            ((Self.kind managed.now).channel frame.now)
            (without_idle ((Self.kind managed.now).packets_ended_by before frame.now)) fault
            sink.new) }
        // The fault is `Memory` only where something is incomplete. A sink that is refused memory
        // has another fault.
        ensures memory { IfErr result (λ fault. (before : List (List ℕ))
            → Self.has_processed self.old managed.now before → fault ≡ FlowFault.Memory
            → is_incomplete_at_last managed.now (before ++ frame.now ∷ [])) };
}

/// Counts the packets of frames of one kind, as a deliverer has them, and reports the same of the
/// frames. Of a packet it keeps no octets but those of its header.
pub trait Counter: Followed {
    ghost use Rattle.sl_engine.specs.Link.Managed.{Parameters};

    /// Whether memory may be refused at the last of these frames.
    ghost may_refuse_memory: { Parameters → List (List ℕ) → Type 0 };

    /// No frame has been processed yet.
    fn begin(alloc: Global, managed: &Managed) -> Self
        ensures { Self.has_processed result managed.now [] };

    /// Takes the next frame. Answers the report on it, which is whether it is skipped and its
    /// numbers of packets, and what is found of it. The only fault is `Memory`.
    fn count(
        &mut self,
        managed: &Managed,
        frame: &[u8],
    ) -> Result<(FrameReport, Self::Found), FlowFault>
        requires { (before : List (List ℕ)) × Self.has_processed self.old managed.now before
            × Self.Framer.is_frame managed.now frame.now }
        ensures processed { OnOk result ((before : List (List ℕ))
            → Self.has_processed self.old managed.now before
            → Self.has_processed self.new managed.now (before ++ frame.now ∷ [])) }
        ensures brings { IfOk result (λ answer. (before : List (List ℕ))
            → Self.has_processed self.old managed.now before
            → Brings (Self.kind managed.now) before frame.now answer.0) }
        ensures found { IfOk result (λ answer. (before : List (List ℕ))
            → Self.has_processed self.old managed.now before
            → answer.1 ≡ Self.found managed.now before frame.now) }
        ensures memory { IfErr result (λ fault. (before : List (List ℕ))
            → Self.has_processed self.old managed.now before → (fault ≡ FlowFault.Memory)
            × may_refuse_memory managed.now (before ++ frame.now ∷ [])) };
}
