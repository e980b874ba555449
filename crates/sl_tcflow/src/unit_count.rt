//! A service data unit that comes in parts, whose packets are counted and whose octets aren't kept.
ghost use Rattle.std.specs.Prelude.{◌≡◌, ◌≢◌, ◌+◌, ◌*◌, ◌≤◌, ◌++◌, ℕ, List, length, IfNone, IfSome};
ghost use Rattle.sl_packet.specs.Front.{WholePacket, front_of};
ghost use Rattle.sl_packet.specs.Outline.{HasOutline};
ghost use Rattle.sl_packet.specs.Packet.{longest_packet};
ghost use Rattle.sl_tcflow.specs.IncompleteSteps.{service_unit_report};

use crate::report::{EMPTY_STEP, TcStep};
use sl_packet::laws::needs_tell_packets;
use sl_packet::{Need, Outline, count_packets};

/// What is counted of a service data unit so far. A clause with `octets` holds of all octets that
/// have this count.
#[derive(Clone, Copy)]
pub struct UnitCount {
    /// How many octets there are, 0 to 65,542.
    pub octets: u32,
    /// How many packets lie at their front, idle ones left out. As a packet has seven octets or
    /// more, these and the idle ones are 9,363 at most. The numbers are small, since a
    /// [`UnitCounter`](crate::UnitCounter) has a count for each of 4,096 channels.
    pub packets: u16,
    /// How many idle packets are among those at their front.
    pub idle: u16,
    /// The octets after these packets.
    pub rest: Outline,
    ghost fits: { octets ≤ longest_packet },
    ghost within: { 7 * (packets + idle) + rest.octets ≤ octets },
}

impl UnitCount {
    ghost use Rattle.sl_tcflow.specs.UnitCount.{IsCountOf};

    /// The count of these octets, 65,542 at most.
    #[inline(always)]
    pub fn of(octets: &[u8]) -> UnitCount
        requires { length octets.now ≤ longest_packet }
        ensures { IsCountOf octets.now result }
    {
        let counted = count_packets(octets);
        UnitCount {
            octets: octets.len() as u32,
            packets: counted.packets as u16,
            idle: counted.idle as u16,
            rest: Outline::of(counted.remainder),
        }
    }

    /// The count of the octets and a part behind them, 65,542 together at most.
    #[inline(always)]
    pub fn with_part(&self, part: &[u8]) -> UnitCount
        requires { self.now.octets + length part.now ≤ longest_packet }
        ensures { (octets : List ℕ) → IsCountOf octets self.now
            → IsCountOf (octets ++ part.now) result }
    {
        let octets = self.octets + part.len() as u32;
        let rest = self.rest.plus(part);
        let Some(len) = whole_packet(rest) else {
            return UnitCount {
                octets,
                packets: self.packets,
                idle: self.idle,
                rest,
            };
        };
        // The packet that was incomplete ends in this part, and the packets after it are counted.
        // So `len` is never less than `self.rest.octets`; `saturating_sub` spares a proof of it.
        let is_idle = rest.is_idle();
        let (_, later) = part.split_at(len.saturating_sub(self.rest.octets) as usize);
        let later = UnitCount::of(later);
        UnitCount {
            octets,
            packets: self.packets + u16::from(!is_idle) + later.packets,
            idle: self.idle + u16::from(is_idle) + later.idle,
            rest: later.rest,
        }
    }

    /// The report on a segment with which the service data unit ends, where the segment drops no
    /// series.
    #[inline(always)]
    pub fn report(&self) -> TcStep
        ensures { (octets : List ℕ) → IsCountOf octets self.now
            → result ≡ service_unit_report octets }
    {
        TcStep {
            packets: u32::from(self.packets),
            idle: u32::from(self.idle),
            tail: self.rest.octets,
            ..EMPTY_STEP
        }
    }
}

// How many octets the packet has that lies at the front of the octets with this outline. `None` where
// the octets begin with no whole packet.
#[inline(always)]
fn whole_packet(outline: Outline) -> Option<u32>
    ensures whole { IfSome result (λ len. (octets : List ℕ) → HasOutline octets outline
        → front_of octets ≡ WholePacket len) }
    ensures none { IfNone result ((octets : List ℕ) → HasOutline octets outline
        → (len : ℕ) → front_of octets ≢ WholePacket len) }
    ensures least { IfSome result (λ len. 7 ≤ len) }
    ensures within { IfSome result (λ len. len ≤ outline.octets) }
{
    needs_tell_packets();
    match outline.need() {
        Need::Whole(len) => Some(len),
        _ => None,
    }
}
