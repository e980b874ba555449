//! Packets that frames without segment headers can carry.
ghost use Rattle.std.specs.Prelude.{◌≤◌, ◌↔◌, vec_len, IsTrue};
ghost use Rattle.std.specs.List.{AllByRecursion};
ghost use Rattle.sl_tcflow.specs.Fits.{FitsOn, FitsTc};

use sl_packet::Delivered;
use sl_tcframe::{TcShape, VcSet};

/// Whether frames of this `shape` (CCSDS 232.0-B) can carry the packets. `plain` has the virtual
/// channels whose frames have no segment headers. On these, all packets are on MAP 0, and each
/// packet has at most [`TcShape::plain_room`] octets, since one frame carries it whole. Other
/// virtual channels can carry all packets.
///
/// The packets of virtual channel `v` and MAP `m` are on channel `64 * v + m`. The call takes no
/// memory.
pub fn fits_tc(shape: &TcShape, plain: &VcSet, delivered: &Delivered) -> bool
    ensures { IsTrue result ↔ FitsTc shape.now plain.now delivered.now.lists }
{
    for vc in 0..64 {
        if plain.has(vc) && !fits_on(shape, vc, delivered) {
            return false;
        }
    }
    true
}

// Whether frames without segment headers can carry the packets of the virtual channel `vc`, 0 to
// 63.
fn fits_on(shape: &TcShape, vc: u8, delivered: &Delivered) -> bool
    requires { vc ≤ 63 }
    ensures { IsTrue result ↔ FitsOn shape.now delivered.now.lists vc }
{
    let channel = 64 * u16::from(vc);
    // If the next channel that has packets is another MAP of this virtual channel, the frames can't
    // carry these packets.
    if let Some(next) = delivered.at_or_above(channel + 1) {
        if next < channel + 64 {
            return false;
        }
    }
    fit(shape.plain_room(), delivered.list(channel))
}

// Whether each packet has at most `room` octets.
fn fit(room: u16, packets: &[Vec<u8>]) -> bool
    ensures { IsTrue result ↔ AllByRecursion (λ packet. vec_len packet ≤ room) packets.now }
{
    packets
        .iter()
        .all(|packet| packet.len() <= usize::from(room))
}
