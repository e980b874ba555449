//! Virtual channels that begin with a V(R) of their own.
ghost use Rattle.std.specs.Prelude.{◌≤◌};

use crate::support::packets::{has, none};
use crate::support::recordings::LEAST;
use crate::support::rows::{Stop, holds, passes};
use crate::support::tc::{clcw, is_form, received, receiver_with, set_of};
use sl_cop::{Starts, Verdict};
use sl_packet::Delivered;
use sl_tcflow::Receiver;
use sl_tcframe::VcSet;
use std::alloc::Global;

// The frames of `LEAST` on virtual channels 0, 5 and 6 with N(S) 0, 255 and 1, each with the
// channel of its packet.
const FRAMES: [(u16, [u8; 13]); 3] = [
    (
        0,
        [
            0x00, 0x01, 0x00, 0x0C, 0x00, 0xC0, //
            0x10, 0x02, 0xC0, 0x01, 0x00, 0x00, 0xEE,
        ],
    ),
    (
        320,
        [
            0x00, 0x01, 0x14, 0x0C, 0xFF, 0xC0, //
            0x10, 0x02, 0xC0, 0x01, 0x00, 0x00, 0xEE,
        ],
    ),
    (
        384,
        [
            0x00, 0x01, 0x18, 0x0C, 0x01, 0xC0, //
            0x10, 0x02, 0xC0, 0x01, 0x00, 0x00, 0xEE,
        ],
    ),
];

// The same end to end.
const FORM: [u8; 39] = [
    0x00, 0x01, 0x00, 0x0C, 0x00, 0xC0, //
    0x10, 0x02, 0xC0, 0x01, 0x00, 0x00, 0xEE, //
    0x00, 0x01, 0x14, 0x0C, 0xFF, 0xC0, //
    0x10, 0x02, 0xC0, 0x01, 0x00, 0x00, 0xEE, //
    0x00, 0x01, 0x18, 0x0C, 0x01, 0xC0, //
    0x10, 0x02, 0xC0, 0x01, 0x00, 0x00, 0xEE,
];

// That of the last channel without a segment header.
const PLAIN: [u8; 12] = [
    0x00, 0x01, 0x18, 0x0B, 0x01, //
    0x10, 0x02, 0xC0, 0x01, 0x00, 0x00, 0xEE,
];

const PACKETS: [(u16, &[u8]); 3] = [(384, &LEAST), (320, &LEAST), (0, &LEAST)];

// V(R) 0 for all virtual channels but two.
fn starts() -> Starts {
    Starts::all(0).with(5, 255).with(6, 1)
}

// Whether a virtual channel reports the V(R) that it begins with.
fn reports(receiver: &Receiver, vc: u8) -> bool
    requires { vc ≤ 63 }
{
    let vr = match vc {
        5 => 255,
        6 => 1,
        _ => 0,
    };
    clcw(receiver, vc) == [0x01, vc << 2, 0x00, vr]
}

// Whether a frame is accepted, and brings a packet on its channel.
fn is_brought(
    receiver: &mut Receiver,
    delivered: &mut Delivered,
    channel: u16,
    frame: &[u8; 13],
) -> Result<bool, Stop> {
    let found = received(receiver, frame, delivered)?;
    Ok(found == (Verdict::Accept, 1, 0) && has(delivered, channel, &[&LEAST]))
}

// The V(R) of virtual channel 5 goes on from 255 to 0.
#[test]
fn each_virtual_channel_begins_with_its_own(rt: HostRuntime) -> Result<(), Stop> {
    let mut receiver = receiver_with(rt.alloc(), &starts(), VcSet::new())?;
    let mut delivered = none(rt.alloc());
    for vc in 0..64 {
        holds(&rt, &vc, reports(&receiver, vc));
    }
    for (channel, frame) in &FRAMES {
        let outcome = is_brought(&mut receiver, &mut delivered, *channel, frame);
        passes(&rt, channel, outcome);
    }
    let word = clcw(&receiver, 5);
    holds(&rt, &"virtual channel 5", word == [0x01, 0x14, 0x00, 0x00]);
    Ok(())
}

// Whether that is the normal form, without segment headers on these virtual channels.
fn counts_from_them(
    alloc: Global,
    plain: &[u8],
    packets: &[(u16, &[u8])],
    form: &[u8],
) -> Result<bool, Stop> {
    let channels = (&starts(), &set_of(plain));
    is_form(alloc, (24, false), channels, packets, form)
}

#[test]
fn the_normal_form_counts_from_them(rt: HostRuntime) {
    let outcome = counts_from_them(rt.alloc(), &[], &PACKETS, &FORM);
    passes(&rt, &FORM, outcome);
    let outcome = counts_from_them(rt.alloc(), &[6], &[(384, &LEAST)], &PLAIN);
    passes(&rt, &PLAIN, outcome);
}
