//! Series of segments up to the greatest service data unit and past it.
use crate::support::packets::{has, longest_and_more, none};
use crate::support::rows::{Stop, passes};
use crate::support::tc::{held, received, receiver, shape};
use sl_cop::Verdict;
use sl_fields::SegmentHeader;
use sl_packet::Delivered;
use sl_tcflow::Receiver;
use sl_tcframe::push_tc;
use std::alloc::Global;
use std::process::Abort;

// A segment that comes later: its frame's number, its flags and octets, the packets that end with
// it, and what is held after it.
type Later<'a> = (usize, u8, &'a [u8], u32, (u32, bool));

// The octets of a series in segments of ten; the flags of its last segment, the packets that end
// with it, and what is held after it; segments that come later; and whether the longest packet is
// delivered or nothing is.
type Series<'a> = (
    &'a str,
    usize,
    u8,
    (u32, (u32, bool)),
    &'a [Later<'a>],
    bool,
);

static SERIES: [Series; 4] = [
    ("a longest packet", 65542, 2, (1, (0, false)), &[], true),
    (
        "one octet more, with which it is given up",
        65543,
        2,
        (0, (0, false)),
        &[],
        false,
    ),
    (
        "the most octets, and a last segment of none",
        65542,
        0,
        (0, (65542, true)),
        &[(6555, 2, &[], 1, (0, false))],
        true,
    ),
    (
        "the most octets, and a last segment of one",
        65542,
        0,
        (0, (65542, true)),
        &[(6555, 2, &[0x33], 0, (0, false))],
        false,
    ),
];

// The last but one of 6,556 segments gives the series up, and the last one ends none. Its ten
// octets alone would be a packet and three more octets.
const ZEROS_LEN: usize = 65540;

const ZEROS: Series = (
    "zeros",
    ZEROS_LEN,
    0,
    (0, (65540, true)),
    &[
        (6554, 0, &[0; 10], 0, (0, false)),
        (6555, 2, &[0; 10], 0, (0, false)),
    ],
    false,
);

// A frame of type AD on virtual channel 0, of a segment of MAP 0 of at most ten octets.
fn segment(alloc: Global, ns: u8, flags: u8, octets: &[u8]) -> Result<Vec<u8>, Stop> {
    let shape = shape(16, false)?;
    let header = SegmentHeader::new(flags, 0).ok_or(Stop::Absent)?;
    let mut frame = Vec::new(alloc);
    if octets.len() > usize::from(shape.room()) {
        return Err(Stop::Absent);
    }
    push_tc(&mut frame, &shape, 1, 0, ns, header, octets)?;
    Ok(frame)
}

// A segment with these flags in the frame of this number: the verdict on that frame, and the
// packets and the idle ones that end with the segment.
fn segment_received(
    alloc: Global,
    receiver: &mut Receiver,
    (number, flags, octets): (usize, u8, &[u8]),
    delivered: &mut Delivered,
) -> Result<(Verdict, u32, u32), Stop> {
    let frame = segment(alloc, (number % 256) as u8, flags, octets)?;
    received(receiver, &frame, delivered)
}

// Segments of ten octets, the last one shorter perhaps, with these flags: the answer to that one.
pub fn segments_received(
    alloc: Global,
    receiver: &mut Receiver,
    octets: &[u8],
    flags_of_last: u8,
    delivered: &mut Delivered,
) -> Result<(Verdict, u32, u32), Stop> {
    let count = octets.len().div_ceil(10);
    let mut last = (Verdict::Late, 0, 0);
    for (number, octets) in octets.chunks(10).enumerate() {
        let flags = match number {
            0 => 1,
            _ if number + 1 == count => flags_of_last,
            _ => 0,
        };
        last = segment_received(alloc, receiver, (number, flags, octets), delivered)?;
    }
    Ok(last)
}

// Whether a later segment is accepted, and ends and leaves what its row says.
fn is_later(
    alloc: Global,
    receiver: &mut Receiver,
    delivered: &mut Delivered,
    later: &Later,
) -> Result<bool, Stop> {
    let (number, flags, octets, packets, wanted) = later;
    let found = segment_received(alloc, receiver, (*number, *flags, octets), delivered)?;
    Ok(found == (Verdict::Accept, *packets, 0) && held(receiver, 0, 0) == *wanted)
}

// Whether the longest packet, at the front of octets, is delivered and no other, or none is.
fn delivers(delivered: &Delivered, octets: &[u8], is_so: bool) -> bool {
    match octets.get(..65542) {
        Some(longest) if is_so => has(delivered, 0, &[longest]),
        _ => !is_so && delivered.at_or_above(0).is_none(),
    }
}

// Whether a series of these octets ends as its row says.
fn is_as_wanted(
    rt: &impl Abort,
    alloc: Global,
    octets: &[u8],
    series: &Series,
) -> Result<bool, Stop> {
    let (_, _, flags, (packets, wanted), later, is_delivered) = series;
    let mut receiver = receiver(alloc, 0)?;
    let mut delivered = none(alloc);
    let last = segments_received(alloc, &mut receiver, octets, *flags, &mut delivered)?;
    let is_held = held(&receiver, 0, 0) == *wanted;
    for row in *later {
        passes(
            rt,
            &row.0,
            is_later(alloc, &mut receiver, &mut delivered, row),
        );
    }
    let is_last = last == (Verdict::Accept, *packets, 0);
    Ok(is_last && is_held && delivers(&delivered, octets, *is_delivered))
}

#[test]
fn long_series(rt: HostRuntime) -> Result<(), Stop> {
    for series in &SERIES {
        let octets = longest_and_more(rt.alloc(), series.1)?;
        let outcome = is_as_wanted(&rt, rt.alloc(), &octets, series);
        passes(&rt, &series.0, outcome);
    }
    Ok(())
}

#[test]
fn a_series_is_given_up_before_its_last_segment(rt: HostRuntime) -> Result<(), Stop> {
    let mut octets = Vec::new(rt.alloc());
    octets.resize(ZEROS_LEN, 0x00)?;
    let outcome = is_as_wanted(&rt, rt.alloc(), &octets, &ZEROS);
    passes(&rt, &ZEROS.0, outcome);
    Ok(())
}
