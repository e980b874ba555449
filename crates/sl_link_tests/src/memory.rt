//! Memory that is refused: at any growth, what was written is the beginning of the text, and
//! nothing of a normal form. `rt try --test --fail-alloc N` refuses the Nth.
use super::support::engines::{Ending, Kind, Link, Verb};
use super::support::recordings::TC_FRAME;
use super::support::rows::{Stop, passes};
use super::support::streams::Page;
use arrayvec::ArrayVec;
use sl_link::LinkFault;
use std::alloc::Global;

// A packet of 23 octets, and one of ten in two frames, between which is an idle one.
const TM: [u8; 96] = [
    0x00, 0x10, 0x00, 0x00, 0x18, 0x00, 0x00, 0x02, 0xC0, 0x05, 0x00, 0x10, 0x11, 0x11, 0x11, 0x11,
    0x11, 0x11, 0x11, 0x11, 0x11, 0x11, 0x11, 0x11, 0x11, 0x11, 0x11, 0x11, 0x11, 0x00, 0x03, 0xC0,
    0x00, 0x10, 0x01, 0x01, 0x1F, 0xFE, 0x55, 0x55, 0x55, 0x55, 0x55, 0x55, 0x55, 0x55, 0x55, 0x55,
    0x55, 0x55, 0x55, 0x55, 0x55, 0x55, 0x55, 0x55, 0x55, 0x55, 0x55, 0x55, 0x55, 0x55, 0x55, 0x55,
    0x00, 0x10, 0x02, 0x02, 0x18, 0x07, 0x00, 0x00, 0x03, 0x01, 0x02, 0x03, 0x04, 0x00, 0x01, 0xC0,
    0x00, 0x00, 0x03, 0xAA, 0xBB, 0xCC, 0xDD, 0x07, 0xFF, 0xC0, 0x00, 0x00, 0x02, 0x00, 0x00, 0x00,
];

const TM_FORM: [u8; 64] = [
    0x00, 0x10, 0x00, 0x00, 0x18, 0x00, 0x00, 0x02, 0xC0, 0x05, 0x00, 0x10, 0x11, 0x11, 0x11, 0x11,
    0x11, 0x11, 0x11, 0x11, 0x11, 0x11, 0x11, 0x11, 0x11, 0x11, 0x11, 0x11, 0x11, 0x00, 0x03, 0xC0,
    0x00, 0x10, 0x01, 0x01, 0x18, 0x07, 0x00, 0x00, 0x03, 0x01, 0x02, 0x03, 0x04, 0x00, 0x01, 0xC0,
    0x00, 0x00, 0x03, 0xAA, 0xBB, 0xCC, 0xDD, 0x07, 0xFF, 0xC0, 0x00, 0x00, 0x02, 0x00, 0x00, 0x00,
];

const TM_SHOWN: &[u8] = b"0 frame vc 0 mc 0 vcc 0 first 0\n\
    32 frame vc 0 mc 1 vcc 1 idle\n\
    64 frame vc 0 mc 2 vcc 2 first 7\n";

const TM_CHECKED: &[u8] = b"frames 3 skipped 0 packets 3 idle 1 anomalies 0\n";

const TM_PACKETS: &[u8] = b"vc 0 apid 2 type 0 secondary 0 flags 3 count 5 octets 23 \
    0002c00500101111111111111111111111111111111111\n\
    vc 0 apid 3 type 0 secondary 0 flags 3 count 0 octets 10 0003c000000301020304\n\
    vc 0 apid 1 type 0 secondary 0 flags 3 count 0 octets 10 0001c0000003aabbccdd\n";

// A packet of ten octets in three segments.
const TC: [u8; 28] = [
    0x20, 0x01, 0x00, 0x0A, 0x00, 0x40, 0x10, 0x01, 0xC0, 0x00, 0x00, 0x20, 0x01, 0x00, 0x07, 0x00,
    0x00, 0x03, 0xAA, 0x20, 0x01, 0x00, 0x08, 0x00, 0x80, 0xBB, 0xCC, 0xDD,
];

const TC_SHOWN: &[u8] = b"0 frame vc 0 bd segment first map 0 octets 5 accept clcw 01000200\n\
    11 frame vc 0 bd segment middle map 0 octets 2 accept clcw 01000400\n\
    19 frame vc 0 bd segment last map 0 octets 3 accept clcw 01000600\n";

const TC_CHECKED: &[u8] = b"frames 3 skipped 0 packets 1 idle 0 anomalies 0\n";

const TC_PACKETS: &[u8] = b"vc 0 map 0 apid 1 type 1 secondary 0 flags 3 count 0 octets 10 \
    1001c0000003aabbccdd\n";

type Case<'a> = (Kind, u16, &'a [u8], Verb, &'a [u8]);

const CASES: [Case; 8] = [
    (Kind::Tm, 32, &TM, Verb::Show, TM_SHOWN),
    (Kind::Tm, 32, &TM, Verb::Check, TM_CHECKED),
    (Kind::Tm, 32, &TM, Verb::Packets, TM_PACKETS),
    (Kind::Tm, 32, &TM, Verb::Normalise, &TM_FORM),
    (Kind::Tc, 16, &TC, Verb::Show, TC_SHOWN),
    (Kind::Tc, 16, &TC, Verb::Check, TC_CHECKED),
    (Kind::Tc, 16, &TC, Verb::Packets, TC_PACKETS),
    (Kind::Tc, 16, &TC, Verb::Normalise, &TC_FRAME),
];

// Whether an engine writes all; or memory was refused, and it wrote the beginning, and nothing of a
// normal form. No other fault comes, and `show` takes no memory, nor does `check` of TM frames.
fn is_so(kind: Kind, verb: Verb, ending: &Ending<Page>, whole: &[u8]) -> bool {
    let octets = ending.writer.octets.as_slice();
    if ending.outcome.is_ok() {
        return octets == whole;
    }
    ending.is_fault(LinkFault::Memory, (0, 0))
        && matches!(
            (kind, verb),
            (Kind::Tc, Verb::Check) | (_, Verb::Packets | Verb::Normalise)
        )
        && whole.starts_with(octets)
        && (verb != Verb::Normalise || octets.is_empty())
}

fn may_be_refused(alloc: Global, case: &Case) -> Result<bool, Stop> {
    let (kind, length, recording, verb, whole) = case;
    let link = Link::new(*kind, *length, false, 0, 100)?;
    let ending = link.end(
        alloc,
        *verb,
        *recording,
        Page {
            octets: ArrayVec::new(),
        },
    );
    Ok(is_so(*kind, *verb, &ending, whole))
}

#[test]
fn each_growth_may_be_refused(rt: HostRuntime) {
    for case in &CASES {
        let outcome = may_be_refused(rt.alloc(), case);
        passes(&rt, &(case.0, case.3), outcome);
    }
}
