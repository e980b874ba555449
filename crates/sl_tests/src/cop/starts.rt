//! The initial V(R) of virtual channels, as they are given, changed and read.
use crate::support::rows::holds;
use sl_cop::Starts;

// V(R) 9 for all virtual channels but the least, which has 0, and the greatest, which has 255.
const LEAST_AND_GREATEST: &[(u8, u8)] = &[(63, 255), (0, 0)];

// The V(R) of all virtual channels but some, and that of these; a text; and which channels have
// another V(R) after it.
static TEXTS: [(u8, &[(u8, u8)], &str, &[(u8, u8)]); 10] = [
    (9, &[], "5:255", &[(5, 255)]),
    (9, &[], "0:0", &[(0, 0)]),
    (9, &[], "63:255", &[(63, 255)]),
    (9, &[], "0:0,63:255", &[(63, 255), (0, 0)]),
    (9, &[], "9:99,10:100", &[(9, 99), (10, 100)]),
    (9, &[], "5:9", &[]),
    (
        9,
        &[],
        "0:1,1:2,2:3,62:10",
        &[(0, 1), (1, 2), (2, 3), (62, 10)],
    ),
    (0, &[], "5:1,6:2", &[(5, 1), (6, 2)]),
    // All that a text leaves out is kept, and of two texts the later one counts.
    (
        9,
        LEAST_AND_GREATEST,
        "5:57,63:7",
        &[(0, 0), (5, 57), (63, 7)],
    ),
    (
        9,
        &[(0, 0), (5, 57), (63, 7)],
        "5:58",
        &[(0, 0), (5, 58), (63, 7)],
    ),
];

static NO_TEXTS: [&str; 56] = [
    "",
    "5",
    ":",
    "5:",
    ":5",
    ",",
    "5:1,",
    ",5:1",
    "5:256",
    "5:1000",
    "64:0",
    "255:0",
    "256:0",
    "05:1",
    "00:1",
    "5:01",
    "5:00",
    "5:+1",
    "+5:1",
    "5:-1",
    "-5:1",
    "5:0x1",
    "5:1.0",
    "x:1",
    "5:x",
    "5:٥",
    " 5:1",
    "5:1 ",
    "5 :1",
    "5: 1",
    "5=1",
    "5,1",
    "5:1:2",
    "5::1",
    "5-6:1",
    "5:1\n",
    // Items that no other may follow.
    "5:1,5:2",
    "5:1,5:1",
    "0:1,0:1",
    "5:1,4:2",
    "5:1,64:0",
    "5:1,,6:2",
    "5:1,6",
    "5:1,6:",
    "5:1,:2",
    "5:1,06:2",
    "5:1,6:02",
    "5:1,6:+2",
    "5:1, 6:2",
    "5:1 ,6:2",
    "5:1;6:2",
    "5:1 6:2",
    "5:1,6:256",
    "5:1,6:2,6:3",
    "5:1,7:2,6:3",
    "5:1,6:2,",
];

// The same V(R) for all virtual channels but these.
fn all_but(vr: u8, pairs: &[(u8, u8)]) -> Starts {
    let mut starts = Starts::all(vr);
    for (vc, vr) in pairs {
        if *vc <= 63 {
            starts = starts.with(*vc, *vr);
        }
    }
    starts
}

// The V(R) of a virtual channel in such a list.
fn listed(vr: u8, pairs: &[(u8, u8)], wanted: u8) -> u8 {
    for (vc, vr) in pairs {
        if *vc == wanted {
            return *vr;
        }
    }
    vr
}

// Whether each virtual channel has the V(R) that is listed.
fn have(starts: &Starts, vr: u8, pairs: &[(u8, u8)]) -> bool {
    for vc in 0..64 {
        if starts.start(vc) != listed(vr, pairs, vc) {
            return false;
        }
    }
    true
}

// The V(R) of all virtual channels, of all but two, and of one changed alone, in a copy, which can
// be changed back.
#[test]
fn v_of_r_of_virtual_channels(rt: HostRuntime) {
    for vr in &[0, 1, 57, 255] {
        holds(&rt, vr, have(&Starts::all(*vr), *vr, &[]));
    }
    let starts = all_but(9, LEAST_AND_GREATEST);
    let is_so = have(&starts, 9, LEAST_AND_GREATEST);
    holds(&rt, &LEAST_AND_GREATEST, is_so);
    holds(&rt, &"0 and 1", Starts::all(0) != Starts::all(1));
    for vc in 0..64 {
        let all = Starts::all(9);
        let starts = all.with(vc, 255);
        let is_back = starts.with(vc, 9) == all;
        holds(
            &rt,
            &vc,
            have(&starts, 9, &[(vc, 255)]) && have(&all, 9, &[]) && is_back,
        );
    }
}

// A text changes the first to those wanted, and leaves what is read over as it was.
#[test]
fn v_of_r_by_a_text(rt: HostRuntime) {
    for (vr, pairs, text, wanted) in &TEXTS {
        let starts = all_but(*vr, pairs);
        let is_read = starts.read(text) == Some(all_but(*vr, wanted));
        holds(
            &rt,
            text,
            is_read && have(&all_but(*vr, wanted), *vr, wanted),
        );
        holds(&rt, text, have(&starts, *vr, pairs));
    }
    for text in &NO_TEXTS {
        holds(&rt, text, Starts::all(0).read(text).is_none());
    }
}
