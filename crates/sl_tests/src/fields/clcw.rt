//! CLCWs.
use crate::support::rows::holds;
use sl_fields::Clcw;

// Control word type, version, status and COP; virtual channel and spare bits; the flags with the
// FARM-B counter between them; and the report value.
type Fields = (
    (u8, u8, u8, u8),
    (u8, u8),
    (bool, bool, bool, bool, bool, u8, bool),
    u8,
);

// No RF available, No bit lock, Lockout, Wait, Retransmit; FARM-B counter; the spare bit after it.
const NO_FLAGS: (bool, bool, bool, bool, bool, u8, bool) = (
    false, false, false, false, false, 0, false,
);

const KNOWN: [([u8; 4], Fields); 4] = [
    (
        [0x01, 0x00, 0x28, 0x05],
        (
            (0, 0, 0, 1),
            (0, 0),
            (false, false, true, false, true, 0, false),
            5,
        ),
    ),
    (
        [0x5B, 0xA6, 0x94, 0xC3],
        (
            (0, 2, 6, 3),
            (41, 2),
            (true, false, false, true, false, 2, false),
            195,
        ),
    ),
    (
        [0xB4, 0x59, 0xE2, 0x3C],
        (
            (1, 1, 5, 0),
            (22, 1),
            (true, true, true, false, false, 1, false),
            60,
        ),
    ),
    (
        [0xFF, 0xFF, 0xFF, 0xFF],
        (
            (1, 3, 7, 3),
            (63, 3),
            (true, true, true, true, true, 3, true),
            255,
        ),
    ),
];

// A field beyond its bits.
const BEYOND: [(&str, Fields); 7] = [
    ("type", ((2, 0, 0, 0), (0, 0), NO_FLAGS, 0)),
    ("version", ((0, 4, 0, 0), (0, 0), NO_FLAGS, 0)),
    ("status", ((0, 0, 8, 0), (0, 0), NO_FLAGS, 0)),
    ("cop", ((0, 0, 0, 4), (0, 0), NO_FLAGS, 0)),
    ("virtual channel", ((0, 0, 0, 0), (64, 0), NO_FLAGS, 0)),
    ("spare", ((0, 0, 0, 0), (0, 4), NO_FLAGS, 0)),
    (
        "farm b",
        (
            (0, 0, 0, 0),
            (0, 0),
            (false, false, false, false, false, 4, false),
            0,
        ),
    ),
];

fn new(fields: &Fields) -> Option<Clcw> {
    let ((word, version, status, cop), (vc, spare), flags, report) = *fields;
    let (no_rf, no_lock, lockout, wait, retransmit, farm_b, spare_end) = flags;
    Clcw::new(
        word, version, status, cop, vc, spare, no_rf, no_lock, lockout, wait, retransmit, farm_b,
        spare_end, report,
    )
}

// The fields of the CLCW of these octets.
fn fields(clcw: &Clcw) -> Fields {
    let flags = (
        clcw.no_rf(),
        clcw.no_lock(),
        clcw.lockout(),
        clcw.wait(),
        clcw.retransmit(),
        clcw.farm_b(),
        clcw.spare_end(),
    );
    let kind = (clcw.word(), clcw.version(), clcw.status(), clcw.cop());
    (kind, (clcw.vc(), clcw.spare()), flags, clcw.report())
}

// The CLCW of known octets has its fields, is made of them, and is written as read. A field beyond
// its bits has none. That of a state of FARM-1 has the flags and numbers of the state.
#[test]
fn clcws(rt: HostRuntime) {
    for (octets, wanted) in &KNOWN {
        let clcw = Clcw::read(octets);
        let is_made = clcw.write() == *octets && new(wanted) == Some(clcw);
        holds(&rt, octets, fields(&clcw) == *wanted && is_made);
    }
    for (field, fields) in &BEYOND {
        holds(&rt, field, new(fields).is_none());
    }
    let octets = Clcw::of_farm(0, true, true, 0, 5).write();
    holds(&rt, &octets, octets == [0x01, 0x00, 0x28, 0x05]);
    let most = Clcw::of_farm(63, false, false, 3, 255).write();
    holds(&rt, &most, most == [0x01, 0xFC, 0x06, 0xFF]);
}
