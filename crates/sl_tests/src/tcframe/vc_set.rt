//! Sets of virtual channels, as they are made and read.
use crate::support::rows::holds;
use crate::support::tc::set_of;
use sl_tcframe::VcSet;

// Texts, and the sets that they name.
static TEXTS: [(&str, &[u8]); 4] = [
    ("5", &[5]),
    ("0", &[0]),
    ("0,63", &[63, 0]),
    ("0,9,10,63", &[63, 0, 9, 10]),
];

const NO_TEXTS: [&str; 23] = [
    "", ",", "5,", ",5", "5,,6", "05", "00", "5,5", "6,5", "64", "255", "256", "5,64", " 5", "5 ",
    "5, 6", "+5", "-5", "5;6", "5.6", "x", "0x5", "٥",
];

// No set, that of 5 and that of 5 and 9 have a virtual channel or not, as they should.
#[test]
fn virtual_channels_are_added(rt: HostRuntime) {
    let (none, one, two) = (set_of(&[]), set_of(&[5]), set_of(&[5, 9]));
    for vc in 0..64 {
        holds(&rt, &vc, !none.has(vc) && one.has(vc) == (vc == 5));
        holds(&rt, &vc, two.has(vc) == (vc == 5 || vc == 9));
    }
    holds(&rt, &"5 again", set_of(&[5, 5]) == one);
    holds(&rt, &"5 and none", one != none);
    holds(&rt, &"either order", set_of(&[9, 5]) == two);
}

// A text is a set, or none.
#[test]
fn sets_of_virtual_channels_are_read(rt: HostRuntime) {
    for (text, channels) in &TEXTS {
        holds(&rt, text, VcSet::read(text) == Some(set_of(channels)));
    }
    for text in &NO_TEXTS {
        holds(&rt, text, VcSet::read(text).is_none());
    }
}
