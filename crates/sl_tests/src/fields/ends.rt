//! The first and the last of octets, and numbers of one octet as text.
use crate::support::rows::holds;
use sl_fields::{back, front, read_decimal};

static NUMBERS: [(&str, Option<u8>); 14] = [
    ("0", Some(0)),
    ("9", Some(9)),
    ("10", Some(10)),
    ("255", Some(255)),
    ("256", None),
    ("1000", None),
    ("00", None),
    ("05", None),
    ("", None),
    ("+5", None),
    ("-0", None),
    (" 5", None),
    ("5 ", None),
    ("0x5", None),
];

#[test]
fn ends_of_octets_and_numbers_of_one_octet(rt: HostRuntime) {
    let octets = [1, 2, 3];
    let (first, rest) = front::<2>(&octets);
    holds(&rt, &"the first", (first, rest) == (&[1, 2], &[3][..]));
    let (rest, last) = back::<2>(&octets);
    holds(&rt, &"the last", (rest, last) == (&[1][..], &[2, 3]));
    for (text, wanted) in &NUMBERS {
        let number: Option<u8> = read_decimal(text);
        holds(&rt, text, number == *wanted);
    }
}
