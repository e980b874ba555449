//! Virtual channels without segment headers, and ones with a V(R) of their own, by command line.
use super::support::recordings::{
    BEGUN_FROM_255, CONTINUED_FROM_255, DIVIDED_FROM_255, ENDED_FROM_255, WHOLE,
};
use super::support::rows::{Stop, holds, passes};
use super::support::run::{lists, normalises, refuses};

const LINK: &str = "tc --scid 1 --tm-length 32 --tc-length 24";

const UP_TO_16: &str = "tc --scid 1 --tc-length 16";

// A packet of ten octets on virtual channel 5, without a segment header, by type AD and type BD.
const PLAIN: &str = "0001140e001001c0000003aabbccdd";

const PLAIN_BD: &str = "2001140e001001c0000003aabbccdd";

// Two packets in one such frame, and in one each.
const BOTH: &str = "00011412001002c0010000ee1002c0020000ef";

const FIRST: &str = "0001140b001002c0010000ee";

const SECOND: &str = "0001140b011002c0020000ef";

// The first with two octets after it, and one that comes too early.
const WITH_TAIL: &str = "0001140d001002c0010000ee0000";

const EARLY: &str = "0001140b041002c0010000ee";

// A packet on virtual channel 0 from N(S) 0 on, and one on virtual channel 5 from N(S) 255 on.
const ON_TWO_CHANNELS: [&str; 4] = [WHOLE, BEGUN_FROM_255, CONTINUED_FROM_255, ENDED_FROM_255];

// What FARM-1 reports of that recording, whose virtual channels begin with other V(R).
const BEGUN_BY_CHANNEL: &str =
    "0 frame vc 0 ad 0 segment whole map 0 octets 10 accept clcw 01000001\n\
    16 frame vc 5 ad 255 segment first map 0 octets 10 accept clcw 01140000\n\
    32 frame vc 5 ad 0 segment middle map 0 octets 10 accept clcw 01140001\n\
    48 frame vc 5 ad 1 segment last map 0 octets 3 accept clcw 01140002\n";

// Verb, link, options, recording, status and listing.
type Listing<'a> = (&'a str, &'a str, &'a str, &'a [&'a str], u8, &'a str);

const LISTINGS: [Listing; 13] = [
    (
        "show",
        LINK,
        "--plain 5",
        &[PLAIN, PLAIN_BD, EARLY],
        0,
        "0 frame vc 5 ad 0 unit octets 10 accept clcw 01140001\n\
        15 frame vc 5 bd unit octets 10 accept clcw 01140201\n\
        30 frame vc 5 ad 4 unit octets 7 early clcw 01140a01\n",
    ),
    (
        "show",
        LINK,
        "--plain 4,6",
        &[PLAIN_BD],
        0,
        "0 frame vc 5 bd segment middle map 16 octets 9 accept clcw 01140200\n",
    ),
    (
        "check",
        LINK,
        "--plain 5",
        &[PLAIN, PLAIN_BD],
        0,
        "frames 2 skipped 0 packets 2 idle 0 anomalies 0\n",
    ),
    (
        "check",
        LINK,
        "",
        &[PLAIN],
        1,
        "0 stray vc 5 map 16\nframes 1 skipped 0 packets 0 idle 0 anomalies 1\n",
    ),
    (
        "check",
        LINK,
        "--plain 0,5,63",
        &[WITH_TAIL, EARLY, "0001140400"],
        1,
        "0 tail vc 5 map 0 octets 2\n14 early vc 5 ad 4\n26 skip empty\n\
        frames 3 skipped 1 packets 1 idle 0 anomalies 3\n",
    ),
    (
        "packets",
        LINK,
        "--plain 5",
        &[BOTH],
        0,
        "vc 5 map 0 apid 2 type 1 secondary 0 flags 3 count 1 octets 7 1002c0010000ee\n\
        vc 5 map 0 apid 2 type 1 secondary 0 flags 3 count 2 octets 7 1002c0020000ef\n",
    ),
    ("packets", LINK, "", &[BOTH], 0, ""),
    (
        "check",
        LINK,
        "--vr 255 --vr-of 0:0",
        &ON_TWO_CHANNELS,
        0,
        "frames 4 skipped 0 packets 2 idle 0 anomalies 0\n",
    ),
    (
        "check",
        LINK,
        "",
        &ON_TWO_CHANNELS,
        1,
        "16 late vc 5 ad 255\n32 stray vc 5 map 0\n48 stray vc 5 map 0\n\
        frames 4 skipped 0 packets 1 idle 0 anomalies 3\n",
    ),
    (
        "packets",
        LINK,
        "--vr-of 4:9,5:255",
        &DIVIDED_FROM_255,
        0,
        "vc 5 map 0 apid 2 type 1 secondary 0 flags 3 count 5 octets 23 \
        1002c00500101111111111111111111111111111111111\n",
    ),
    (
        "packets",
        LINK,
        "--vr 255 --vr-of 5:0,6:255",
        &DIVIDED_FROM_255,
        0,
        "",
    ),
    // Either way to say with which V(R) virtual channels begin.
    (
        "show",
        UP_TO_16,
        "--vr-of 5:255",
        &ON_TWO_CHANNELS,
        0,
        BEGUN_BY_CHANNEL,
    ),
    (
        "show",
        UP_TO_16,
        "--vr 255 --vr-of 0:0",
        &ON_TWO_CHANNELS,
        0,
        BEGUN_BY_CHANNEL,
    ),
];

// Link, options, recording and its normal form.
type Form<'a> = (&'a str, &'a str, &'a [&'a str], &'a [&'a str]);

const FORMS: [Form; 9] = [
    (LINK, "--plain 5", &[PLAIN], &[PLAIN]),
    (LINK, "--plain 5", &[BOTH], &[FIRST, SECOND]),
    (LINK, "--plain 5", &[FIRST, SECOND], &[FIRST, SECOND]),
    (LINK, "", &[PLAIN], &[]),
    (
        LINK,
        "--vr-of 5:255",
        &ON_TWO_CHANNELS,
        &[
            WHOLE,
            "00011417ff401002c0050010111111111111111111111111",
            "0001140a00801111111111",
        ],
    ),
    (
        LINK,
        "--vr-of 5:1 --plain 5",
        &[SECOND],
        &["0001140b011002c0020000ef"],
    ),
    (LINK, "", &DIVIDED_FROM_255, &[]),
    // A recording whose virtual channels begin with other V(R), by either option, is its own form.
    (
        UP_TO_16,
        "--vr-of 5:255",
        &ON_TWO_CHANNELS,
        &ON_TWO_CHANNELS,
    ),
    (
        UP_TO_16,
        "--vr 255 --vr-of 0:0",
        &ON_TWO_CHANNELS,
        &ON_TWO_CHANNELS,
    ),
];

// Texts of virtual channels that are refused, after the managed parameters.
const REFUSED: [(&str, &str); 10] = [
    ("--plain 64", "sllink: managed: plain\n"),
    ("--plain=", "sllink: managed: plain\n"),
    ("--plain 05", "sllink: managed: plain\n"),
    ("--plain 6,5", "sllink: managed: plain\n"),
    ("--plain 5, --vr-of 5", "sllink: managed: plain\n"),
    ("--vr-of 5", "sllink: managed: start\n"),
    ("--vr-of=", "sllink: managed: start\n"),
    ("--vr-of 5:256 --plain 5", "sllink: managed: start\n"),
    ("--vr-of 5:1,5:2", "sllink: managed: start\n"),
    ("--plain 64 --vr-of 5 --limit 0", "sllink: managed: limit\n"),
];

#[test]
fn virtual_channels_are_listed_as_managed(rt: HostRuntime) -> Result<(), Stop> {
    for row in &LISTINGS {
        let (verb, link, options, parts, status, wanted) = row;
        let line = format!(in rt.alloc(); "sllink {verb} {link} {options}")?;
        passes(
            &rt,
            row,
            lists(rt.alloc(), line.as_str(), parts, *status, wanted),
        );
    }
    Ok(())
}

#[test]
fn normal_forms_are_as_managed(rt: HostRuntime) -> Result<(), Stop> {
    for row in &FORMS {
        let (link, options, parts, wanted) = row;
        let line = format!(in rt.alloc(); "sllink normalise {link} {options}")?;
        passes(
            &rt,
            row,
            normalises(rt.alloc(), line.as_str(), parts, wanted),
        );
    }
    Ok(())
}

// Both kinds of recording refuse a text before anything is read.
#[test]
fn texts_of_virtual_channels_are_refused(rt: HostRuntime) -> Result<(), Stop> {
    for (options, said) in &REFUSED {
        for kind in &["tm", "tc"] {
            let line = format!(in rt.alloc(); "sllink normalise {kind} --scid 1 {options}")?;
            holds(
                &rt,
                &(kind, options),
                refuses(rt.alloc(), line.as_str(), said)?,
            );
        }
    }
    Ok(())
}
