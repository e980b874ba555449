//! Two recordings compared: the answer, what is left of each, and faults.
use super::support::engines::Kind;
use super::support::recordings::{
    AROUND_IDLE, BEGUN, DAMAGED, DIVIDED, ENDED, FIRST, FIRST_OF_3, FOREIGN, IN_WINDOW, LAST_OF_3,
    LONG, MIDDLE_OF_3, MIXED, SECOND, SKIPPED, TEN_FILLED, THIRD, THROUGH, WHOLE, WHOLE_BD,
    WITH_FECF, WITH_GAP, octets,
};
use super::support::rows::{Stop, holds};
use super::support::streams::{FailsAfter, InPieces, Page};
use arrayvec::ArrayVec;
use sl_link::{
    CheckWord, Compared, Counted, LinkFault, Managed, Summary, compare_tc, compare_tm,
    write_difference_tc, write_difference_tm,
};
use sl_pair::{Answer, Station};
use std::alloc::{AllocError, Global};
use std::hash::{BuildHasherDefault, FoldHasher};
use std::io::{Read, Write};
use std::process::Abort;

type Hasher = BuildHasherDefault<FoldHasher>;

// The answer, how many packets are left of each recording, and how many each delivers.
type Outcome = (Answer, (usize, usize), (u64, u64));

fn link(limit: u64) -> Result<Managed, Stop> {
    Managed::new(1, 32, false, 16, false, 10, 0, limit).map_err(|_| Stop::Absent)
}

// How many packets are left of a station's recording, on the channels that the recordings have.
fn number_left(compared: &Compared<Hasher>, station: Station) -> Result<usize, AllocError> {
    let mut number: usize = 0;
    for channel in 0..=320 {
        let more = compared.left.left(station, channel)?.len();
        number = number.saturating_add(more);
    }
    Ok(number)
}

fn outcome(compared: &Compared<Hasher>) -> Result<Outcome, Stop> {
    let first = number_left(compared, Station::First)?;
    let second = number_left(compared, Station::Second)?;
    let packets = (
        compared.first.totals.packets(),
        compared.second.totals.packets(),
    );
    Ok((compared.answer, (first, second), packets))
}

fn outcome_tm<A: Read + Drop, B: Read + Drop>(
    alloc: Global,
    managed: (&Managed, &Managed),
    one: A,
    other: B,
) -> Result<Outcome, Stop> {
    let mut one = Counted::new(one);
    let mut other = Counted::new(other);
    let hasher: Hasher = BuildHasherDefault::new();
    let compared = compare_tm(alloc, hasher, managed.0, &mut one, managed.1, &mut other)?;
    outcome(&compared)
}

fn outcome_tc<A: Read + Drop, B: Read + Drop>(
    alloc: Global,
    managed: (&Managed, &Managed),
    one: A,
    other: B,
) -> Result<Outcome, Stop> {
    let mut one = Counted::new(one);
    let mut other = Counted::new(other);
    let hasher: Hasher = BuildHasherDefault::new();
    let compared = compare_tc(alloc, hasher, managed.0, &mut one, managed.1, &mut other)?;
    outcome(&compared)
}

// A packet that ends with its data field, after one of ten octets, and before it.
const FULL: &str = "0002c00600132222222222222222222222222222222222222222";

const TEN_FULL: [&str; 4] = [FIRST, TEN_FILLED, FIRST, FULL];

const FULL_TEN: [&str; 4] = [FIRST, FULL, FIRST, TEN_FILLED];

// Two recordings, and what is found of them.
type Case<'a> = (&'a [&'a str], &'a [&'a str], Outcome);

const TM_CASES: [Case; 7] = [
    (&[], &[], (Answer::Same, (0, 0), (0, 0))),
    (
        &[],
        &[FIRST, TEN_FILLED],
        (Answer::Different, (0, 1), (0, 1)),
    ),
    (
        &[FIRST, TEN_FILLED],
        &["0010aabb1800", TEN_FILLED],
        (Answer::Same, (0, 0), (1, 1)),
    ),
    (
        &[FIRST, TEN_FILLED],
        &[FIRST, DAMAGED],
        (Answer::Different, (1, 1), (1, 1)),
    ),
    (&THROUGH, &AROUND_IDLE, (Answer::Same, (0, 0), (3, 3))),
    (&THROUGH, &WITH_GAP, (Answer::Different, (1, 0), (3, 2))),
    (&TEN_FULL, &FULL_TEN, (Answer::Reordered, (0, 0), (2, 2))),
];

const TC_CASES: [Case; 4] = [
    (&[], &[], (Answer::Same, (0, 0), (0, 0))),
    (&[WHOLE], &[WHOLE_BD], (Answer::Same, (0, 0), (1, 1))),
    (
        &[WHOLE, SECOND],
        &[WHOLE],
        (Answer::Different, (1, 0), (2, 1)),
    ),
    (&[WHOLE], &DIVIDED, (Answer::Different, (1, 1), (1, 1))),
];

// Two recordings, whether each packet has a line of its own, and the lines of what only one of them
// delivers.
type Text<'a> = (Kind, &'a [&'a str], &'a [&'a str], bool, &'a str);

const TEXTS: [Text; 11] = [
    (Kind::Tm, &THROUGH, &AROUND_IDLE, false, ""),
    // The packets of APID 1 and 2 stand for themselves; that of APID 3 was lost with a frame.
    (
        Kind::Tm,
        &THROUGH,
        &WITH_GAP,
        false,
        "< vc 0 apid 3 counts 0 packets 1\n",
    ),
    (
        Kind::Tm,
        &THROUGH,
        &WITH_GAP,
        true,
        "< vc 0 apid 3 type 0 secondary 0 flags 3 count 0 octets 10 0003c000000301020304\n",
    ),
    (
        Kind::Tm,
        &[FIRST, TEN_FILLED],
        &COUNTED,
        false,
        "> vc 0 apid 1 counts 16383..0 packets 2\n\
         > vc 0 apid 1 counts 2 packets 1\n\
         > vc 0 apid 2 counts 6 packets 1\n",
    ),
    // Of three copies of a packet the other recording has one.
    (
        Kind::Tm,
        &THREE_TIMES,
        &TEN_FULL,
        false,
        "< vc 0 apid 1 counts 0 packets 1\n\
         < vc 0 apid 1 counts 0 packets 1\n\
         < vc 0 apid 2 counts 5 packets 1\n\
         < vc 0 apid 3 counts 0 packets 1\n\
         > vc 0 apid 2 counts 6 packets 1\n",
    ),
    (
        Kind::Tm,
        &THREE_TIMES,
        &TEN_FULL,
        true,
        "< vc 0 apid 1 type 0 secondary 0 flags 3 count 0 octets 10 0001c0000003aabbccdd\n\
         < vc 0 apid 1 type 0 secondary 0 flags 3 count 0 octets 10 0001c0000003aabbccdd\n\
         < vc 0 apid 2 type 0 secondary 0 flags 3 count 5 octets 23 \
         0002c00500101111111111111111111111111111111111\n\
         < vc 0 apid 3 type 0 secondary 0 flags 3 count 0 octets 10 0003c000000301020304\n\
         > vc 0 apid 2 type 0 secondary 0 flags 3 count 6 octets 26 \
         0002c00600132222222222222222222222222222222222222222\n",
    ),
    (Kind::Tc, &[WHOLE], &[WHOLE_BD], false, ""),
    (
        Kind::Tc,
        &[],
        &[WHOLE],
        true,
        "> vc 0 map 0 apid 1 type 1 secondary 0 flags 3 count 0 octets 10 1001c0000003aabbccdd\n",
    ),
    (
        Kind::Tc,
        &[WHOLE, SECOND],
        &DIVIDED,
        false,
        "< vc 0 map 0 apid 1 counts 0 packets 1\n\
         < vc 0 map 0 apid 1 counts 0 packets 1\n\
         > vc 5 map 0 apid 2 counts 5 packets 1\n",
    ),
    (
        Kind::Tc,
        &[WHOLE, SECOND, THIRD],
        &BD_DIVIDED,
        false,
        "< vc 0 map 0 apid 1 counts 0 packets 1\n\
         < vc 0 map 0 apid 1 counts 0 packets 1\n\
         > vc 5 map 0 apid 2 counts 5 packets 1\n",
    ),
    (
        Kind::Tc,
        &[WHOLE, SECOND, THIRD],
        &BD_DIVIDED,
        true,
        "< vc 0 map 0 apid 1 type 1 secondary 0 flags 3 count 0 octets 10 1001c0000003aabbccdd\n\
         < vc 0 map 0 apid 1 type 1 secondary 0 flags 3 count 0 octets 10 1001c0000003aabbccdd\n\
         > vc 5 map 0 apid 2 type 1 secondary 0 flags 3 count 5 octets 23 \
         1002c00500101111111111111111111111111111111111\n",
    ),
];

// `THROUGH`, and its packet of APID 1 twice more.
const THREE_TIMES: [&str; 9] = [
    FIRST,
    LONG,
    BEGUN,
    "001001011807",
    ENDED,
    FIRST,
    TEN_FILLED,
    FIRST,
    TEN_FILLED,
];

// The packet of `WHOLE`, and that of `DIVIDED`.
const BD_DIVIDED: [&str; 4] = [WHOLE_BD, FIRST_OF_3, MIDDLE_OF_3, LAST_OF_3];

// Packets of APID 2 and 1, the latter with the counts 16383, 0, 0 and 2; the second of the two with
// the count 0 is that of `TEN_FILLED`.
const COUNTED: [&str; 10] = [
    FIRST,
    FULL,
    FIRST,
    LAST_COUNT,
    FIRST,
    NO_COUNT,
    FIRST,
    TEN_FILLED,
    FIRST,
    SECOND_COUNT,
];

const LAST_COUNT: &str = "0001ffff0003aabbccdd07ffc000000900000000000000000000";

const NO_COUNT: &str = "0001c0000003aabbccde07ffc000000900000000000000000000";

const SECOND_COUNT: &str = "0001c0020003aabbccdd07ffc000000900000000000000000000";

fn compare<A: Read, B: Read>(
    alloc: Global,
    kind: Kind,
    managed: &Managed,
    one: &mut Counted<A>,
    other: &mut Counted<B>,
) -> Result<Compared<Hasher>, LinkFault> {
    let hasher: Hasher = BuildHasherDefault::new();
    match kind {
        Kind::Tm => compare_tm(alloc, hasher, managed, one, managed, other),
        Kind::Tc => compare_tc(alloc, hasher, managed, one, managed, other),
    }
}

fn write_difference<W: Write>(
    kind: Kind,
    compared: &Compared<Hasher>,
    each: bool,
    writer: &mut Counted<W>,
) -> Result<(), LinkFault> {
    match kind {
        Kind::Tm => write_difference_tm(compared, each, writer),
        Kind::Tc => write_difference_tc(compared, each, writer),
    }
}

// The octets of these parts, as `octets` has them, without memory.
fn in_place(parts: &[&str]) -> Result<ArrayVec<u8, 200>, Stop> {
    let mut octets = ArrayVec::new();
    for part in parts {
        let mut room = [0; 32];
        let length = room.len().min(part.len() / 2);
        hex::decode_to_slice(*part, &mut room[..length])?;
        let added = octets.try_extend_from_slice(&room[..length]);
        added.map_err(|_| Stop::Absent)?;
    }
    Ok(octets)
}

// How a comparison ends, and what it wrote. Nothing else takes memory.
fn written(alloc: Global, row: &Text) -> Result<(Result<(), LinkFault>, Page), Stop> {
    let (kind, one, other, each, _) = row;
    let managed = link(1000)?;
    let (one, other) = (in_place(one)?, in_place(other)?);
    let mut one = Counted::new(one.as_slice());
    let mut other = Counted::new(other.as_slice());
    let mut writer = Counted::new(Page {
        octets: ArrayVec::new(),
    });
    let outcome = match compare(alloc, *kind, &managed, &mut one, &mut other) {
        Ok(compared) => write_difference(*kind, &compared, *each, &mut writer),
        Err(fault) => Err(fault),
    };
    Ok((outcome, writer.into_inner()))
}

#[test]
fn what_is_left_is_written(rt: HostRuntime) -> Result<(), Stop> {
    for row in &TEXTS {
        let (outcome, page) = written(rt.alloc(), row)?;
        let is_text = page.octets.as_slice() == row.4.as_bytes();
        holds(&rt, row, outcome.is_ok() && is_text);
    }
    Ok(())
}

// Memory may be refused at each growth: `rt try --test --fail-alloc N` refuses the Nth. What was
// written is the beginning of the lines.
#[test]
fn each_growth_of_a_comparison_may_be_refused(rt: HostRuntime) -> Result<(), Stop> {
    for row in &TEXTS {
        let (outcome, page) = written(rt.alloc(), row)?;
        let (octets, whole) = (page.octets.as_slice(), row.4.as_bytes());
        let is_so = match outcome {
            Ok(()) => octets == whole,
            Err(fault) => fault == LinkFault::Memory && whole.starts_with(octets),
        };
        holds(&rt, row, is_so);
    }
    Ok(())
}

// Each write may be the one that fails. What was written is the beginning of the lines.
fn writes_fail(rt: &impl Abort, alloc: Global, row: &Text) -> Result<(), Stop> {
    let (kind, one, other, each, wanted) = row;
    let managed = link(1000)?;
    let (one, other) = (octets(alloc, one)?, octets(alloc, other)?);
    let mut one = Counted::new(one.as_slice());
    let mut other = Counted::new(other.as_slice());
    let compared = compare(alloc, *kind, &managed, &mut one, &mut other)?;
    for writes in 0..wanted.len() {
        let mut writer = Counted::new(FailsAfter {
            inner: InPieces(Vec::new(alloc), 1),
            allowed: writes as u64,
        });
        let fault = write_difference(*kind, &compared, *each, &mut writer).err();
        let is_fault = (fault, writer.faults()) == (Some(LinkFault::Write), 1);
        let taken = writer.into_inner().inner.0;
        let is_front = Some(taken.as_slice()) == wanted.as_bytes().get(..writes);
        holds(rt, &(row, "write", writes), is_fault && is_front);
    }
    Ok(())
}

#[test]
fn each_write_of_what_is_left_may_fail(rt: HostRuntime) -> Result<(), Stop> {
    for row in &TEXTS {
        writes_fail(&rt, rt.alloc(), row)?;
    }
    Ok(())
}

// What is found with the recordings exchanged.
fn turned(outcome: &Outcome) -> Outcome {
    let (answer, left, packets) = outcome;
    (*answer, (left.1, left.0), (packets.1, packets.0))
}

#[test]
fn what_only_one_delivers_is_left(rt: HostRuntime) -> Result<(), Stop> {
    let alloc = rt.alloc();
    let managed = link(1000)?;
    let links = (&managed, &managed);
    for (one, other, wanted) in &TM_CASES {
        let one = octets(alloc, one)?;
        let other = octets(alloc, other)?;
        let (one, other) = (one.as_slice(), other.as_slice());
        let found = outcome_tm(alloc, links, one, other)?;
        holds(&rt, wanted, found == *wanted);
        let found = outcome_tm(alloc, links, InPieces(other, 1), one)?;
        holds(&rt, wanted, found == turned(wanted));
    }
    for (one, other, wanted) in &TC_CASES {
        let one = octets(alloc, one)?;
        let other = octets(alloc, other)?;
        let (one, other) = (one.as_slice(), other.as_slice());
        let found = outcome_tc(alloc, links, one, other)?;
        holds(&rt, wanted, found == *wanted);
        let found = outcome_tc(alloc, links, InPieces(other, 1), one)?;
        holds(&rt, wanted, found == turned(wanted));
    }
    Ok(())
}

// Each recording is read with its own parameters.
#[test]
fn the_links_may_differ(rt: HostRuntime) -> Result<(), Stop> {
    let alloc = rt.alloc();
    let bare = link(32)?;
    let checked = Managed::new(1, 34, true, 16, false, 10, 0, 68).map_err(|_| Stop::Absent)?;
    let one = octets(alloc, &[FIRST, TEN_FILLED])?;
    let other = octets(alloc, &WITH_FECF)?;
    let links = (&bare, &checked);
    let found = outcome_tm(alloc, links, one.as_slice(), other.as_slice())?;
    holds(&rt, &"links", found == (Answer::Same, (0, 0), (1, 1)));
    Ok(())
}

// Whether a comparison stops with this fault.
fn stops<A: Read + Drop, B: Read + Drop>(
    alloc: Global,
    (kind, limit): (Kind, u64),
    streams: (A, B),
    wanted: (LinkFault, (u64, u64)),
) -> Result<bool, Stop> {
    let managed = link(limit)?;
    let mut one = Counted::new(streams.0);
    let mut other = Counted::new(streams.1);
    let fault = compare(alloc, kind, &managed, &mut one, &mut other).err();
    Ok((fault, (one.faults(), other.faults())) == (Some(wanted.0), wanted.1))
}

// Gives an octet at a time, and fails once this number of reads have gone well.
fn fails_after(recording: &[u8], allowed: u64) -> FailsAfter<InPieces<&[u8]>> {
    let inner = InPieces(recording, 1);
    FailsAfter { inner, allowed }
}

// Each read of either recording may be the one that fails.
fn reads_fail(rt: &impl Abort, alloc: Global, row: &Text) -> Result<(), Stop> {
    let (one, other) = (octets(alloc, row.1)?, octets(alloc, row.2)?);
    let (one, other) = (one.as_slice(), other.as_slice());
    let link = (row.0, 1000);
    for allowed in 0..=one.len() as u64 {
        let streams = (fails_after(one, allowed), InPieces(other, 1));
        let is_so = stops(alloc, link, streams, (LinkFault::Read, (1, 0)))?;
        holds(rt, &(row, "first", allowed), is_so);
    }
    for allowed in 0..=other.len() as u64 {
        let streams = (InPieces(one, 1), fails_after(other, allowed));
        let is_so = stops(alloc, link, streams, (LinkFault::Read, (0, 1)))?;
        holds(rt, &(row, "second", allowed), is_so);
    }
    Ok(())
}

#[test]
fn each_read_of_either_recording_may_fail(rt: HostRuntime) -> Result<(), Stop> {
    for row in &TEXTS {
        reads_fail(&rt, rt.alloc(), row)?;
    }
    Ok(())
}

// Recordings of 32 octets.
const OF_32: [(Kind, [&str; 2]); 2] = [
    (Kind::Tm, [FIRST, TEN_FILLED]),
    (Kind::Tc, [WHOLE, SECOND]),
];

#[test]
fn either_recording_may_be_too_long(rt: HostRuntime) -> Result<(), Stop> {
    let alloc = rt.alloc();
    let wanted = (LinkFault::TooLong, (0, 0));
    for (kind, parts) in &OF_32 {
        let recording = octets(alloc, parts)?;
        let (long, empty) = (recording.as_slice(), "".as_bytes());
        let first = stops(alloc, (*kind, 31), (long, empty), wanted)?;
        let second = stops(alloc, (*kind, 31), (empty, long), wanted)?;
        holds(&rt, kind, first && second);
    }
    Ok(())
}

// How many lines of `check` have a word, in a recording.
type Worded<'a> = (&'a [&'a str], &'a [(CheckWord, u64)]);

const TM_WORDS: [Worded; 3] = [
    (&WITH_GAP, &[(CheckWord::Gap, 1), (CheckWord::Dropped, 1)]),
    (&FOREIGN, &[(CheckWord::Foreign, 1)]),
    (
        &[FIRST, TEN_FILLED, "00"],
        &[(CheckWord::Rest, 1), (CheckWord::Skip, 0)],
    ),
];

const TC_WORDS: [Worded; 5] = [
    (
        &IN_WINDOW,
        &[
            (CheckWord::Early, 1),
            (CheckWord::Late, 1),
            (CheckWord::Outside, 1),
            (CheckWord::Refused, 1),
        ],
    ),
    (&SKIPPED, &[(CheckWord::Skip, 6)]),
    (
        &MIXED,
        &[
            (CheckWord::Stray, 1),
            (CheckWord::Dropped, 1),
            (CheckWord::Open, 0),
        ],
    ),
    (
        &["000100050040", "0001000d01c01002c0010000ee77"],
        &[(CheckWord::Dropped, 1), (CheckWord::Tail, 1)],
    ),
    (
        &["000100050040", "00"],
        &[(CheckWord::Rest, 1), (CheckWord::Open, 1)],
    ),
];

// What `check` has of a recording that is compared with an empty one.
fn summary_tm(alloc: Global, managed: &Managed, recording: &[u8]) -> Result<Summary, Stop> {
    let mut one = Counted::new(recording);
    let mut other = Counted::new("".as_bytes());
    let hasher: Hasher = BuildHasherDefault::new();
    let compared = compare_tm(alloc, hasher, managed, &mut one, managed, &mut other)?;
    Ok(compared.first)
}

fn summary_tc(alloc: Global, managed: &Managed, recording: &[u8]) -> Result<Summary, Stop> {
    let mut one = Counted::new("".as_bytes());
    let mut other = Counted::new(recording);
    let hasher: Hasher = BuildHasherDefault::new();
    let compared = compare_tc(alloc, hasher, managed, &mut one, managed, &mut other)?;
    Ok(compared.second)
}

// Whether so many lines have each word, and no others are there.
fn has_words(summary: &Summary, wanted: &[(CheckWord, u64)]) -> bool {
    let mut all: u64 = 0;
    let mut is_so = true;
    for (word, number) in wanted {
        is_so = is_so && summary.words.of(*word) == *number;
        all = all.saturating_add(*number);
    }
    is_so && summary.totals.anomalies() == all
}

#[test]
fn lines_of_check_are_counted_by_their_words(rt: HostRuntime) -> Result<(), Stop> {
    let alloc = rt.alloc();
    let managed = link(1000)?;
    for (recording, wanted) in &TM_WORDS {
        let recording = octets(alloc, recording)?;
        let summary = summary_tm(alloc, &managed, recording.as_slice())?;
        holds(&rt, &"words", has_words(&summary, wanted));
    }
    for (recording, wanted) in &TC_WORDS {
        let recording = octets(alloc, recording)?;
        let summary = summary_tc(alloc, &managed, recording.as_slice())?;
        holds(&rt, &"words", has_words(&summary, wanted));
    }
    Ok(())
}

// Frames of the spacecraft; those of them with a right error control field; longer ones; whether
// virtual channel 0 has begun.
fn signs_of(summary: &Summary) -> (u64, u64, u64, bool) {
    let signs = summary.signs;
    (signs.own, signs.right, signs.long, signs.begun[0])
}

#[test]
fn options_show_in_frames(rt: HostRuntime) -> Result<(), Stop> {
    let alloc = rt.alloc();
    let managed = link(1000)?;
    let bare = Managed::new(1, 34, false, 16, false, 10, 0, 68).map_err(|_| Stop::Absent)?;
    let fields = octets(alloc, &WITH_FECF)?;
    let summary = summary_tm(alloc, &bare, fields.as_slice())?;
    holds(&rt, &"fields", signs_of(&summary) == (2, 1, 0, true));
    let skipped = octets(alloc, &SKIPPED)?;
    let summary = summary_tc(alloc, &managed, skipped.as_slice())?;
    holds(&rt, &"skipped", signs_of(&summary) == (5, 0, 1, false));
    Ok(())
}
