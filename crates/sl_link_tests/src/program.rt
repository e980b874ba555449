//! Runs of the program: refused parameters, statuses, and what it says of faults.
use super::support::recordings::{
    FIRST, HUNDRED, TC_TEN_LISTED, TEN, TEN_FILLED, TM_FRAME, TM_TEN_LISTED, WHOLE, WITH_FECF,
    octets,
};
use super::support::rows::{Stop, holds, passes};
use super::support::run::{ProgramRun, ended, ends, lists, normalises, refuses};
use super::support::streams::{FullAfter, Interrupted, Unflushed, Unwritable};
use std::alloc::Global;
use std::io::Write;

const ENGINES: [&str; 8] = [
    "show tm",
    "show tc",
    "check tm",
    "check tc",
    "packets tm",
    "packets tc",
    "normalise tm",
    "normalise tc",
];

const HELP: &str = "sllink --help";

const VERSION: &str = "sllink --version";

const SHOW: &str = "sllink show tm --scid 1";

const CHECK: &str = "sllink check tm --scid 1 --tm-length 32";

const PACKETS: &str = "sllink packets tm --scid 1 --tm-length 32";

const CHECK_TC: &str = "sllink check tc --scid 1";

const PACKETS_TC: &str = "sllink packets tc --scid 1";

const NORMALISE: &str = "sllink normalise tm --scid 1 --tm-length 32";

const SHOW_WITH_FECF: &str = "sllink show tm --scid 1 --tm-length 34 --tm-fecf";

const NORMALISE_WITH_FECF: &str = "sllink normalise tm --scid 1 --tm-length 34 --tm-fecf";

const UP_TO_ONE: &str = "sllink show tm --scid 1 --limit 1";

const LIMITED: &str = "sllink normalise tm --scid 1 --tm-length 32 --limit 100";

const RECORDING: &[u8] = &[0, 0];

// A frame with a packet of ten octets, and the same with other counts and another idle packet.
const NORMAL: [&str; 2] = [FIRST, TEN_FILLED];

const COUNTED: [&str; 4] = ["00104dc81800", TEN, "07ff00070009", "55555555555555555555"];

// Parameters that are refused.
const REFUSED: [(&str, &str); 5] = [
    ("--scid 1024 --limit 0", "sllink: managed: spacecraft\n"),
    ("--scid 1 --tm-length 31", "sllink: managed: tm length\n"),
    (
        "--scid 1 --tc-length 15 --limit 0",
        "sllink: managed: tc length\n",
    ),
    ("--scid 1 --window 11", "sllink: managed: window\n"),
    ("--scid 1 --limit 0", "sllink: managed: limit\n"),
];

// A check says by its status whether it met anomalies.
const LISTINGS: [(&str, &[&str], u8, &str); 9] = [
    (
        CHECK,
        &[],
        0,
        "frames 0 skipped 0 packets 0 idle 0 anomalies 0\n",
    ),
    (
        CHECK,
        &NORMAL,
        0,
        "frames 1 skipped 0 packets 1 idle 1 anomalies 0\n",
    ),
    (
        CHECK,
        &[FIRST, TEN_FILLED, "00"],
        1,
        "32 rest 1\nframes 1 skipped 0 packets 1 idle 1 anomalies 1\n",
    ),
    (
        CHECK,
        &["002000001800", TEN_FILLED],
        1,
        "0 skip spacecraft\nframes 1 skipped 1 packets 0 idle 0 anomalies 1\n",
    ),
    (
        CHECK_TC,
        &[WHOLE],
        0,
        "frames 1 skipped 0 packets 1 idle 0 anomalies 0\n",
    ),
    (
        CHECK_TC,
        &[WHOLE, "00"],
        1,
        "16 rest 1\nframes 1 skipped 0 packets 1 idle 0 anomalies 1\n",
    ),
    // Other verbs count no anomalies.
    (PACKETS, &[FIRST, TEN_FILLED, "00"], 0, TM_TEN_LISTED),
    (PACKETS_TC, &[WHOLE, "00"], 0, TC_TEN_LISTED),
    // An octet of the first frame is damaged.
    (
        SHOW_WITH_FECF,
        &WITH_FECF,
        0,
        "0 skip fecf\n34 frame vc 0 mc 0 vcc 0 first 0\n",
    ),
];

const FORMS: [(&str, &[&str], &[&str]); 3] = [
    (NORMALISE, &NORMAL, &NORMAL),
    (NORMALISE, &COUNTED, &NORMAL),
    (
        NORMALISE_WITH_FECF,
        &WITH_FECF,
        &[FIRST, TEN_FILLED, "5e0c"],
    ),
];

// Command lines whose input can't be read.
const UNREAD: [&str; 4] = [SHOW, CHECK, PACKETS, NORMALISE];

// Command lines whose output can't be written, and recordings.
const UNWRITTEN: [(&str, &[u8]); 6] = [
    (SHOW, RECORDING),
    (HELP, RECORDING),
    (VERSION, RECORDING),
    (CHECK, RECORDING),
    (PACKETS, &TM_FRAME),
    (NORMALISE, &TM_FRAME),
];

// Command lines, and the statuses of their runs where nothing can be said.
const UNSAID: [(&str, u8); 3] = [
    ("sllink", 2),
    ("sllink show tm --scid 1024", 2),
    ("sllink show tm --scid 1 --limit 1", 3),
];

fn is_refused(alloc: Global, engine: &str, options: &str, said: &str) -> Result<bool, Stop> {
    let line = format!(in alloc; "sllink {engine} {options}")?;
    Ok(refuses(alloc, line.as_str(), said)?)
}

#[test]
fn refused_parameters_are_named(rt: HostRuntime) {
    for (options, said) in &REFUSED {
        for engine in &ENGINES {
            let outcome = is_refused(rt.alloc(), engine, options, said);
            passes(&rt, &(engine, options), outcome);
        }
    }
}

#[test]
fn recordings_are_listed_and_normalised(rt: HostRuntime) {
    for (line, parts, status, listing) in &LISTINGS {
        let outcome = lists(rt.alloc(), line, parts, *status, listing);
        passes(&rt, &(line, parts), outcome);
    }
    for row in &FORMS {
        passes(&rt, row, normalises(rt.alloc(), row.0, row.1, row.2));
    }
}

// Whether a recording has this status where a hundred octets are read at most.
fn has_status(alloc: Global, recording: &[u8], status: u8, said: &str) -> Result<bool, Stop> {
    let outcome = ProgramRun::of(alloc, LIMITED, recording)?;
    Ok(outcome.says(status, said) && outcome.output.is_empty() == (status != 0))
}

// Exactly the limit, and one octet more.
#[test]
fn the_limit_is_kept(rt: HostRuntime) -> Result<(), Stop> {
    let mut recording = octets(rt.alloc(), &HUNDRED)?;
    holds(&rt, &100, has_status(rt.alloc(), &recording, 0, "")?);
    recording.push(0x18)?;
    let said = "sllink: too long\n";
    holds(&rt, &101, has_status(rt.alloc(), &recording, 3, said)?);
    Ok(())
}

#[test]
fn faults_of_reading_are_named(rt: HostRuntime) -> Result<(), Stop> {
    for line in &UNREAD {
        let outcome = ProgramRun::unread(rt.alloc(), line)?;
        holds(&rt, line, outcome.says(3, "sllink: read\n"));
    }
    let outcome = ProgramRun::of(rt.alloc(), UP_TO_ONE, RECORDING)?;
    holds(&rt, &UP_TO_ONE, outcome.says(3, "sllink: too long\n"));
    Ok(())
}

// Whether a run says that this writer failed.
fn fails<W: Write + Drop>(
    alloc: Global,
    line: &str,
    recording: &[u8],
    writer: W,
) -> Result<bool, Stop> {
    let wanted = (3, "sllink: write\n");
    let (is_so, _, _) = ends(alloc, line, (recording, writer), wanted)?;
    Ok(is_so)
}

#[test]
fn faults_of_writing_are_named(rt: HostRuntime) {
    for (line, recording) in &UNWRITTEN {
        passes(&rt, line, fails(rt.alloc(), line, recording, Unwritable));
        passes(&rt, line, fails(rt.alloc(), line, recording, Unflushed));
        let interrupted = Interrupted {
            was_interrupted: false,
        };
        passes(&rt, line, fails(rt.alloc(), line, recording, interrupted));
    }
}

// Whether a device that is full after two octets has these, and the program says `write`.
fn has_beginning(alloc: Global) -> Result<bool, Stop> {
    let taken = Vec::new(alloc);
    let streams = (&TM_FRAME[..], FullAfter { taken, room: 2 });
    let (is_so, faults, writer) = ends(alloc, NORMALISE, streams, (3, "sllink: write\n"))?;
    Ok(is_so && faults == 1 && writer.taken.as_slice() == &[0x00, 0x10][..])
}

#[test]
fn a_full_device_has_the_beginning(rt: HostRuntime) {
    passes(&rt, &NORMALISE, has_beginning(rt.alloc()));
}

// Whether this is the status of a run that can't say anything.
fn ends_silently(alloc: Global, line: &str, wanted: u8) -> Result<bool, Stop> {
    let mut errors = Unwritable;
    let (status, _, _) = ended(alloc, line, RECORDING, Vec::new(alloc), &mut errors)?;
    Ok(status == wanted)
}

#[test]
fn faults_of_the_error_output_are_passed_over(rt: HostRuntime) {
    for (line, wanted) in &UNSAID {
        passes(&rt, line, ends_silently(rt.alloc(), line, *wanted));
    }
}
