//! Command lines: what they ask for, which are refused, help and the version.
use super::support::recordings::{FIRST, TEN_FILLED, TM_TEN_LISTED, TM_TEN_SHOWN, WITH_FECF};
use super::support::rows::{Stop, holds, passes};
use super::support::run::{ProgramRun, lists, normalises};
use std::alloc::{AllocError, Global};

// Options come in any order, before the kind or after it, their number joined to them or not. The
// first word may be any.
const LINES: [(&str, &str); 4] = [
    ("sllink show tm --scid 1 --tm-length 32", TM_TEN_SHOWN),
    (
        "any show --limit=32 --tm-length=32 tm --scid=1",
        TM_TEN_SHOWN,
    ),
    (
        "sllink show --tc-fecf --tm-length 32 --scid 1 --vr 255 --window 2 tm --tc-length 16",
        TM_TEN_SHOWN,
    ),
    ("sllink show tm --scid 1", "0 rest 32\n"),
];

const WRONG: [&str; 41] = [
    "",
    "sllink",
    "sllink tell tm --scid 1",
    "sllink help tell",
    "sllink show --scid 1",
    "sllink show tx --scid 1",
    "sllink check --scid 1",
    "sllink check tx --scid 1",
    "sllink check tm",
    "sllink packets --scid 1",
    "sllink packets tx --scid 1",
    "sllink packets tc",
    "sllink packet tm --scid 1",
    "sllink normalise --scid 1",
    "sllink normalise tx --scid 1",
    "sllink normalise tm",
    "sllink show tm tm --scid 1",
    "sllink show tm",
    "sllink show tm --scid",
    "sllink show tm --scid one",
    "sllink show tm --scid 0x1",
    "sllink show tm --scid 65536",
    "sllink show tm --scid -1",
    "sllink show tm --scid=-1",
    "sllink show tm --scid 1 --scid 1",
    "sllink show tm --scid 1 --tm-length 65536",
    "sllink show tm --scid 1 --limit 18446744073709551616",
    "sllink show tm --scid 1 --spare 10",
    "sllink show tc --scid 1 --tc-length 65536",
    "sllink show tc --scid 1 --window 256",
    "sllink show tc --scid 1 --vr 256",
    "sllink show tc --scid 1 --vr=-1",
    "sllink show tm --scid 1 --tm-fecf --tm-fecf",
    "sllink show tm --scid 1 --tm-fecf=1",
    "sllink show tc --scid 1 --tc-fecf=1",
    "sllink show tc --scid 1 --tc-fecf --tc-fecf",
    "sllink show tm --scid 1 --tm-fecf yes",
    "sllink version",
    "sllink --version=1",
    "sllink show --version",
    "sllink show tm --scid 1 -V",
];

// The beginning of command lines of a thousand words more, and their status.
const LONG: [(&str, u8); 4] = [
    ("sllink", 2),
    ("sllink show --scid 1", 2),
    ("sllink --help", 0),
    ("sllink -V", 0),
];

// The version is written whatever comes after the option, even in the same word.
const VERSION_LINES: [&str; 6] = [
    "sllink --version",
    "sllink -V",
    "any --version show tm --scid 1",
    "sllink -Vh",
    "sllink -VV",
    "sllink -V=1",
];

// What each help says at the end.
const END: [&str; 6] = [
    " read from the standard input: transfer frames ",
    " to the standard output, faults to the standard error.\n",
    "\nExit status:\n  0  ",
    "\n  1  ",
    "\n  2  ",
    "\n  3  ",
];

// What it says of each option.
const VALUES: [&str; 10] = [
    "Spacecraft identifier, in decimal, 0 to 1023\n",
    "Length of each TM frame in octets, 32 to 2048 [default: 1115]\n",
    "Greatest length of a TC frame in octets, 16 to 1024 [default: 1024]\n",
    "TM frames have a frame error control field\n",
    "TC frames have a frame error control field\n",
    "Width of the FARM-1 sliding window in frames, even, 2 to 254 [default: 10]\n",
    "V(R) with which each FARM-1 begins, 0 to 255 [default: 0]\n",
    "Initial V(R), 0 to 255, of these virtual channels, 0 to 63 in rising order\n",
    "Virtual channels whose TC frames have no segment headers, 0 to 63 in rising order\n",
    "Octets read at most, 1 to 18446744073709551615 [default: 1073741824]\n",
];

// Command lines that ask for help, and what this says.
const HELP: [(&str, &[&str]); 26] = [
    ("sllink --help", &["\nUsage: sllink <COMMAND>\n"]),
    ("sllink help", &["\nUsage: sllink <COMMAND>\n"]),
    ("sllink -hx", &["\nUsage: sllink <COMMAND>\n"]),
    ("sllink -hV", &["\nUsage: sllink <COMMAND>\n"]),
    (
        "sllink show -hx",
        &["\nUsage: sllink show [OPTIONS] --scid <ID> <KIND>\n"],
    ),
    (
        "sllink show -h",
        &["\nUsage: sllink show [OPTIONS] --scid <ID> <KIND>\n"],
    ),
    (
        "sllink help show",
        &["\nUsage: sllink show [OPTIONS] --scid <ID> <KIND>\n"],
    ),
    (
        "sllink check --help",
        &["\nUsage: sllink check [OPTIONS] --scid <ID> <KIND>\n"],
    ),
    (
        "sllink help check",
        &["\nUsage: sllink check [OPTIONS] --scid <ID> <KIND>\n"],
    ),
    (
        "sllink packets -h",
        &["\nUsage: sllink packets [OPTIONS] --scid <ID> <KIND>\n"],
    ),
    (
        "sllink help packets",
        &["\nUsage: sllink packets [OPTIONS] --scid <ID> <KIND>\n"],
    ),
    (
        "sllink help normalise",
        &["\nUsage: sllink normalise [OPTIONS] --scid <ID> <KIND>\n"],
    ),
    ("sllink --help", &["\n  sllink show --help\n"]),
    ("sllink show -h", &["\nExample:\n  sllink show t"]),
    ("sllink check -h", &["\nExample:\n  sllink check t"]),
    ("sllink packets -h", &["\nExample:\n  sllink packets t"]),
    ("sllink normalise -h", &["\nExample:\n  sllink normalise t"]),
    ("sllink --help", &END),
    ("sllink show -h", &END),
    ("sllink check -h", &END),
    ("sllink packets -h", &END),
    ("sllink normalise -h", &END),
    ("sllink show -h", &VALUES),
    ("sllink check -h", &VALUES),
    ("sllink packets -h", &VALUES),
    ("sllink normalise -h", &VALUES),
];

// The verbs in their order, each with what help says of it.
const VERBS: [(&str, &str); 4] = [
    ("show", "List the frames of a recording\n"),
    ("check", "List the anomalies of a recording\n"),
    ("packets", "List the packets of a recording\n"),
    ("normalise", "Write the normal form of a recording\n"),
];

// The options in their order, of each verb.
const OPTIONS: [&str; 10] = [
    "--scid <ID>",
    "--tm-length <OCTETS>",
    "--tc-length <OCTETS>",
    "--tm-fecf",
    "--tc-fecf",
    "--window <WIDTH>",
    "--vr <NUMBER>",
    "--vr-of <VC:NUMBER,..>",
    "--plain <VC,..>",
    "--limit <OCTETS>",
];

const WITH_OPTIONS: [&str; 4] = [
    "sllink show --help",
    "sllink check --help",
    "sllink packets --help",
    "sllink normalise --help",
];

#[test]
fn command_lines_are_read(rt: HostRuntime) {
    for (line, listing) in &LINES {
        let outcome = lists(rt.alloc(), line, &[FIRST, TEN_FILLED], 0, listing);
        passes(&rt, line, outcome);
    }
}

// Nothing is written for a command line that is refused.
#[test]
fn wrong_command_lines_are_refused(rt: HostRuntime) -> Result<(), Stop> {
    for line in &WRONG {
        let outcome = ProgramRun::of(rt.alloc(), line, &[])?;
        let is_refused = outcome.status == 2 && outcome.output.is_empty();
        holds(
            &rt,
            line,
            is_refused && outcome.errors.starts_with(b"error: "),
        );
    }
    Ok(())
}

// A command line that goes on with a thousand words.
fn long_line(alloc: Global, line: &str) -> Result<String, AllocError> {
    let mut long = String::from_str(alloc, line)?;
    for _word in 0..1000 {
        long.push_str(" tm")?;
    }
    Ok(long)
}

// As many words as memory has room for are no fault.
#[test]
fn many_words_are_read(rt: HostRuntime) -> Result<(), Stop> {
    for (line, status) in &LONG {
        let long = long_line(rt.alloc(), line)?;
        let outcome = ProgramRun::of(rt.alloc(), long.as_str(), &[])?;
        holds(&rt, line, outcome.status == *status);
    }
    Ok(())
}

// Nothing is read for the version.
#[test]
fn the_version_is_printed(rt: HostRuntime) -> Result<(), Stop> {
    for line in &VERSION_LINES {
        let outcome = ProgramRun::unread(rt.alloc(), line)?;
        holds(
            &rt,
            line,
            outcome.says(0, "") && outcome.text() == "sllink 2.0.0\n",
        );
    }
    Ok(())
}

#[test]
fn help_says_what_a_run_takes_and_gives(rt: HostRuntime) -> Result<(), Stop> {
    for (line, parts) in &HELP {
        let outcome = ProgramRun::of(rt.alloc(), line, &[])?;
        holds(&rt, line, outcome.says(0, ""));
        for part in *parts {
            holds(&rt, &(line, part), outcome.text().contains(*part));
        }
    }
    Ok(())
}

// What comes after a verb and its sentence, if only blanks are between these two.
fn after<'a>(said: &'a str, verb: &str, about: &str) -> Option<&'a str> {
    let (_, behind) = said.split_once(verb)?;
    behind.trim_start().strip_prefix(about)
}

// Whether all verbs are named, in this order.
fn names_verbs(said: &str) -> bool {
    let mut left = said;
    for (verb, about) in &VERBS {
        match after(left, verb, about) {
            Some(after) => left = after,
            None => return false,
        }
    }
    true
}

// Whether all options are named, in this order.
fn names_options(said: &str) -> bool {
    let mut left = said;
    for option in &OPTIONS {
        match left.split_once(*option) {
            Some((_, behind)) if !behind.is_empty() => left = behind,
            _ => return false,
        }
    }
    said.contains("[possible values: tm, tc]")
}

#[test]
fn help_names_each_verb_and_option(rt: HostRuntime) -> Result<(), Stop> {
    let help = ProgramRun::of(rt.alloc(), "sllink --help", &[])?;
    holds(&rt, &"verbs", names_verbs(help.text()));
    for line in &WITH_OPTIONS {
        let help = ProgramRun::of(rt.alloc(), line, &[])?;
        holds(&rt, line, names_options(help.text()));
    }
    Ok(())
}

// Each option at once: with the program, the verb and the kind these are twenty-one words.
const ALL_OPTIONS: &str =
    "--scid 1 --tm-length 34 --tc-length 24 --tm-fecf --tc-fecf --window 20 --vr 3 \
    --vr-of 5:255 --plain 7 --limit 69";

// A packet of ten octets on virtual channel 5, where V(R) begins with 255, and on virtual channel
// 7, without a segment header; a frame that is early in a window of 20; and one of 25 octets.
const UPLINK: [&str; 4] = [
    "00011411ffc01001c0000003aabbccdd03f2",
    "00011c10031001c0000003aabbccdd3d47",
    "0001000808c0008e58",
    "0001001800c0000000000000000000000000000000000061e4",
];

// Each option changes an answer, TM or TC, but for the limit: it is the TC recording's length.
const WITH_ALL: [(&str, &[&str], u8, &str); 6] = [
    (
        "show tm",
        &WITH_FECF,
        0,
        "0 skip fecf\n34 frame vc 0 mc 0 vcc 0 first 0\n",
    ),
    (
        "show tc",
        &UPLINK,
        0,
        "0 frame vc 5 ad 255 segment whole map 0 octets 10 accept clcw 01140000\n\
        18 frame vc 7 ad 3 unit octets 10 accept clcw 011c0004\n\
        35 frame vc 0 ad 8 segment whole map 0 octets 1 early clcw 01000803\n\
        44 skip long\n",
    ),
    (
        "check tm",
        &WITH_FECF,
        1,
        "0 skip fecf\nframes 2 skipped 1 packets 1 idle 1 anomalies 1\n",
    ),
    (
        "check tc",
        &UPLINK,
        1,
        "35 early vc 0 ad 8\n44 skip long\n\
        frames 4 skipped 1 packets 2 idle 0 anomalies 2\n",
    ),
    ("packets tm", &WITH_FECF, 0, TM_TEN_LISTED),
    (
        "packets tc",
        &UPLINK,
        0,
        "vc 5 map 0 apid 1 type 1 secondary 0 flags 3 count 0 octets 10 1001c0000003aabbccdd\n\
        vc 7 map 0 apid 1 type 1 secondary 0 flags 3 count 0 octets 10 1001c0000003aabbccdd\n",
    ),
];

// And their normal forms, which are some of the frames that aren't skipped, as it happens.
const FORMS_WITH_ALL: [(&str, &[&str], usize, usize); 2] = [
    ("normalise tm", &WITH_FECF, 3, 6),
    ("normalise tc", &UPLINK, 0, 2),
];

// A form is the parts from the one number up to the other.
#[test]
fn each_verb_and_kind_takes_all_options(rt: HostRuntime) -> Result<(), Stop> {
    for (verb, parts, status, listing) in &WITH_ALL {
        let line = format!(in rt.alloc(); "sllink {verb} {ALL_OPTIONS}")?;
        let outcome = lists(rt.alloc(), line.as_str(), parts, *status, listing);
        passes(&rt, verb, outcome);
    }
    for (verb, parts, from, to) in &FORMS_WITH_ALL {
        let form = parts.get(*from..*to).ok_or(Stop::Absent)?;
        let line = format!(in rt.alloc(); "sllink {verb} {ALL_OPTIONS}")?;
        passes(
            &rt,
            verb,
            normalises(rt.alloc(), line.as_str(), parts, form),
        );
    }
    Ok(())
}
