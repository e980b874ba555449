//! The command line.
ghost use Rattle.std.specs.Prelude.{◌≡◌, ◌<◌, ◌≤◌, IfErr, IfOk, option_map};
ghost use Rattle.sllink_frames.specs.CommandLine.{IsCltuShape, marker_in, marker_of};

use clap::{Arg, ArgAction, ArgMatches, Command, value_parser};
use sl_sync::{CaduShape, CltuShape, SyncMarker};
use std::alloc::{AllocError, Global};
use thiserror::Error;

/// What a command line asks for.
#[derive(Drop)]
pub struct Asked<'a> {
    /// The file, if one is named; else the standard input is read.
    pub file: Option<&'a str>,
    /// The shape of its units.
    pub shape: Result<Shape, Refused>,
}

/// The shape of a file's units.
#[derive(Drop)]
pub enum Shape {
    /// Units of one length.
    Cadu(CaduShape),
    /// CLTUs.
    Cltu(CltuShape),
}

/// Which option has a value that is refused.
#[derive(Clone, Copy, Debug, PartialEq, Eq, Error)]
pub enum Refused {
    /// The length of a frame is 0.
    #[error("--length: 1 to 65535 octets")]
    Length,
    /// The marker isn't 1 to 16 octets in hexadecimal.
    #[error("--marker: 1 to 16 octets, two hexadecimal digits each")]
    Marker,
    /// More bits than a quarter may be wrong, or no bits are searched.
    #[error("--errors: at most a quarter of the marker's bits, 4 of a CLTU's start sequence")]
    Errors,
}

const CLTU: &str = "cltu";

const LENGTH: &str = "length";

const MARKER: &str = "marker";

const ERRORS: &str = "errors";

const LEAD: &str = "lead";

const TRAIL: &str = "trail";

const DERANDOMISE: &str = "derandomise";

const FILE: &str = "file";

// The version of the product. The line that `--version` writes repeats it.
const VERSION: &str = "2.0.0";

// What stands below the options in the help.
const EXAMPLES: &str = "\
Examples:
  sllink-frames --length 1115 --marker 1acffc1d --errors 2 --trail 160 pass.cadu > pass.tm
  sllink-frames --cltu uplink.cltu > uplink.tc

What is written, frame after frame, is what sllink reads. A line of counts goes to the standard
error: frames written, markers of theirs with more wrong bits than --errors, octets that belong
to no unit, code blocks refused, and octets of frames that a CLTU cuts.

Exit status:
  0  all was read and written
  1  the same, but a marker was wrong, a code block was refused, or octets were skipped after the
     first unit of one length
  2  the command line or the file is refused; nothing was read or written
  3  reading or writing failed, or there was no memory
";

/// What the words ask for; the first word is the program's name. The error says why they are
/// refused, or that they ask for help or the version, or that memory was refused.
pub fn parse<'a>(alloc: Global, words: &'a [String]) -> Result<Asked<'a>, clap::Error> {
    let mut command = frames_command(alloc)?;
    let matches = command.try_get_matches_from_mut(words)?;
    Ok(Asked {
        file: matches.get_str(FILE),
        shape: shape_of(&matches),
    })
}

// The program's options.
fn frames_command<'a>(alloc: Global) -> Result<Command<'a>, AllocError> {
    let command = Command::new(alloc, "sllink-frames")
        .about("Write the frames of a station's file, end to end")
        .version(VERSION)
        .after_help(EXAMPLES);
    let command = command.arg(cltu_flag(alloc)?)?;
    let command = command.arg(length_option(alloc)?)?;
    let command = command.args(other_options(alloc)?)?;
    let help = "The file, else the standard input is read";
    command.arg(Arg::new(alloc, FILE).value_name("FILE").help(help))
}

fn cltu_flag<'a>(alloc: Global) -> Result<Arg<'a>, AllocError> {
    let flag = Arg::new(alloc, CLTU)
        .long(CLTU)
        .help("The file has CLTUs")
        .action(ArgAction::SetTrue);
    let flag = flag.conflicts_with(LENGTH)?.conflicts_with(MARKER)?;
    flag.conflicts_with(LEAD)?.conflicts_with(TRAIL)
}

fn length_option<'a>(alloc: Global) -> Result<Arg<'a>, AllocError> {
    let help = "Octets of a frame, 1 to 65535";
    let option = number_option(alloc, LENGTH, "OCTETS", help);
    option.required_unless_present(CLTU)
}

fn other_options<'a>(alloc: Global) -> Result<Vec<Arg<'a>>, AllocError> {
    let marker = Arg::new(alloc, MARKER).long(MARKER).value_name("HEX").help(
        "Sync marker before each unit, 1 to 16 octets in hexadecimal",
    );
    let help = "Bits of a marker that may be wrong, at most a quarter of them";
    let errors = number_option(alloc, ERRORS, "BITS", help);
    let help = "Octets between the marker and its frame, 0 to 65535";
    let lead = number_option(alloc, LEAD, "OCTETS", help);
    let help = "Octets between a frame and the next unit, 0 to 65535";
    let trail = number_option(alloc, TRAIL, "OCTETS", help);
    let derandomise = Arg::new(alloc, DERANDOMISE)
        .long(DERANDOMISE)
        .help("Take the randomiser's sequence off the frames")
        .action(ArgAction::SetTrue);
    Ok(vec![in alloc; marker, errors, lead, trail, derandomise]?)
}

// An option with a number of 16 bits.
fn number_option<'a>(alloc: Global, name: &'a str, unit: &'a str, help: &'a str) -> Arg<'a> {
    Arg::new(alloc, name)
        .long(name)
        .value_name(unit)
        .help(help)
        .value_parser(value_parser!(u16))
}

// The shape that the options give, or the first of them that is refused.
fn shape_of(matches: &ArgMatches<'_>) -> Result<Shape, Refused> {
    let errors = number(matches, ERRORS);
    let randomised = matches.get_one(DERANDOMISE).unwrap_or(false);
    if matches.get_one(CLTU).unwrap_or(false) {
        return cltu_shape(errors, randomised);
    }
    let marker = marker_of(matches.get_str(MARKER), errors)?;
    let len = number(matches, LENGTH);
    if len == 0 {
        return Err(Refused::Length);
    }
    Ok(Shape::Cadu(CaduShape {
        marker,
        lead: number(matches, LEAD),
        len,
        trail: number(matches, TRAIL),
        randomised,
    }))
}

// The number of an option, 0 where it is left out.
fn number(matches: &ArgMatches<'_>, name: &str) -> u16 {
    matches.get_one(name).unwrap_or(0)
}

// CLTUs, of whose start sequence this number of bits may be wrong.
fn cltu_shape(errors: u16, randomised: bool) -> Result<Shape, Refused>
    ensures shape { IfOk result (λ shape. (errors ≤ 4) × IsCltuShape errors randomised shape) }
    ensures refused { IfErr result (λ refused. (4 < errors) × (refused ≡ Refused.Errors)) }
{
    if errors > 4 {
        return Err(Refused::Errors);
    }
    Ok(Shape::Cltu(CltuShape {
        errors: u32::from(errors),
        randomised,
    }))
}

// The marker of this text, of whose bits this number may be wrong; none where there is no text.
fn marker_of(text: Option<&str>, errors: u16) -> Result<SyncMarker, Refused>
    ensures { result ≡ marker_of (option_map (λ t. t.now) text.entry) errors }
{
    match text {
        None if errors > 0 => Err(Refused::Errors),
        None => Ok(SyncMarker::none()),
        Some(text) => read_marker(text, errors),
    }
}

// The marker of this text, two hexadecimal digits an octet.
fn read_marker(text: &str, errors: u16) -> Result<SyncMarker, Refused>
    ensures { result ≡ marker_in text.now errors }
{
    let mut octets = [0; 16];
    let len = text.len() / 2;
    if len == 0 || len > 16 {
        return Err(Refused::Marker);
    }
    let octets = &mut octets[..len];
    if hex::decode_to_slice(text.as_bytes(), octets).is_err() {
        return Err(Refused::Marker);
    }
    SyncMarker::new(octets, u32::from(errors)).ok_or(Refused::Errors)
}
