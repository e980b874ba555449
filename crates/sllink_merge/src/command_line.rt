//! The command line.

use clap::{Arg, ArgAction, ArgMatches, Command};
use sl_fields::ShapeFault;
use sl_link::{Managed, ManagedFault, RefusedParameter, link_options, managed_of_options};
use sl_tmframe::TmShape;
use std::alloc::{AllocError, Global};
use thiserror::Error;

/// What a command line asks for.
#[derive(Drop)]
pub struct Asked<'a> {
    /// The names of the files, two or more.
    pub names: Vec<&'a str>,
    /// What their frames are.
    pub link: Link,
    /// How many octets of a file are read at most.
    pub limit: u64,
}

/// The frames of all recordings.
#[derive(Clone, Copy)]
pub struct Link {
    pub shape: TmShape,
    /// The spacecraft identifier, 0 to 1023.
    pub spacecraft: u16,
    /// The same, as `check` takes it. It has no limit, since a merge has more octets than either of
    /// two recordings.
    pub managed: Managed,
}

/// Why a command line isn't followed.
#[derive(Debug, Drop, Error)]
pub enum Refusal {
    /// The words are refused as such, ask for help or the version, or memory was refused.
    #[error("{0}")]
    Words(clap::Error),
    /// A managed parameter is refused.
    #[error("managed: {0}")]
    Managed(RefusedParameter),
}

impl From<clap::Error> for Refusal {
    fn from(error: clap::Error) -> Refusal {
        Refusal::Words(error)
    }
}

impl From<AllocError> for Refusal {
    fn from(error: AllocError) -> Refusal {
        Refusal::Words(clap::Error::from(error))
    }
}

impl From<RefusedParameter> for Refusal {
    fn from(refused: RefusedParameter) -> Refusal {
        Refusal::Managed(refused)
    }
}

impl From<ManagedFault> for Refusal {
    fn from(fault: ManagedFault) -> Refusal {
        Refusal::Managed(RefusedParameter::Managed(fault))
    }
}

impl From<ShapeFault> for Refusal {
    fn from(_: ShapeFault) -> Refusal {
        Refusal::from(ManagedFault::TmLength)
    }
}

const KIND: &str = "kind";

const FIRST: &str = "a";

const SECOND: &str = "b";

const OTHERS: &str = "c";

// Options of the link, by their names.

const TM_LENGTH: &str = "tm-length";

const TM_FECF: &str = "tm-fecf";

const LIMIT: &str = "limit";

static KINDS: [&str; 1] = ["tm"];

// The version of the product. The line that `--version` writes repeats it.
const VERSION: &str = "2.0.0";

// What stands below the options in the help.
const EXAMPLES: &str = "\
Each frame that one of the recordings has stands in the merge once, in the order of each recording,
but for frames that are left out. The merge is written once it has passed a check: so it delivers
each packet that a recording delivers without these, and packets whose frames are partly in one
recording and partly in another.

Of each two recordings that are merged three lines go to the standard error:
  frames       whole frames
  only-here    frames that the other recording hasn't, and that stand in the merge
  skipped      frames that are left out since they are damaged, or of another spacecraft
  repeats      frames that are left out since each is the one before it once more
  left-out     frames that are left out since their place isn't known
  rest         octets after the last whole frame, which are left out
  packets      packets that are delivered
  in-both      frames that both recordings have
  outages      stretches whose order is the likeliest, after 256 frames or more were lost in a row
  open         stretches whose order is a guess
  undecided    stretches of which frames of one recording are left out
  idle         choices among equal idle frames

Example:
  sllink-merge tm a.tm b.tm --scid 1 --tm-length 1115 --tm-fecf > both.tm

Exit status:
  0  the merge is written
  1  the same, but frames are left out whose place isn't known, or the order of some is a guess
  2  no merge is found or it doesn't pass, or the command line or a file is refused; nothing is
     written
  3  reading or writing failed, a recording is too long, or there was no memory
";

/// What the words ask for; the first word is the program's name.
pub fn parse<'a>(alloc: Global, words: &'a [String]) -> Result<Asked<'a>, Refusal> {
    let mut command = merge_command(alloc)?;
    let matches = command.try_get_matches_from_mut(words)?;
    Ok(Asked {
        names: names_of(alloc, &matches)?,
        link: link_of(&matches)?,
        limit: matches.get_one(LIMIT).unwrap_or(0),
    })
}

// The program's options.
fn merge_command<'a>(alloc: Global) -> Result<Command<'a>, AllocError> {
    let command = Command::new(alloc, "sllink-merge")
        .about("Merge recordings of one pass, frame by frame")
        .version(VERSION)
        .after_help(EXAMPLES);
    let kind = Arg::new(alloc, KIND)
        .value_name("KIND")
        .help("Transfer frames of the recordings: TM, the way down")
        .value_parser(KINDS.as_slice())
        .required(true);
    let command = command.arg(kind)?;
    let first = file(alloc, FIRST, "A", "File with the first recording");
    let second = file(alloc, SECOND, "B", "File with the second recording");
    let others = file(alloc, OTHERS, "C", "Files with further recordings");
    let command = command.arg(required(first))?;
    let command = command.arg(required(second))?;
    let command = command.arg(others.num_args(1..).action(ArgAction::Append))?;
    with_options(alloc, command)
}

// With the options that `sllink` takes. Those of TC frames change nothing, unless a value is
// refused, so the help leaves them out.
fn with_options<'a>(alloc: Global, command: Command<'a>) -> Result<Command<'a>, AllocError> {
    let mut command = command;
    for option in link_options(alloc)? {
        let is_hidden = is_of_tc(option.get_id());
        command = command.arg(option.hide(is_hidden))?;
    }
    Ok(command)
}

// Whether an option is of TC frames alone.
fn is_of_tc(name: &str) -> bool {
    matches!(
        name,
        "tc-length" | "tc-fecf" | "window" | "vr" | "vr-of" | "plain"
    )
}

// A file.
fn file<'a>(alloc: Global, name: &'a str, shown: &'a str, help: &'a str) -> Arg<'a> {
    Arg::new(alloc, name).value_name(shown).help(help)
}

// A file that is required. Its name may begin like an option: then it is refused later. Among
// several files options would be taken for such names.
fn required(file: Arg<'_>) -> Arg<'_> {
    file.allow_hyphen_values(true).required(true)
}

// The names of the files.
fn names_of<'a>(alloc: Global, matches: &ArgMatches<'a>) -> Result<Vec<&'a str>, AllocError> {
    let mut names = Vec::new(alloc);
    names.push(matches.get_str(FIRST).unwrap_or(""))?;
    names.push(matches.get_str(SECOND).unwrap_or(""))?;
    for name in matches.get_strs(OTHERS).unwrap_or(&[]) {
        names.push(*name)?;
    }
    Ok(names)
}

// What the frames are, by the options of the link, or the first of these that is refused.
fn link_of(matches: &ArgMatches<'_>) -> Result<Link, Refusal> {
    let spacecraft = managed_of_options(matches)?.spacecraft();
    let len = matches.get_one(TM_LENGTH).unwrap_or(0);
    let shape = TmShape::new(len, matches.get_flag(TM_FECF))?;
    let managed = Managed::new(spacecraft, len, shape.fecf(), 1024, false, 10, 0, u64::MAX)?;
    Ok(Link {
        shape,
        spacecraft,
        managed,
    })
}
