//! The command line.
ghost use Rattle.std.specs.Prelude.{◌≡◌, ◌<◌, IfSome};
ghost use Rattle.sllink_compare.specs.CommandLine.{allowed_with, kind_named, place_of, with_lines};

use crate::questions::{Allowed, WORDS, text_of};
use crate::run::Comparison;
use clap::error::ErrorKind;
use clap::{Arg, ArgAction, ArgMatches, Command};
use sl_link::{Managed, RecordingKind, RefusedParameter, link_options, managed_of_options};
use std::alloc::{AllocError, Global};
use thiserror::Error;

/// What a command line asks for.
#[derive(Drop)]
pub struct Asked<'a> {
    /// The name of the first file.
    pub first: &'a str,
    /// The name of the second file.
    pub second: &'a str,
    /// What is compared, and how.
    pub comparison: Comparison,
}

/// Why a command line isn't followed.
#[derive(Debug, Drop, Error)]
pub enum Refusal {
    /// The words are refused as such, ask for help or the version, or memory was refused.
    #[error("{0}")]
    Words(clap::Error),
    /// The text of an option isn't options of the link for one recording.
    #[error("--{0}: {1}")]
    Text(&'static str, String),
    /// A word of `--allow` is no such word.
    #[error("--allow: '{0}' is none of: {ALLOWED}")]
    Allow(String),
    /// A managed parameter is refused.
    #[error("managed: {0}")]
    Managed(RefusedParameter),
}

impl From<clap::Error> for Refusal {
    fn from(error: clap::Error) -> Refusal {
        Refusal::Words(error)
    }
}

impl From<AllocError> for Refusal {
    fn from(error: AllocError) -> Refusal {
        Refusal::Words(clap::Error::from(error))
    }
}

const KIND: &str = "kind";

const FIRST: &str = "a";

const SECOND: &str = "b";

const FIRST_OPTIONS: &str = "a-options";

const SECOND_OPTIONS: &str = "b-options";

const ALLOW: &str = "allow";

const EACH: &str = "hex";

static KINDS: [&str; 2] = ["tm", "tc"];

// The words of `--allow`.
const ALLOWED: &str = "skip gap dropped opaque foreign rest open early late outside refused stray \
    long tail nothing most options";

// The version of the product. The line that `--version` writes repeats it.
const VERSION: &str = "2.0.0";

// How the program is called. `--scid` may also be given for each recording by itself.
const USAGE: &str = "sllink-compare [OPTIONS] --scid <ID> <KIND> <A> <B>";

// What stands below the options in the help.
const EXAMPLES: &str = "\
Read with a wrong option, any two recordings may seem to have the same packets. So the totals of
each recording come first, and how many lines of each word check has. Words of --allow say that
lines of check do no harm, or that the answer to a question is yes:
  skip gap dropped opaque foreign rest open early late outside refused stray long tail
           lines of check with this word, asked about where no packet differs
  nothing  a recording delivers no packet
  most     more than half of the frames of a recording that delivers packets are skipped
  options  the frames of a recording contradict its options
On a pass with noise and losses --allow skip,gap is usual.

Where packets differ, those that only one recording has are listed by channel, after < for A and
> for B, in runs of the packet sequence count.

Example: one station strips the error control field, and both lost frames:
  sllink-compare tm a.tm b.tm --scid 1 --a-options --tm-fecf \\
    --b-options '--tm-length 1113' --allow skip,gap,dropped

Exit status:
  0  both have the same packets
  1  both have the same packets in another order, or different packets
  2  neither can be said, or the command line or a file is refused
  3  reading or writing failed, a recording is too long, or there was no memory
";

/// What the words ask for; the first word is the program's name.
pub fn parse<'a>(alloc: Global, words: &'a [String]) -> Result<Asked<'a>, Refusal> {
    let mut command = relaxed_command(alloc)?;
    let matches = command.try_get_matches_from_mut(words)?;
    asked_of(alloc, words, &matches)
}

// The program's options. Those of the link, which one recording may have by itself, may be missing.
fn relaxed_command<'a>(alloc: Global) -> Result<Command<'a>, AllocError> {
    let options = optional(alloc, link_options(alloc)?)?;
    with_options(alloc, options)
}

// What the words ask for, by the options that they name.
fn asked_of<'a>(
    alloc: Global,
    words: &'a [String],
    matches: &ArgMatches<'a>,
) -> Result<Asked<'a>, Refusal> {
    let allowed = allowed_of(alloc, matches)?;
    let first = managed_with(alloc, words, FIRST_OPTIONS, matches.get_str(FIRST_OPTIONS))?;
    let second = managed_with(
        alloc,
        words,
        SECOND_OPTIONS,
        matches.get_str(SECOND_OPTIONS),
    )?;
    Ok(Asked {
        first: matches.get_str(FIRST).unwrap_or(""),
        second: matches.get_str(SECOND).unwrap_or(""),
        comparison: Comparison {
            kind: kind_named(matches.get_str(KIND).unwrap_or("")),
            first,
            second,
            allowed,
            each: matches.get_flag(EACH),
        },
    })
}

// The program's options, with these of the link.
fn with_options<'a>(alloc: Global, options: Vec<Arg<'a>>) -> Result<Command<'a>, AllocError> {
    let command = compare_command(alloc)?.args(options)?;
    command.args(own_options(alloc)?)
}

// The program, with its kind and its files.
fn compare_command<'a>(alloc: Global) -> Result<Command<'a>, AllocError> {
    let command = Command::new(alloc, "sllink-compare")
        .about("Say which packets only one of two recordings has")
        .version(VERSION)
        .override_usage(USAGE)
        .after_help(EXAMPLES);
    let command = command.arg(kind(alloc))?;
    let command = command.arg(file(alloc, FIRST, "A", "File with the first recording"))?;
    command.arg(file(alloc, SECOND, "B", "File with the second recording"))
}

// The kind of the frames.
fn kind<'a>(alloc: Global) -> Arg<'a> {
    Arg::new(alloc, KIND)
        .value_name("KIND")
        .help("Transfer frames of the recordings: TM, the way down, or TC, the way up")
        .value_parser(KINDS.as_slice())
        .required(true)
}

// A file. Its name may begin like an option: then it is refused later.
fn file<'a>(alloc: Global, name: &'a str, shown: &'a str, help: &'a str) -> Arg<'a> {
    Arg::new(alloc, name)
        .value_name(shown)
        .help(help)
        .allow_hyphen_values(true)
        .required(true)
}

fn own_options<'a>(alloc: Global) -> Result<Vec<Arg<'a>>, AllocError> {
    let help = "Options of the link for A alone, cut at spaces";
    let first = text_option(alloc, FIRST_OPTIONS, "TEXT", help);
    let help = "Options of the link for B alone, cut at spaces";
    let second = text_option(alloc, SECOND_OPTIONS, "TEXT", help);
    let help = "Words of lines of check that do no harm, and answers to questions";
    let allow = text_option(alloc, ALLOW, "WORD,..", help).action(ArgAction::Append);
    let each = Arg::new(alloc, EACH)
        .long(EACH)
        .help("List each packet that only one recording has")
        .action(ArgAction::SetTrue);
    Ok(vec![in alloc; first, second, allow, each]?)
}

// An option whose value may begin like an option.
fn text_option<'a>(alloc: Global, name: &'a str, unit: &'a str, help: &'a str) -> Arg<'a> {
    Arg::new(alloc, name)
        .long(name)
        .value_name(unit)
        .help(help)
        .allow_hyphen_values(true)
}

// These options, none of which is required.
fn optional<'a>(alloc: Global, options: Vec<Arg<'a>>) -> Result<Vec<Arg<'a>>, AllocError> {
    let mut optional = Vec::new(alloc);
    for option in options {
        optional.push(option.required(false))?;
    }
    Ok(optional)
}

// The recording whose options are those of the command line, and with them the text of the option
// of this name.
fn managed_with<'w>(
    alloc: Global,
    words: &'w [String],
    name: &'static str,
    text: Option<&'w str>,
) -> Result<Managed, Refusal> {
    let own: Vec<&str> = text.unwrap_or("").split_whitespace().collect(alloc)?;
    require_options(alloc, name, own.as_slice())?;
    let words = with_own(alloc, words, own.as_slice())?;
    managed_by(alloc, words.as_slice())
}

// The recording whose options these words name.
fn managed_by<'w>(alloc: Global, words: &'w [&'w str]) -> Result<Managed, Refusal> {
    let mut command = with_options(alloc, link_options(alloc)?)?;
    let matches = command.try_get_matches_from_mut(words)?;
    managed_of_options(&matches).map_err(Refusal::Managed)
}

// All words, with a recording's own options before the others. There they are options even where
// a word `--` follows.
fn with_own<'w>(
    alloc: Global,
    words: &'w [String],
    own: &[&'w str],
) -> Result<Vec<&'w str>, AllocError> {
    let mut all = Vec::new(alloc);
    for word in words.iter().take(1) {
        all.push(word.as_str())?;
    }
    for word in own {
        all.push(*word)?;
    }
    for word in words.iter().skip(1) {
        all.push(word.as_str())?;
    }
    Ok(all)
}

// Refuses words that aren't options of the link, each with its value.
fn require_options<'w>(
    alloc: Global,
    name: &'static str,
    own: &'w [&'w str],
) -> Result<(), Refusal> {
    if own.iter().any(|word| *word == "--") {
        let line = String::from_str(alloc, "unexpected argument '--' found")?;
        return Err(Refusal::Text(name, line));
    }
    let mut command = options_command(alloc)?;
    match command.try_get_matches_from_mut(own) {
        Ok(_) => Ok(()),
        Err(error) => Err(refusal_of(alloc, name, error)),
    }
}

// A command that has the options of the link alone.
fn options_command<'a>(alloc: Global) -> Result<Command<'a>, AllocError> {
    let options = optional(alloc, link_options(alloc)?)?;
    Command::new(alloc, "sllink-compare")
        .no_binary_name(true)
        .disable_help_flag(true)
        .args(options)
}

// Why the text of the option of this name is refused.
fn refusal_of(alloc: Global, name: &'static str, error: clap::Error) -> Refusal {
    if error.kind() == ErrorKind::OutOfMemory {
        return Refusal::Words(error);
    }
    match first_line(alloc, &error) {
        Ok(line) => Refusal::Text(name, line),
        Err(refused) => Refusal::from(refused),
    }
}

// The first line of what a refusal says.
fn first_line(alloc: Global, error: &clap::Error) -> Result<String, AllocError> {
    let text = format!(in alloc; "{error}")?;
    let line = text.as_str().lines().next().unwrap_or("");
    String::from_str(alloc, line.strip_prefix("error: ").unwrap_or(line))
}

// What `--allow` names.
fn allowed_of(alloc: Global, matches: &ArgMatches<'_>) -> Result<Allowed, Refusal> {
    let mut allowed = Allowed {
        lines: [false; 14],
        options: false,
        nothing: false,
        most: false,
    };
    for words in matches.get_strs(ALLOW).unwrap_or(&[]) {
        for word in words.split(',') {
            let word = word.trim();
            allowed = match allowed_with(allowed, word) {
                Some(allowed) => allowed,
                None => return Err(Refusal::Allow(String::from_str(alloc, word)?)),
            };
        }
    }
    Ok(allowed)
}

/// What is allowed with a word of `--allow` more, if it is one. An empty word adds nothing.
pub fn allowed_with(allowed: Allowed, word: &str) -> Option<Allowed>
    ensures { result ≡ allowed_with word.now allowed }
{
    if word == "" {
        Some(allowed)
    } else if word == "options" {
        Some(Allowed {
            options: true,
            ..allowed
        })
    } else if word == "nothing" {
        Some(Allowed {
            nothing: true,
            ..allowed
        })
    } else if word == "most" {
        Some(Allowed {
            most: true,
            ..allowed
        })
    } else {
        match place_of(word) {
            Some(place) => Some(with_lines(allowed, place)),
            None => None,
        }
    }
}

// A word of `check` is allowed too.
fn with_lines(allowed: Allowed, place: usize) -> Allowed
    requires { place < 14 }
    ensures { result ≡ with_lines allowed place }
{
    let mut lines = allowed.lines;
    lines[place] = true;
    Allowed { lines, ..allowed }
}

// The place of a word of `check` in [`WORDS`], if it is one.
fn place_of(word: &str) -> Option<usize>
    ensures place { result ≡ place_of word.now }
    ensures inside { IfSome result (λ place. place < 14) }
{
    for place in 0..14 {
        if text_of(WORDS[place]) == word {
            return Some(place);
        }
    }
    None
}

/// The kind of this name. Words with another name than `tm` or `tc` are refused.
pub fn kind_named(name: &str) -> RecordingKind
    ensures { result ≡ kind_named name.now }
{
    if name == "tm" {
        RecordingKind::Tm
    } else {
        RecordingKind::Tc
    }
}
