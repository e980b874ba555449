//! The command line.
ghost use Rattle.std.specs.Prelude.{◌≡◌, ◌⊎◌, false, map, option_map, string_bytes, IfOk, IfErr};
ghost use Rattle.clap.specs.Words.{app_of, found_of, kind_of, new_app, rows_of, rule_of, with_subcommand};
ghost use Rattle.clap.specs.declared.builder.Command.TheViews.{out-Command as fields_of};
ghost use Rattle.sl_engine.specs.Link.Managed.{managed_of};
ghost use Rattle.sl_link.specs.Program.CommandLine.{AreFrom, AskFor, Asks, Gives, IsPlain, IsRefusal, IsSllink, flag_rule};
ghost use Rattle.sl_link.specs.Program.CommandLine.{is_set, kind_named, link_options, needed, number_in};
ghost use Rattle.sl_link.specs.Program.CommandLine.{parameters_in, text_rule, top_app, verb_named, with_arguments};
ghost use Rattle.sl_link.specs.Program.CommandLine.{with_default, with_link_options, with_numbers, with_vcs};

use clap::builder::ValueParser;
use clap::error::ErrorKind;
use clap::{Arg, ArgAction, ArgMatches, Command, value_parser};
use sl_cop::Starts;
use sl_engine::{Managed, ManagedFault, RecordingKind, VerbName};
use sl_tcframe::VcSet;
use std::alloc::{AllocError, Global};
use thiserror::Error;

/// What a command line asks for.
#[derive(Clone, Copy)]
pub struct Asked {
    pub verb: VerbName,
    pub kind: RecordingKind,
    /// The managed parameters of the link, or the first of them that is refused.
    pub managed: Result<Managed, RefusedParameter>,
}

/// Which parameter of the link is refused.
#[derive(Clone, Copy, Debug, PartialEq, Eq, Error)]
pub enum RefusedParameter {
    /// A managed parameter.
    #[error("{0}")]
    Managed(ManagedFault),
    /// The text of the virtual channels without segment headers.
    #[error("plain")]
    Plain,
    /// The text of the initial V(R).
    #[error("start")]
    Start,
}

const KIND: &str = "kind";

const SPACECRAFT: &str = "scid";

const TM_LENGTH: &str = "tm-length";

const TC_LENGTH: &str = "tc-length";

const TM_FECF: &str = "tm-fecf";

const TC_FECF: &str = "tc-fecf";

const WINDOW: &str = "window";

const VR: &str = "vr";

const VR_OF: &str = "vr-of";

const PLAIN: &str = "plain";

const LIMIT: &str = "limit";

// The kinds of recording. In clauses what is lent has an address, and `IsSllink` wants the same
// addresses in all four verbs. So this is a `static`, which has one, and `sllink` lends it once.
static KINDS: [&str; 2] = ["tm", "tc"];

// The version of the product. The line that `--version` writes repeats it.
const VERSION: &str = "2.0.0";

// What stands below the options in the help of the program, and in that of each verb.

const VERBS: &str = "\
Each verb has its options and an example in its own help, as in:
  sllink show --help";

const SHOW_EXAMPLE: &str = "\
Example:
  sllink show tm --scid 1 --tm-length 64 < examples/pass.tm";

const CHECK_EXAMPLE: &str = "\
Example:
  sllink check tm --scid 1 --tm-length 32 --tm-fecf < examples/first-station.tm";

const PACKETS_EXAMPLE: &str = "\
Example:
  sllink packets tc --scid 1 --tc-length 16 < examples/uplink.tc";

const NORMALISE_EXAMPLE: &str = "\
Example:
  sllink normalise tm --scid 1 --tm-length 32 --tm-fecf < examples/first-station.tm > first.normal";

/// What the words ask for; the first word is the program's name. The error says why they are
/// refused, or that they ask for help or the version, or that memory was refused.
pub fn parse(alloc: Global, words: &[String]) -> Result<Asked, clap::Error>
    ensures asked { IfOk result (AskFor (map string_bytes words.now)) }
    // The kind of the error is one of the refusals, unless memory ran out.
    ensures refused { IfErr result (λ error. (kind_of error ≡ ErrorKind.OutOfMemory)
        ⊎ IsRefusal (kind_of error) (map string_bytes words.now)) }
{
    let mut command = sllink(alloc)?;
    let matches = command.try_get_matches_from_mut(words)?;
    match matches.subcommand() {
        Some((verb, found)) => Ok(asked_of(verb, found)),
        // The parse has refused words without a verb.
        None => unreachable!(),
    }
}

fn sllink<'a>(alloc: Global) -> Result<Command<'a>, AllocError>
    ensures { IfOk result (λ command. IsSllink (app_of command)) }
{
    let kinds = &KINDS;
    let command = without_verbs(alloc);
    let about = "List the frames of a recording";
    let verb = bare_verb(alloc, "show", about, SHOW_EXAMPLE);
    let command = with_verb(alloc, command, verb, kinds)?;
    let about = "List the anomalies of a recording";
    let verb = bare_verb(alloc, "check", about, CHECK_EXAMPLE);
    let command = with_verb(alloc, command, verb, kinds)?;
    let about = "List the packets of a recording";
    let verb = bare_verb(alloc, "packets", about, PACKETS_EXAMPLE);
    let command = with_verb(alloc, command, verb, kinds)?;
    let about = "Write the normal form of a recording";
    let verb = bare_verb(alloc, "normalise", about, NORMALISE_EXAMPLE);
    with_verb(alloc, command, verb, kinds)
}

// `sllink` before its verbs are added.
fn without_verbs<'a>(alloc: Global) -> Command<'a>
    ensures { app_of result ≡ top_app }
{
    Command::new(alloc, "sllink")
        .about("Read recordings of a spacecraft's link")
        .version(VERSION)
        .after_help(VERBS)
        .subcommand_required(true)
}

// A verb before it has arguments, with what its help says. It has no global arguments, those that
// a command's subcommands take too: what `clap` says of parsed words wants that.
fn bare_verb<'a>(alloc: Global, name: &'a str, about: &'a str, example: &'a str) -> Command<'a>
    ensures app { app_of result ≡ new_app name.entry.now }
    ensures local { (fields_of result).has_globals ≡ false }
{
    Command::new(alloc, name).about(about).after_help(example)
}

// The command with one verb more.
fn with_verb<'a>(
    alloc: Global,
    command: Command<'a>,
    verb: Command<'a>,
    kinds: &'a [&'a str],
) -> Result<Command<'a>, AllocError>
    requires { (fields_of verb).has_globals ≡ false }
    ensures { IfOk result (λ with. app_of with ≡ with_subcommand (app_of command.entry)
        (with_arguments (app_of verb.entry) kinds.entry).top) }
{
    command.subcommand(with_arguments(alloc, verb, kinds)?)
}

// A verb, with the kinds of recording that it takes and the options of the link.
fn with_arguments<'a>(
    alloc: Global,
    verb: Command<'a>,
    kinds: &'a [&'a str],
) -> Result<Command<'a>, AllocError>
    ensures app { IfOk result (λ command.
        app_of command ≡ with_arguments (app_of verb.entry) kinds.entry) }
    ensures local { IfOk result (λ command.
        (fields_of command).has_globals ≡ (fields_of verb.entry).has_globals) }
{
    let kind = Arg::new(alloc, KIND)
        .value_name("KIND")
        .help("Transfer frames of the recording: TM, the way down, or TC, the way up")
        .value_parser(kinds)
        .required(true);
    with_options(alloc, verb.arg(kind)?)
}

// A command, with the options of the link too.
fn with_options<'a>(alloc: Global, verb: Command<'a>) -> Result<Command<'a>, AllocError>
    ensures app { IfOk result (λ command. app_of command ≡ with_link_options (app_of verb.entry)) }
    ensures local { IfOk result (λ command.
        (fields_of command).has_globals ≡ (fields_of verb.entry).has_globals) }
{
    verb.args(link_options(alloc)?)
}

/// The options of a link, which `sllink` takes with each verb.
pub fn link_options<'a>(alloc: Global) -> Result<Vec<Arg<'a>>, AllocError>
    ensures { IfOk result (λ options. map rule_of options.items ≡ link_options) }
{
    let byte = value_parser!(u8);
    let short = value_parser!(u16);
    let long = value_parser!(u64);
    let help = "Spacecraft identifier, in decimal, 0 to 1023";
    let scid = needed_number(text(alloc, SPACECRAFT, "ID", help), short);
    let help = "Length of each TM frame in octets, 32 to 2048";
    let tm_length = number_or(text(alloc, TM_LENGTH, "OCTETS", help), short, "1115");
    let help = "Greatest length of a TC frame in octets, 16 to 1024";
    let tc_length = number_or(text(alloc, TC_LENGTH, "OCTETS", help), short, "1024");
    let tm_fecf = flag_option(alloc, TM_FECF, "TM frames have a frame error control field");
    let tc_fecf = flag_option(alloc, TC_FECF, "TC frames have a frame error control field");
    let help = "Width of the FARM-1 sliding window in frames, even, 2 to 254";
    let window = number_or(text(alloc, WINDOW, "WIDTH", help), byte, "10");
    let help = "V(R) with which each FARM-1 begins, 0 to 255";
    let vr = number_or(text(alloc, VR, "NUMBER", help), byte, "0");
    let help = "Initial V(R), 0 to 255, of these virtual channels, 0 to 63 in rising order";
    let vr_of = text(alloc, VR_OF, "VC:NUMBER,..", help);
    let help = "Virtual channels whose TC frames have no segment headers, 0 to 63 in rising order";
    let plain = text(alloc, PLAIN, "VC,..", help);
    let help = "Octets read at most, 1 to 18446744073709551615";
    let limit = number_or(text(alloc, LIMIT, "OCTETS", help), long, "1073741824");
    Ok(vec![in alloc;
        scid, tm_length, tc_length, tm_fecf, tc_fecf, window, vr, vr_of, plain, limit,
    ]?)
}

// An option that takes a text, and may be left out.
fn text<'a>(alloc: Global, name: &'a str, unit: &'a str, help: &'a str) -> Arg<'a>
    ensures { rule_of result ≡ text_rule name.entry.now }
{
    Arg::new(alloc, name).long(name).value_name(unit).help(help)
}

// This option, with a number as its value. No command line may leave it out.
fn needed_number<'a>(option: Arg<'a>, range: ValueParser<'a>) -> Arg<'a>
    ensures { rule_of result ≡ needed (with_numbers (rule_of option.entry) range.entry) }
{
    numeric(option, range).required(true)
}

// This option, with a number as its value, and this number where it is left out.
fn number_or<'a>(option: Arg<'a>, range: ValueParser<'a>, default: &'a str) -> Arg<'a>
    ensures { rule_of result
        ≡ with_default (with_numbers (rule_of option.entry) range.entry) default.entry.now }
{
    numeric(option, range).default_value(default)
}

// This option, with a number as its value in place of any text.
fn numeric<'a>(option: Arg<'a>, range: ValueParser<'a>) -> Arg<'a>
    ensures { rule_of result ≡ with_numbers (rule_of option.entry) range.entry }
{
    option.value_parser(range)
}

// An option that takes no value.
fn flag_option<'a>(alloc: Global, name: &'a str, help: &'a str) -> Arg<'a>
    ensures { rule_of result ≡ flag_rule name.entry.now }
{
    Arg::new(alloc, name)
        .long(name)
        .help(help)
        .action(ArgAction::SetTrue)
}

// What a verb with these arguments asks for.
fn asked_of(verb: &str, matches: &ArgMatches<'_>) -> Asked
    ensures { Asks verb.now (rows_of (found_of matches.now)) result }
{
    Asked {
        verb: verb_named(verb),
        kind: kind_named(matches.get_str(KIND)),
        managed: managed_of_options(matches),
    }
}

/// The managed parameters that the options of a link give, or which of them is refused first.
/// `matches` are those of a command that takes [`link_options`]. A number that isn't there counts
/// as 0, and a command with these options leaves none out.
pub fn managed_of_options(matches: &ArgMatches<'_>) -> Result<Managed, RefusedParameter>
    ensures { Gives (rows_of (found_of matches.now)) result }
{
    let vr = number_of_8_bits(matches, VR);
    let plain = plain_of(matches.get_str(PLAIN));
    let starts = initial_vrs(vr, matches.get_str(VR_OF));
    // Those of `managed_in` have the V(R) of `--vr` on each virtual channel, as `Managed::new` wants
    // one. `starts` take its place.
    with_vcs(managed_in(matches), plain, starts)
}

// The verb of this name. Words with a verb that is none of the four are refused, so the last one
// is `normalise`.
fn verb_named(verb: &str) -> VerbName
    ensures { result ≡ verb_named verb.now }
{
    match verb {
        "show" => VerbName::Show,
        "check" => VerbName::Check,
        "packets" => VerbName::Packets,
        _ => VerbName::Normalise,
    }
}

// The kind of this name. Words without a kind, or with one that is neither, are refused, so the
// other one is `tc`.
fn kind_named(kind: Option<&str>) -> RecordingKind
    ensures { result ≡ kind_named (option_map (λ t. t.now) kind.entry) }
{
    match kind {
        Some("tm") => RecordingKind::Tm,
        _ => RecordingKind::Tc,
    }
}

// The managed parameters, or the first that is refused, as if the options named no virtual channel.
fn managed_in(matches: &ArgMatches<'_>) -> Result<Managed, ManagedFault>
    ensures { result ≡ managed_of (parameters_in (rows_of (found_of matches.now))) }
{
    Managed::new(
        number_of_16_bits(matches, SPACECRAFT),
        number_of_16_bits(matches, TM_LENGTH),
        is_set(matches, TM_FECF),
        number_of_16_bits(matches, TC_LENGTH),
        is_set(matches, TC_FECF),
        number_of_8_bits(matches, WINDOW),
        number_of_8_bits(matches, VR),
        number_of_64_bits(matches, LIMIT),
    )
}

// The virtual channels without segment headers, or `None` where their text is refused.
fn plain_of(text: Option<&str>) -> Option<VcSet>
    ensures { IsPlain (option_map (λ t. t.now) text.entry) result }
{
    match text {
        Some(text) => VcSet::read(text),
        None => Some(VcSet::new()),
    }
}

// The initial V(R) of each virtual channel, `vr` where none is named, or `None` where their text is
// refused.
fn initial_vrs(vr: u8, text: Option<&str>) -> Option<Starts>
    ensures { AreFrom vr (option_map (λ t. t.now) text.entry) result }
{
    let all = Starts::all(vr);
    match text {
        Some(text) => all.read(text),
        None => Some(all),
    }
}

// These parameters with what the options say of virtual channels, or the first that is refused.
fn with_vcs(
    managed: Result<Managed, ManagedFault>,
    plain: Option<VcSet>,
    starts: Option<Starts>,
) -> Result<Managed, RefusedParameter>
    ensures { result ≡ with_vcs managed plain starts }
{
    match (managed, plain, starts) {
        (Err(fault), _, _) => Err(RefusedParameter::Managed(fault)),
        (Ok(_), None, _) => Err(RefusedParameter::Plain),
        (Ok(_), Some(_), None) => Err(RefusedParameter::Start),
        (Ok(managed), Some(plain), Some(starts)) => {
            Ok(managed.with_plain(plain).with_starts(starts))
        }
    }
}

// The number that an option has. Words are refused where it has none.
fn number_of_8_bits(matches: &ArgMatches<'_>, name: &str) -> u8
    ensures { result ≡ number_in 255 name.now (rows_of (found_of matches.now)) }
{
    matches.get_one(name).unwrap_or(0)
}

fn number_of_16_bits(matches: &ArgMatches<'_>, name: &str) -> u16
    ensures { result ≡ number_in 65535 name.now (rows_of (found_of matches.now)) }
{
    matches.get_one(name).unwrap_or(0)
}

fn number_of_64_bits(matches: &ArgMatches<'_>, name: &str) -> u64
    ensures { result ≡ number_in 18446744073709551615 name.now (rows_of (found_of matches.now)) }
{
    matches.get_one(name).unwrap_or(0)
}

// Whether an option that takes no value is there.
fn is_set(matches: &ArgMatches<'_>, name: &str) -> bool
    ensures { result ≡ is_set name.now (rows_of (found_of matches.now)) }
{
    matches.get_one(name).unwrap_or(false)
}
