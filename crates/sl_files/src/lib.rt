//! Files that can be read, and how their names, and why words are refused, stand in a line.
#![tactic(auto)]

ghost use Rattle.sl_files.specs.Line.{IsLineOf, ends_reason, one_line};
ghost use Rattle.sl_files.specs.Shown.{is_printable, shown, shown_letter};
ghost use Rattle.std.specs.Prelude.{Err, IfOk, IsTrue, OnOk, codes, nat_eq, string_bytes, ◌++◌, ◌≡◌};
ghost use Rattle.std.specs.List.{starts_with};

use std::alloc::{AllocError, Global};
use std::fmt::Display;
use std::fs::{File, metadata};
use std::io;
use std::io::{ErrorKind, Read};
use thiserror::Error;

/// Why a file isn't read.
#[derive(Debug, Drop, Error)]
pub enum Unreadable<'a> {
    /// Its name begins like an option.
    #[error("is no option; a recording of this name is ./{0}")]
    Option(&'a str),
    /// There is none of this name.
    #[error("there is no such file")]
    Missing,
    /// It is a folder.
    #[error("is a folder")]
    Folder,
    /// It is a pipe, a device or something else that is no file.
    #[error("is no file that can be read more than once")]
    NoFile,
    /// It has octets and no size.
    #[error("is no file with a size, but one of the system")]
    System,
    /// The system doesn't let it be read.
    #[error("can't be read: {0}")]
    Denied(ErrorKind),
}

impl<'a> From<io::Error> for Unreadable<'a> {
    fn from(error: io::Error) -> Unreadable<'a> {
        match error.kind() {
            ErrorKind::NotFound => Unreadable::Missing,
            kind => Unreadable::Denied(kind),
        }
    }
}

// Characters that can't be printed, in ranges: control characters, white space but the space,
// characters of format, for private use, and those that are none.
static UNPRINTABLE: [(char, char); 29] = [
    ('\0', '\x1f'),
    ('\x7f', '\u{a0}'),
    ('\u{ad}', '\u{ad}'),
    ('\u{600}', '\u{605}'),
    ('\u{61c}', '\u{61c}'),
    ('\u{6dd}', '\u{6dd}'),
    ('\u{70f}', '\u{70f}'),
    ('\u{890}', '\u{891}'),
    ('\u{8e2}', '\u{8e2}'),
    ('\u{1680}', '\u{1680}'),
    ('\u{180e}', '\u{180e}'),
    ('\u{2000}', '\u{200f}'),
    ('\u{2028}', '\u{202f}'),
    ('\u{205f}', '\u{206f}'),
    ('\u{3000}', '\u{3000}'),
    ('\u{e000}', '\u{f8ff}'),
    ('\u{fdd0}', '\u{fdef}'),
    ('\u{feff}', '\u{feff}'),
    ('\u{fff0}', '\u{fffb}'),
    ('\u{fffe}', '\u{ffff}'),
    ('\u{110bd}', '\u{110bd}'),
    ('\u{110cd}', '\u{110cd}'),
    ('\u{13430}', '\u{1343f}'),
    ('\u{1bca0}', '\u{1bca3}'),
    ('\u{1d173}', '\u{1d17a}'),
    ('\u{1fffe}', '\u{1ffff}'),
    ('\u{2fffe}', '\u{2ffff}'),
    ('\u{323b0}', '\u{e00ff}'),
    ('\u{e01f0}', '\u{10ffff}'),
];

/// Opens a file of this name that has a size; `shown` is the name as it stands in a line. No clause
/// says which files are refused: the kit's contracts tell nothing of files.
pub fn open_file<'a>(rt: &HostRuntime, name: &str, shown: &'a str) -> Result<File, Unreadable<'a>>
    // A name that begins like an option is refused.
    ensures option { IsTrue (starts_with nat_eq name.now (codes "-"))
        → result ≡ Err (Unreadable.Option shown.entry) }
{
    if name.starts_with("-") {
        return Err(Unreadable::Option(shown));
    }
    let found = metadata(rt, name)?;
    if found.is_dir() {
        return Err(Unreadable::Folder);
    }
    if !found.is_file() {
        return Err(Unreadable::NoFile);
    }
    if found.len() == 0 && has_octets(rt, name) {
        return Err(Unreadable::System);
    }
    Ok(File::open(rt, name)?)
}

// Whether an octet can be read from a file of this name.
fn has_octets(rt: &HostRuntime, name: &str) -> bool {
    match File::open(rt, name) {
        Ok(mut file) => matches!(file.read(&mut [0; 1]), Ok(1)),
        Err(_) => false,
    }
}

/// A name as it stands in a line: characters that can't be printed are escaped, and an empty name
/// is `''`.
pub fn shown(alloc: Global, name: &str) -> Result<String, AllocError>
    ensures { IfOk result (λ text. string_bytes text ≡ shown name.now) }
{
    if name.is_empty() {
        return "''".to_string(alloc);
    }
    let mut text = String::new(alloc);
    for letter in name.chars() {
        push_shown(&mut text, letter)?;
    }
    Ok(text)
}

// Appends a character as it stands in a line.
fn push_shown(text: &mut String, letter: char) -> Result<(), AllocError>
    ensures { OnOk result (string_bytes text.new ≡ string_bytes text.old ++ shown_letter letter) }
{
    if is_printable(letter) {
        return text.push(letter);
    }
    let code = u32::from(letter);
    match letter {
        '\n' => text.push_str("\\n"),
        '\r' => text.push_str("\\r"),
        '\t' => text.push_str("\\t"),
        '\0'..='\u{ff}' => write!(text, "\\x{code:02x}"),
        '\u{100}'..='\u{ffff}' => write!(text, "\\u{code:04x}"),
        _ => write!(text, "\\U{code:08x}"),
    }
}

// Whether a character can be printed.
fn is_printable(letter: char) -> bool
    ensures { result ≡ is_printable letter }
{
    !UNPRINTABLE
        .iter()
        .any(|(first, last)| *first <= letter && letter <= *last)
}

/// Why words are refused, in one line: without their usage and the hint at the help, which follow in
/// what clap says. A semicolon stands for blank lines
/// between its parts.
pub fn one_line<D: Display>(alloc: Global, refusal: &D) -> Result<String, AllocError>
    ensures { IfOk result (λ line. IsLineOf (D.output refusal.now) (string_bytes line)) }
{
    line_of(alloc, refusal.to_string(alloc)?.as_str())
}

// The reason that a text gives, in one line.
fn line_of(alloc: Global, text: &str) -> Result<String, AllocError>
    ensures { IfOk result (λ reason. string_bytes reason ≡ one_line text.now) }
{
    let mut reason = String::new(alloc);
    let mut before = "";
    for line in text.lines() {
        let line = line.trim();
        if ends_reason(line) {
            break;
        }
        if line.is_empty() {
            if !before.is_empty() {
                before = "; ";
            }
        } else {
            reason.push_str(before)?;
            reason.push_str(line)?;
            before = " ";
        }
    }
    Ok(reason)
}

// Whether what follows the reason begins with this line.
fn ends_reason(line: &str) -> bool
    ensures { result ≡ ends_reason line.now }
{
    line.starts_with("Usage:") || line.starts_with("For more information")
}
