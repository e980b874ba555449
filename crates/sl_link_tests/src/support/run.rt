//! Runs of the program over words and streams in memory.
use super::engines::ALL;
use super::recordings::octets;
use super::rows::Stop;
use super::streams::{InPieces, Unreadable, Unwritable};
use sl_link::{Counted, run};
use std::alloc::{AllocError, Global};
use std::io::{Read, Write};

// The words of a command line.
fn words(alloc: Global, line: &str) -> Result<Vec<String>, AllocError> {
    let mut words = Vec::new(alloc);
    for word in line.split_whitespace() {
        words.push(String::from_str(alloc, word)?)?;
    }
    Ok(words)
}

pub fn text(octets: &[u8]) -> &str {
    std::str::from_utf8(octets).unwrap_or("no text")
}

/// What a run answers, and what it says.
#[derive(Drop)]
pub struct ProgramRun {
    pub status: u8,
    pub output: Vec<u8>,
    pub errors: Vec<u8>,
}

impl ProgramRun {
    /// Of a run over a recording.
    pub fn of(alloc: Global, line: &str, recording: &[u8]) -> Result<ProgramRun, AllocError> {
        ProgramRun::with(alloc, line, recording, ALL)
    }

    /// The same with streams that give and take at most this number of octets at a time.
    pub fn with(
        alloc: Global,
        line: &str,
        recording: &[u8],
        most: usize,
    ) -> Result<ProgramRun, AllocError> {
        let mut errors = Vec::new(alloc);
        let reader = InPieces(recording, most);
        let writer = InPieces(Vec::new(alloc), most);
        let (status, _, output) = ended(alloc, line, reader, writer, &mut errors)?;
        Ok(ProgramRun {
            status,
            output: output.0,
            errors,
        })
    }

    /// Of a run that reads nothing: a read would be a fault.
    pub fn unread(alloc: Global, line: &str) -> Result<ProgramRun, AllocError> {
        let mut errors = Vec::new(alloc);
        let (status, _, output) = ended(alloc, line, Unreadable, Vec::new(alloc), &mut errors)?;
        Ok(ProgramRun {
            status,
            output,
            errors,
        })
    }

    /// Whether a run ends with this status and says this.
    pub fn says(&self, status: u8, errors: &str) -> bool {
        self.status == status && text(self.errors.as_slice()) == errors
    }

    /// What was written, as text.
    pub fn text(&self) -> &str {
        text(self.output.as_slice())
    }
}

/// The status of a run with these streams, how many faults the writer had, and the writer.
pub fn ended<R: Read + Drop, W: Write + Drop, E: Write>(
    alloc: Global,
    line: &str,
    reader: R,
    writer: W,
    errors: &mut E,
) -> Result<(u8, u64, W), AllocError> {
    let words = words(alloc, line)?;
    let mut reader = Counted::new(reader);
    let mut writer = Counted::new(writer);
    let status = run(alloc, words.as_slice(), &mut reader, &mut writer, errors);
    let faults = writer.faults();
    Ok((status, faults, writer.into_inner()))
}

/// Whether a run ends with this status and says this; the writer's number of faults; the writer.
pub fn ends<R: Read + Drop, W: Write + Drop>(
    alloc: Global,
    line: &str,
    (reader, writer): (R, W),
    (status, said): (u8, &str),
) -> Result<(bool, u64, W), AllocError> {
    let mut errors = Vec::new(alloc);
    let (found, faults, writer) = ended(alloc, line, reader, writer, &mut errors)?;
    let is_so = found == status && text(errors.as_slice()) == said;
    Ok((is_so, faults, writer))
}

/// Whether a run says this, refuses its words or parameters, and neither reads nor writes.
pub fn refuses(alloc: Global, line: &str, said: &str) -> Result<bool, AllocError> {
    let (is_so, faults, _) = ends(alloc, line, (Unreadable, Unwritable), (2, said))?;
    Ok(is_so && faults == 0)
}

/// Whether a run over a recording ends with this status, says nothing and writes this, where its
/// streams give and take at most this number of octets at a time.
pub fn writes(
    alloc: Global,
    line: &str,
    recording: &[u8],
    most: usize,
    (status, output): (u8, &[u8]),
) -> Result<bool, AllocError> {
    let outcome = ProgramRun::with(alloc, line, recording, most)?;
    Ok(outcome.says(status, "") && outcome.output.as_slice() == output)
}

/// Whether a run over a recording ends with this status, says nothing and writes this text, all at
/// once and octet by octet.
pub fn lists(
    alloc: Global,
    line: &str,
    parts: &[&str],
    status: u8,
    listing: &str,
) -> Result<bool, Stop> {
    let recording = octets(alloc, parts)?;
    let wanted = (status, listing.as_bytes());
    let is_whole = writes(alloc, line, &recording, ALL, wanted)?;
    Ok(is_whole && writes(alloc, line, &recording, 1, wanted)?)
}

/// Whether a run over a recording writes this normal form, all at once and octet by octet; the form
/// is its own.
pub fn normalises(alloc: Global, line: &str, parts: &[&str], form: &[&str]) -> Result<bool, Stop> {
    let recording = octets(alloc, parts)?;
    let form = octets(alloc, form)?;
    let wanted = (0, form.as_slice());
    let is_form = writes(alloc, line, &recording, ALL, wanted)?;
    let is_form_in_pieces = writes(alloc, line, &recording, 1, wanted)?;
    Ok(is_form && is_form_in_pieces && writes(alloc, line, &form, ALL, wanted)?)
}
