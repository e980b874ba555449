//! Recordings that come a frame at a time: the lines of a frame are written before more is read.
use super::support::engines::{Kind, Link, Verb};
use super::support::recordings::{TC_BYPASSING, TM_FRAME};
use super::support::rows::{Stop, passes};
use std::alloc::Global;
use std::cell::Cell;
use std::io::{Read, Result as IoResult, Write};

// How often the frame comes.
const FRAMES: usize = 3;

// Gives a frame at each call, and looks first whether each frame before it has its line.
#[derive(Drop)]
struct Live<'a> {
    frame: &'a [u8],
    given: usize,
    lines: &'a Cell<usize>,
    is_late: &'a Cell<bool>,
}

impl<'a> Read for Live<'a> {
    fn read(&mut self, octets: &mut [u8]) -> IoResult<usize> {
        if self.lines.get() != self.given {
            self.is_late.set(true);
        }
        if self.given >= FRAMES {
            return Ok(0);
        }
        let taken = self.frame.len().min(octets.len());
        octets[..taken].copy_from_slice(&self.frame[..taken]);
        self.given += 1;
        Ok(taken)
    }
}

// Counts the lines that are written.
#[derive(Drop)]
struct Screen<'a> {
    lines: &'a Cell<usize>,
}

impl<'a> Write for Screen<'a> {
    fn write(&mut self, octets: &[u8]) -> IoResult<usize> {
        let mut lines = self.lines.get();
        for octet in octets {
            if *octet == b'\n' {
                lines = lines.wrapping_add(1);
            }
        }
        self.lines.set(lines);
        Ok(octets.len())
    }

    fn flush(&mut self) -> IoResult<()> {
        Ok(())
    }
}

// Frames of another spacecraft, which `check` skips.
const OTHER: [u8; 32] = [
    0x00, 0x20, 0, 0, 0, 0, 0, 0, 0, 0, 0, 0, 0, 0, 0, 0, //
    0, 0, 0, 0, 0, 0, 0, 0, 0, 0, 0, 0, 0, 0, 0, 0,
];

const OTHER_TC: [u8; 6] = [0x00, 0x02, 0x00, 0x05, 0x00, 0xC0];

// Frames, the listings of them, and how many lines these have.
const LISTINGS: [(Kind, Verb, u16, &[u8], usize); 6] = [
    (Kind::Tm, Verb::Show, 32, &TM_FRAME, FRAMES),
    (Kind::Tm, Verb::Check, 32, &OTHER, FRAMES + 1),
    (Kind::Tm, Verb::Packets, 32, &TM_FRAME, FRAMES),
    (Kind::Tc, Verb::Show, 16, &TC_BYPASSING, FRAMES),
    (Kind::Tc, Verb::Check, 16, &OTHER_TC, FRAMES + 1),
    (Kind::Tc, Verb::Packets, 16, &TC_BYPASSING, FRAMES),
];

// Whether a listing has a line for each frame before more was read.
fn is_live(
    alloc: Global,
    (kind, verb): (Kind, Verb),
    length: u16,
    frame: &[u8],
    all: usize,
) -> Result<bool, Stop> {
    let link = Link::new(kind, length, false, 0, 1000)?;
    let lines = Cell::new(0);
    let is_late = Cell::new(false);
    let reader = Live {
        frame,
        given: 0,
        lines: &lines,
        is_late: &is_late,
    };
    let ending = link.end(alloc, verb, reader, Screen { lines: &lines });
    ending.outcome?;
    Ok(!is_late.get() && lines.get() == all)
}

#[test]
fn a_line_is_written_before_more_is_read(rt: HostRuntime) {
    for (kind, verb, length, frame, all) in &LISTINGS {
        let outcome = is_live(rt.alloc(), (*kind, *verb), *length, frame, *all);
        passes(&rt, &(kind, verb), outcome);
    }
}
