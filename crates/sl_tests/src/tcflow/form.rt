//! The normal form piece by piece.
use crate::support::packets::{delivered_of, longest};
use crate::support::recordings::{COMMAND, LEAST};
use crate::support::rows::{Stop, holds};
use crate::support::tc::{is_form, shape};
use sl_cop::Starts;
use sl_packet::Delivered;
use sl_tcflow::{PIECE_ROOM, TcForm, fits_tc};
use sl_tcframe::VcSet;
use std::alloc::{AllocError, Global};

// Packets on the first two MAPs of virtual channel 0, and on those of other virtual channels.
const PACKETS: [(u16, &[u8]); 6] = [
    (0, &LEAST),
    (1, &COMMAND),
    (1, &LEAST),
    (64, &COMMAND),
    (4032, &LEAST),
    (4095, &COMMAND),
];

// Octets of the frames of each, of 16 octets at most.
const LENS: [usize; 6] = [13, 16, 13, 16, 13, 16];

// The form in frames of at most 16 octets, with segment headers and the same V(R) everywhere.
fn pieces_of<'d>(fecf: bool, vr: u8, delivered: &'d Delivered) -> Result<TcForm<'d>, Stop> {
    let shape = shape(16, fecf)?;
    let plain = VcSet::new();
    if !fits_tc(&shape, &plain, delivered) {
        return Err(Stop::Absent);
    }
    Ok(TcForm::new(shape, 1, Starts::all(vr), plain, delivered))
}

// Adds the next piece to the form: whether it has this number of octets.
fn add_next(
    alloc: Global,
    pieces: &mut TcForm,
    len: usize,
    form: &mut Vec<u8>,
) -> Result<bool, AllocError> {
    let mut piece = Vec::with_capacity(alloc, PIECE_ROOM)?;
    let is_there = pieces.next(&mut piece)?;
    form.extend_from_slice(&piece)?;
    Ok(is_there && piece.len() == len)
}

// Adds all pieces: whether they have these lengths, and no more come, however often one asks.
fn add_pieces(
    alloc: Global,
    pieces: &mut TcForm,
    lens: &[usize],
    form: &mut Vec<u8>,
) -> Result<bool, AllocError> {
    for len in lens {
        if !add_next(alloc, pieces, *len, form)? {
            return Ok(false);
        }
    }
    Ok(!pieces.next(form)? && !pieces.next(form)?)
}

#[test]
fn pieces_are_the_form(rt: HostRuntime) -> Result<(), Stop> {
    let delivered = delivered_of(rt.alloc(), &PACKETS)?;
    let mut pieces = pieces_of(false, 254, &delivered)?;
    let mut form = Vec::new(rt.alloc());
    let are_all = add_pieces(rt.alloc(), &mut pieces, &LENS, &mut form)?;
    holds(&rt, &LENS, are_all);
    let channels = (&Starts::all(254), &VcSet::new());
    let is_form = is_form(rt.alloc(), (16, false), channels, &PACKETS, &form)?;
    holds(&rt, &PACKETS, is_form);
    Ok(())
}

// A packet of 65,542 octets in frames with room for 8 octets each: the longest piece that there is.
#[test]
fn the_longest_piece_has_room(rt: HostRuntime) -> Result<(), Stop> {
    let longest = longest(rt.alloc())?;
    let delivered = delivered_of(rt.alloc(), &[(0, &longest)])?;
    let mut pieces = pieces_of(true, 0, &delivered)?;
    let mut form = Vec::new(rt.alloc());
    let is_one = add_pieces(rt.alloc(), &mut pieces, &[131_086], &mut form)?;
    holds(&rt, &131_086, is_one);
    Ok(())
}
