//! The frames of two recordings, each with its fate.
ghost use Rattle.std.specs.Prelude.{◌≡◌, ◌<◌, ◌≤◌, [], ◌∷◌, length, map, IfOk, IfSome, MatchOption, OnOk};
ghost use Rattle.sl_tmframe.specs.TmDelimited.{tm_frames_of};
ghost use Rattle.sl_merge.specs.Fates.{fated, fits_both, taken_of};
ghost use Rattle.sl_merge.specs.Merge.{count_of, is_left_out, payload};
ghost use Rattle.sl_merge.specs.Told.{Finds, FindsNone, has_none, seen_of, seen_on, turn_if};

use crate::fate::Fate;
use sl_fields::{TmHeader, back, front, without_fecf};
use sl_tmframe::{TmFrame, TmShape};
use std::alloc::{AllocError, Global};
use std::marker::Model;

/// A frame of one recording or of both, and its fate.
#[derive(Drop)]
pub struct Item<'a> {
    fate: Fate,
    frame: &'a [u8],
}

impl<'a> Model for Item<'a> {
    ghost use Rattle.sl_merge.specs.Fates.{Fated};

    ghost Value = { Fated };

    ghost use Rattle.sl_merge.specs.Told.{fated_of, IsItem};

    ghost view = { fated_of };

    ghost invariant = { IsItem };
}

impl<'a> Item<'a> {
    pub fn new(fate: Fate, frame: &'a [u8]) -> Item<'a>
        requires { 12 ≤ length frame.now }
        ensures { result ≡ fated fate frame.now }
    {
        Item { fate, frame }
    }

    /// The frame with its fate as it is, or with the recordings exchanged.
    pub fn from_side(&self, is_turned: bool) -> Item<'a>
        ensures { result ≡ turn_if is_turned self.now }
    {
        let fate = if is_turned {
            self.fate.turned()
        } else {
            self.fate
        };
        Item {
            fate,
            frame: self.frame,
        }
    }

    /// The fate.
    pub fn fate(&self) -> Fate
        ensures { result ≡ self.now.fate }
    {
        self.fate
    }

    /// Whether the first recording has the frame, and it doesn't stand.
    pub fn is_left_out(&self) -> bool
        ensures { result ≡ is_left_out self.now }
    {
        !self.fate.stands() && self.fate.is_of_first()
    }

    /// The octets of the frame.
    pub fn frame(&self) -> &'a [u8]
        ensures octets { result.now ≡ self.now.frame }
        ensures long { 12 ≤ length result.now }
    {
        self.frame
    }

    /// The virtual channel frame count, 0 to 255.
    pub fn count(&self) -> u8
        ensures { result ≡ count_of self.now.frame }
    {
        let (header, _) = front::<6>(self.frame);
        TmHeader::read(header).vcc()
    }

    /// The octets that follow the frame counts, up to the operational control field, or else the
    /// error control field.
    pub fn payload(&self, shape: &TmShape) -> &'a [u8]
        ensures { result.now ≡ payload shape.now self.now.frame }
    {
        let (header, _) = front::<6>(self.frame);
        let (_, behind) = front::<4>(self.frame);
        let between = without_fecf(shape.fecf(), behind);
        if TmHeader::read(header).control() {
            back::<4>(between).0
        } else {
            between
        }
    }
}

/// A frame with its fate and its virtual channel.
#[derive(Drop)]
pub struct Seen<'a> {
    /// The frame and its fate.
    pub item: Item<'a>,
    /// The virtual channel, 0 to 7, and `None` where the frame is skipped.
    pub vc: Option<u8>,
}

/// The frames that a list of fates takes.
#[derive(Drop)]
pub struct Told<'a> {
    /// The frames.
    pub items: Vec<Seen<'a>>,
    /// Whether the fates take all frames of both recordings and no others.
    pub fits: bool,
}

/// The frames that the fates take from two recordings.
pub fn take_frames<'a>(
    alloc: Global,
    shape: &TmShape,
    spacecraft: u16,
    one: &'a [u8],
    other: &'a [u8],
    fates: &[Fate],
) -> Result<Told<'a>, AllocError>
    ensures items { IfOk result (λ told. told.items.items ≡ map (seen_of shape.now spacecraft)
        (taken_of shape.now.len one.now other.now fates.now)) }
    ensures fits { IfOk result (λ told.
        told.fits ≡ fits_both shape.now.len one.now other.now fates.now) }
    ensures positive { OnOk result (0 < shape.now.len) }
{
    let mut items = Vec::with_capacity(alloc, fates.len())?;
    let mut fits = true;
    let mut firsts = one;
    let mut seconds = other;
    for fate in fates {
        match next_frame(shape, *fate, &mut firsts, &mut seconds) {
            Some((frame, is_same)) => {
                items.push(see(shape, spacecraft, *fate, frame))?;
                fits = fits && is_same;
            }
            None => return Ok(Told { items, fits: false }),
        }
    }
    let is_used_up = has_none(shape, firsts) && has_none(shape, seconds);
    let fits = fits && is_used_up;
    Ok(Told { items, fits })
}

/// Takes the frame that a fate names, and answers also whether both recordings have the same one
/// where the fate is for both.
pub fn next_frame<'a>(
    shape: &TmShape,
    fate: Fate,
    firsts: &mut &'a [u8],
    seconds: &mut &'a [u8],
) -> Option<(&'a [u8], bool)>
    ensures found { MatchOption result
        (FindsNone fate (tm_frames_of shape.now.len firsts.old.now)
        (tm_frames_of shape.now.len seconds.old.now))
        (λ found. Finds fate found.0.now found.1 (tm_frames_of shape.now.len firsts.old.now)
        (tm_frames_of shape.now.len seconds.old.now) (tm_frames_of shape.now.len firsts.new.now)
        (tm_frames_of shape.now.len seconds.new.now)) }
    ensures len { IfSome result (λ found. length found.0.now ≡ shape.now.len) }
    ensures long { IfSome result (λ found. 12 ≤ length found.0.now) }
    ensures positive { 0 < shape.now.len }
{
    match fate {
        Fate::Both => {
            let frame = next_of(shape, firsts)?;
            let other = next_of(shape, seconds)?;
            Some((frame, frame == other))
        }
        Fate::First | Fate::FirstLeftOut => Some((next_of(shape, firsts)?, true)),
        Fate::Second | Fate::SecondLeftOut => Some((next_of(shape, seconds)?, true)),
    }
}

// Takes the next frame of a recording.
fn next_of<'a>(shape: &TmShape, octets: &mut &'a [u8]) -> Option<&'a [u8]>
    ensures frame { MatchOption result (tm_frames_of shape.now.len octets.old.now ≡ [])
        (λ frame. tm_frames_of shape.now.len octets.old.now
        ≡ frame.now ∷ tm_frames_of shape.now.len octets.new.now) }
    ensures len { IfSome result (λ frame. length frame.now ≡ shape.now.len) }
    ensures long { IfSome result (λ frame. 12 ≤ length frame.now) }
    ensures positive { 0 < shape.now.len }
{
    let left: &'a [u8] = *octets;
    let (frame, later) = left.split_at_checked(usize::from(shape.len()))?;
    *octets = later;
    Some(frame)
}

// Whether octets have no whole frame.
fn has_none(shape: &TmShape, octets: &[u8]) -> bool
    ensures none { result ≡ has_none (tm_frames_of shape.now.len octets.now) }
    ensures positive { 0 < shape.now.len }
{
    octets.len() < usize::from(shape.len())
}

// What is seen of a frame.
fn see<'a>(shape: &TmShape, spacecraft: u16, fate: Fate, frame: &'a [u8]) -> Seen<'a>
    requires len { length frame.now ≡ shape.now.len }
    requires long { 12 ≤ length frame.now }
    ensures { result ≡ seen_of shape.now spacecraft (fated fate frame.now) }
{
    let vc = match TmFrame::read(shape, spacecraft, frame) {
        Ok(read) => Some(read.vc()),
        Err(_) => None,
    };
    Seen {
        item: Item::new(fate, frame),
        vc,
    }
}

/// The frames on a virtual channel.
pub fn on_channel<'a>(alloc: Global, seen: &[Seen<'a>], vc: u8) -> Result<Vec<Item<'a>>, AllocError>
    ensures { IfOk result (λ channel. channel.items ≡ seen_on vc seen.now) }
{
    let mut channel = Vec::new(alloc);
    for one in seen {
        if one.vc == Some(vc) {
            channel.push(one.item.from_side(false))?;
        }
    }
    Ok(channel)
}
