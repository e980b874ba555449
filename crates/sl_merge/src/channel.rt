//! What a merge asks of the frames of one virtual channel.
ghost use Rattle.std.specs.Prelude.{◌≡◌, ◌+◌, ◌<◌, ◌^◌, [], None, false};
ghost use Rattle.sl_merge.specs.Merge.{before_after, between_after, breaks, count_of, few};
ghost use Rattle.sl_merge.specs.Merge.{follows_last, has_reasons, is_repeat, is_unbroken};
ghost use Rattle.sl_merge.specs.Merge.{keeps_first, last_after};
ghost use Rattle.sl_merge.specs.Told.{from_side};
ghost use Rattle.sl_merge.specs.Tally.{admits, ends_fairly, tally_after};

use crate::fate::Fate;
use crate::item::Item;
use sl_tmframe::TmShape;

/// Whether the frames of one virtual channel are as a merge asks of one recording: the first, or
/// with `is_turned` the second.
pub fn keeps_side(shape: &TmShape, items: &[Item], is_turned: bool) -> bool
    ensures { result ≡ keeps_first (few shape.now) (from_side is_turned items.now) }
{
    is_unbroken(items, is_turned) && has_reasons(items, is_turned, few(shape))
}

// What a run needs to know of the frames before it.
#[derive(Clone, Copy)]
struct Run {
    // The count of the recording's last frame that stands.
    last: Option<u8>,
    // Whether a frame of the other recording alone stood since.
    between: bool,
}

impl Run {
    // Whether a frame breaks the run.
    fn is_broken_by(&self, item: &Item) -> bool
        ensures { result ≡ breaks self.now.last self.now.between item.now }
    {
        item.fate().stands()
            && item.fate().is_of_first()
            && self.between
            && follows(self.last, item.count())
    }

    // The run with one frame more.
    fn after(self, item: &Item) -> Run
        ensures last { result.last ≡ last_after self.last item.now }
        ensures between { result.between ≡ between_after self.between item.now }
    {
        if !item.fate().stands() {
            self
        } else if item.fate().is_of_first() {
            Run {
                last: Some(item.count()),
                between: false,
            }
        } else {
            Run {
                last: self.last,
                between: true,
            }
        }
    }
}

// Whether a count follows the one before it, if there is one.
fn follows(last: Option<u8>, count: u8) -> bool
    ensures { result ≡ follows_last last count }
{
    match last {
        Some(last) => count == last.wrapping_add(1),
        None => false,
    }
}

// Whether no run of a recording is broken: the first one's, or with `is_turned` the second one's.
fn is_unbroken(items: &[Item], is_turned: bool) -> bool
    ensures { result ≡ is_unbroken None false (from_side is_turned items.now) }
{
    let mut run = Run {
        last: None,
        between: false,
    };
    for item in items {
        let side = item.from_side(is_turned);
        if run.is_broken_by(&side) {
            return false;
        }
        run = run.after(&side);
    }
    true
}

// How many frames may have a damaged count or virtual channel where no frame has room. A damaged
// frame with an error control field is skipped.
fn few(shape: &TmShape) -> usize
    ensures { result ≡ few shape.now }
{
    if shape.fecf() { 0 } else { 8 }
}

// What came of a stretch between frames of both recordings.
#[derive(Clone, Copy)]
struct Tally {
    // The count of the frame of both that came before, if one did.
    after: Option<u8>,
    // How many frames of the recording are left out, repeats aside.
    left_out: usize,
    // How many frames of the other recording alone stand.
    others: usize,
}

impl Tally {
    // Whether the frames that are left out have a reason, where the next frame ends the stretch.
    fn admits(&self, item: &Item, most: usize) -> bool
        ensures { result ≡ admits most self.now item.now.fate (count_of item.now.frame) }
    {
        match item.fate() {
            Fate::Both => self.ends_fairly(item.count(), most),
            _ => true,
        }
    }

    // Whether they have a reason, where a frame of both with this count ends the stretch.
    fn ends_fairly(&self, count: u8, most: usize) -> bool
        ensures { result ≡ ends_fairly most self.now.after self.now.left_out self.now.others count }
    {
        match self.after {
            Some(last) => {
                self.left_out <= self.others
                    || (self.left_out <= most && follows(Some(last), count))
            }
            None => self.left_out == 0,
        }
    }

    // The stretch with one frame more.
    fn after(self, item: &Item) -> Tally
        requires left_out { self.left_out + 1 < 2 ^ 64 }
        requires others { self.others + 1 < 2 ^ 64 }
        ensures { result ≡ tally_after item.now.fate (count_of item.now.frame) self }
    {
        match item.fate() {
            Fate::Both => Tally {
                after: Some(item.count()),
                left_out: 0,
                others: 0,
            },
            Fate::FirstLeftOut => Tally {
                left_out: self.left_out + 1,
                ..self
            },
            Fate::Second => Tally {
                others: self.others + 1,
                ..self
            },
            Fate::First | Fate::SecondLeftOut => self,
        }
    }
}

// Whether each frame of a recording that is left out has a reason: the first one's, or with
// `is_turned` the second one's. `most` may be left out where no frame has room.
fn has_reasons(items: &[Item], is_turned: bool, most: usize) -> bool
    ensures { result ≡ has_reasons most (from_side is_turned items.now) }
{
    let mut before: &[u8] = &[];
    let mut tally = Tally {
        after: None,
        left_out: 0,
        others: 0,
    };
    for item in items {
        let side = item.from_side(is_turned);
        let is_repeat = is_repeat(before, &side);
        before = before_after(before, &side);
        if is_repeat {
            continue;
        }
        if !tally.admits(&side, most) {
            return false;
        }
        tally = tally.after(&side);
    }
    tally.left_out == 0
}

// Whether a frame is left out and is the one before it once more.
pub fn is_repeat(before: &[u8], item: &Item) -> bool
    ensures { result ≡ is_repeat before.now item.now }
{
    item.is_left_out() && before == item.frame()
}

// The frame before the next one of the recording.
pub fn before_after<'a>(before: &'a [u8], item: &Item<'a>) -> &'a [u8]
    ensures { result.now ≡ before_after before.now item.now }
{
    if item.fate().is_of_first() {
        item.frame()
    } else {
        before
    }
}
