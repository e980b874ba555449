//! Signs in a recording by which an option may be doubted.
ghost use Rattle.std.specs.Prelude.{◌≡◌, ◌+◌, ◌^◌, ◌<◌, ◌++◌, ◌∷◌, ◌&&◌, [], ℕ, List, length, nat_lt};
ghost use Rattle.sl_fields.specs.Fecf.{fecf_is_good};
ghost use Rattle.sl_engine.specs.Compare.Signs.{AreOwn, looked_at, no_channels, signs_by, with_channel};

use crate::compare::summary::Summarised;
use crate::link::managed::Managed;
use sl_fields::fecf_good;

/// Signs in a recording by which an option may be doubted. The frames of the spacecraft are those
/// with its identifier, whatever else is in them.
#[derive(Clone, Copy, Debug, PartialEq, Eq)]
pub struct Signs {
    /// How many frames of the spacecraft there are.
    pub own: u64,
    /// In how many of the first thousand of these the last two octets are the frame error control
    /// field of the octets before them.
    pub right: u64,
    /// How many TC frames of the spacecraft are longer than the greatest length; 0 for TM.
    pub long: u64,
    /// Whether a TM frame of each virtual channel, 0 to 7, was read; none for TC.
    pub begun: [bool; 8],
}

// The frames whose error control is looked at.
const LOOKED_AT: u64 = 1000;

impl Signs {
    /// No frame has come.
    pub(crate) fn none() -> Signs
        ensures own { result.own ≡ 0 }
        ensures right { result.right ≡ 0 }
        ensures long { result.long ≡ 0 }
        ensures begun { result.begun ≡ no_channels }
    {
        Signs {
            own: 0,
            right: 0,
            long: 0,
            begun: [false; 8],
        }
    }

    /// Takes the signs of the next frame, of which this is found.
    pub(crate) fn take<D: Summarised>(&mut self, managed: &Managed, frame: &[u8], found: D::Found)
        requires { (before : List (List ℕ)) × (self.old ≡ signs_by (D.is_own managed.now)
            (D.is_long managed.now) (D.begun managed.now) before)
            × (found ≡ D.found managed.now before frame.now)
            × D.Framer.is_frame managed.now frame.now × (length before + 1 < 2 ^ 64) }
        ensures { (before : List (List ℕ)) → self.old ≡ signs_by (D.is_own managed.now)
            (D.is_long managed.now) (D.begun managed.now) before
            → found ≡ D.found managed.now before frame.now
            → self.new ≡ signs_by (D.is_own managed.now) (D.is_long managed.now)
            (D.begun managed.now) (before ++ frame.now ∷ []) }
    {
        self.take_own::<D>(managed, frame);
        self.begin(D::channel_read(found));
    }

    // Takes the signs of a frame, but for its virtual channel.
    fn take_own<D: Summarised>(&mut self, managed: &Managed, frame: &[u8])
        requires frame { D.Framer.is_frame managed.now frame.now }
        requires signs { (before : List (List ℕ)) × AreOwn (D.is_own managed.now)
            (D.is_long managed.now) before self.old × (length before + 1 < 2 ^ 64) }
        ensures own { (before : List (List ℕ)) → AreOwn (D.is_own managed.now)
            (D.is_long managed.now) before self.old → AreOwn (D.is_own managed.now)
            (D.is_long managed.now) (before ++ frame.now ∷ []) self.new }
        ensures begun { self.new.begun ≡ self.old.begun }
    {
        if !D::is_own_frame(managed, frame) {
            return;
        }
        self.right += u64::from(self.is_right(frame));
        self.long += u64::from(D::is_long_frame(managed, frame));
        self.own += 1;
    }

    // Whether the frame error control of the next frame of the spacecraft counts, and is right.
    fn is_right(&self, frame: &[u8]) -> bool
        ensures { result ≡ nat_lt self.now.own looked_at && fecf_is_good frame.now }
    {
        self.own < LOOKED_AT && fecf_good(frame)
    }

    // Takes the virtual channel on which a frame was read, if one was.
    fn begin(&mut self, channel: Option<u8>)
        ensures { self.new ≡ record self.old { begun = with_channel self.old.begun channel } }
    {
        let Some(vc) = channel else {
            return;
        };
        let vc = usize::from(vc);
        if vc < 8 {
            self.begun[vc] = true;
        }
    }
}
