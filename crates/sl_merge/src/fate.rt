//! What becomes of a frame.
ghost use Rattle.std.specs.Prelude.{◌≡◌};
ghost use Rattle.sl_merge.specs.Fates.{of_first, stands, turned};
ghost use Rattle.sl_merge.specs.Merge.{is_first_alone};

/// What becomes of a frame of two recordings that are merged. Each fate takes the next frame of the
/// recording that it names, and of both for [`Fate::Both`].
#[derive(Clone, Copy, Debug, PartialEq, Eq)]
pub enum Fate {
    /// The next frames of both recordings have the same octets, and stand once in the merge.
    Both,
    /// The next frame of the first recording stands in the merge. The second has none there.
    First,
    /// The next frame of the second recording stands in the merge. The first has none there.
    Second,
    /// The next frame of the first recording doesn't stand in the merge.
    FirstLeftOut,
    /// The next frame of the second recording doesn't stand in the merge.
    SecondLeftOut,
}

impl Fate {
    /// Whether the frame stands in the merge: it is not left out.
    pub fn stands(self) -> bool
        ensures { result ≡ stands self }
    {
        match self {
            Fate::Both | Fate::First | Fate::Second => true,
            Fate::FirstLeftOut | Fate::SecondLeftOut => false,
        }
    }

    /// Whether the first recording has the frame.
    pub fn is_of_first(self) -> bool
        ensures { result ≡ of_first self }
    {
        match self {
            Fate::Both | Fate::First | Fate::FirstLeftOut => true,
            Fate::Second | Fate::SecondLeftOut => false,
        }
    }

    /// The fate with the recordings exchanged.
    pub fn turned(self) -> Fate
        ensures { result ≡ turned self }
    {
        match self {
            Fate::Both => Fate::Both,
            Fate::First => Fate::Second,
            Fate::Second => Fate::First,
            Fate::FirstLeftOut => Fate::SecondLeftOut,
            Fate::SecondLeftOut => Fate::FirstLeftOut,
        }
    }

    /// Whether the frame stands in the merge as one of the first recording alone.
    pub(crate) fn is_first_alone(self) -> bool
        ensures { result ≡ is_first_alone self }
    {
        self.stands() && !self.turned().is_of_first()
    }
}
