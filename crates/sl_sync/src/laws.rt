//! The laws on this crate's definitions. Each function is empty; its clauses are the laws.
ghost use Rattle.sl_sync.specs.Laws.{CltusAreRead, FixedCutsAreRead, UnitsAroundAreRead};
ghost use Rattle.sl_sync.specs.Laws.{WholeUnitsAreRead};

/// Of units of one length that lie end to end, each with its marker, of whose bits no more are
/// wrong than may be, the frame of each is read, and no octet is stray, whatever else they hold.
pub fn whole_units_are_read()
    ensures { WholeUnitsAreRead }
{}

/// Whole units stand before other octets, and three or more behind them. Those before are read, all
/// but perhaps the last one. Those behind are read from the second one on, where the second and the
/// third hold no marker but their own.
pub fn units_around_are_read()
    ensures { UnitsAroundAreRead }
{}

/// Without a marker the frames are those of units end to end from the first octet on.
pub fn fixed_cuts_are_read()
    ensures { FixedCutsAreRead }
{}

/// Of CLTUs that lie end to end, each of one or more frames in 1024 code blocks at most, exactly
/// these frames are read, plain and randomised. No block is refused, no frame is cut, and the eight
/// octets of each tail sequence are skipped.
pub fn cltus_are_read()
    ensures { CltusAreRead }
{}
