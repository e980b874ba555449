//! The laws on this crate's definitions. Each function is empty; its clauses are the laws.
ghost use Rattle.sl_pair.specs.OnlyIn.{BothHaveSame, CopiesAreSubtracted, EachIsDivided};
ghost use Rattle.sl_pair.specs.OnlyIn.{LacksWhatWasLost, NoneMeansReordered, NumbersBalance};
ghost use Rattle.sl_pair.specs.OnlyIn.{OrderIsKept, OthersOrderIsNothing, PlacesHavePackets};
ghost use Rattle.sl_pair.specs.OnlyIn.{SublistLacksOnly};
ghost use Rattle.sl_pair.specs.Placed.{FormsAreOne, NumbersCount, SameMeansInPlace};
ghost use Rattle.sl_pair.specs.Runs.{ByApidIsStable, RunsAreJoined};
ghost use Rattle.sl_pair.specs.Turns.{TurnsDontMatter};

/// Of each packet, as many copies are only in one recording as it has more of them than the other
/// one. They keep their order, and stand at the places of those packets of which the other
/// recording has no more copies than stand before.
pub fn only_one_has_the_surplus()
    ensures copies { CopiesAreSubtracted }
    ensures order { OrderIsKept }
    ensures places { PlacesHavePackets }
{}

/// The other recording's order doesn't matter. The packets of a recording are those that both have
/// and those that only it has, and what both have is the same from either side.
pub fn both_are_divided_alike()
    ensures order { OthersOrderIsNothing }
    ensures divided { EachIsDivided }
    ensures same { BothHaveSame }
    ensures numbers { NumbersBalance }
{}

/// Neither recording has a packet of its own exactly where both have the same packets in some
/// order. This is the same order exactly where each packet also has the number of its counterpart.
pub fn none_means_reordered()
    ensures reordered { NoneMeansReordered }
    ensures in_place { SameMeansInPlace }
{}

/// Where a recording lost packets of another one and gained none, it has none of its own, and lacks
/// exactly the packets that it lost, in some order.
pub fn a_sublist_lacks_only()
    ensures only { SublistLacksOnly }
    ensures lost { LacksWhatWasLost }
{}

/// However the packets of two recordings come in turns, exactly those are left without a
/// counterpart that only one of the recordings has, and exactly the counterparts are paired: the
/// first copy of a packet with the first, the second with the second, and so on.
pub fn turns_dont_matter()
    ensures turns { TurnsDontMatter }
    ensures forms { FormsAreOne }
{}

/// The packets of a recording have the numbers 0, 1, 2 and so on, and so have those of each APID
/// among themselves.
pub fn numbers_count()
    ensures { NumbersCount }
{}

/// The order of APIDs has the same packets, and those of one APID in the order that they had. Its
/// runs, joined, are all of them again, and each is as long as may be. The first one has as many
/// packets as [`first_run`](crate::first_run) answers.
pub fn runs_are_what_is_left()
    ensures order { ByApidIsStable }
    ensures runs { RunsAreJoined }
{}
