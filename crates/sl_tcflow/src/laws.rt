//! The laws on this crate's definitions. Each function is empty; its clauses are the laws.
ghost use Rattle.sl_tcflow.specs.Anomaly.{StrayIsTold, WhatIsToldIsStray, DroppedIsTold};
ghost use Rattle.sl_tcflow.specs.Anomaly.{WhatIsToldIsDropped, LongIsTold, WhatIsToldIsLong};
ghost use Rattle.sl_tcflow.specs.Anomaly.{TailIsTold, WhatIsToldIsTail};
ghost use Rattle.sl_tcflow.specs.Anomaly.{NoPlainSeriesIsIncomplete, PlainUnitHasTailAlone};
ghost use Rattle.sl_tcflow.specs.FormDelivery.{NormalFormIsFrames, NoFrameIsLong, NoFrameIsSkipped};
ghost use Rattle.sl_tcflow.specs.FormDelivery.{NormalFormDelivers, RecordedListsAreDeliverable};
ghost use Rattle.sl_tcflow.specs.FormDelivery.{RecordedListsFit};
ghost use Rattle.sl_tcflow.specs.FormOrder.{EachPacketIsOneSeries, MapsNeverFall};
ghost use Rattle.sl_tcflow.specs.FormOrder.{NsCounts, VcsNeverFall};
ghost use Rattle.sl_tcflow.specs.Incomplete.{WhatIsToldIsIncomplete, IncompleteIsTold, OneBegins};
ghost use Rattle.sl_tcflow.specs.Incomplete.{OneIsIncomplete, IncompleteFits};
ghost use Rattle.sl_tcflow.specs.Receiver.{DeliveredAreHandedOver};
ghost use Rattle.sl_tcflow.specs.Reception.{PacketsEndOnce};
ghost use Rattle.sl_tcflow.specs.ReorderedUnits.{AdUnitsAreAll, ExpectedUnitIsAccepted};
ghost use Rattle.sl_tcflow.specs.ReorderedUnits.{PacketsInOrder, ReceiverCountsUnits};
ghost use Rattle.sl_tcflow.specs.ReorderedUnits.{RecordedPacketsInOrder};
ghost use Rattle.sl_tcflow.specs.ReorderedUnits.{UnitsInOrder, VrCountsUnits, WindowIsNear};
ghost use Rattle.sl_tcflow.specs.ReorderedUnits.{WindowNeverLocks};
ghost use Rattle.sl_tcflow.specs.Series.{EachIsSeries, EachSeriesIsListed, PlainUnitIsWhole};
ghost use Rattle.sl_tcflow.specs.Series.{SeriesAreApart};
ghost use Rattle.sl_tcflow.specs.TcNormalForm.{EachIsDivided};

/// `series_of` lists exactly the series of a list of a MAP's segments: each listed series is one of
/// the list, and each series of the list is listed. Each series ends before the next listed one
/// begins.
pub fn tc_series_are_listed()
    ensures each { EachIsSeries }
    ensures all { EachSeriesIsListed }
    ensures apart { SeriesAreApart }
{}

/// Where a segment is added to the end of a list of a MAP's segments, the packets are those of the
/// list before, and then those that end with the added segment.
pub fn tc_packets_end_once()
    ensures packets { PacketsEndOnce }
{}

/// The packets that a new [`Receiver`](crate::Receiver) hands over for a virtual channel and a MAP
/// are those that the frames deliver there, idle packets left out. The frames are given one after
/// another, and each call answers `Ok`.
pub fn tc_packets_are_handed_over()
    ensures { DeliveredAreHandedOver }
{}

/// What `incomplete_of` says of a list of a MAP's segments: a series that it finds is incomplete
/// after the last segment of the list, and a series that is incomplete is found.
/// At most one series is incomplete: any two begin at the same segment and have the same octets. An
/// incomplete series has at most 65,542 octets.
pub fn tc_incomplete_series_is_told()
    ensures is { WhatIsToldIsIncomplete }
    ensures all { IncompleteIsTold }
    ensures begins { OneBegins }
    ensures one { OneIsIncomplete }
    ensures fits { IncompleteFits }
{}

/// The anomalies of the segment that comes next after a list of a MAP's segments are reported
/// exactly where they occur:
///
/// - out of sequence, where the segment continues a series and none is incomplete;
/// - a dropped series, with the number of its octets, where one is incomplete and the segment
///   begins another one;
/// - a series that is too long, where one is incomplete, the segment continues it, and both have
///   more than 65,542 octets together;
/// - octets that are left, and how many, after the packets of the service data unit that ends with
///   the segment.
pub fn tc_anomalies_are_told()
    ensures stray { StrayIsTold }
    ensures is_stray { WhatIsToldIsStray }
    ensures dropped { DroppedIsTold }
    ensures is_dropped { WhatIsToldIsDropped }
    ensures long { LongIsTold }
    ensures is_long { WhatIsToldIsLong }
    ensures tail { TailIsTold }
    ensures is_tail { WhatIsToldIsTail }
{}

/// On a virtual channel without segment headers each unit is one segment with no segmentation, on
/// MAP 0, with all octets of the unit. So no series is ever incomplete there, on any MAP. Whichever
/// frames came before, no unit is out of sequence, and no unit drops a series or makes one too
/// long. Only octets can be left after the packets of a unit.
pub fn units_without_headers_are_whole()
    ensures segment { PlainUnitIsWhole }
    ensures incomplete { NoPlainSeriesIsIncomplete }
    ensures amiss { PlainUnitHasTailAlone }
{}

/// A recording of TC frames delivers packets that aren't idle, on 64 MAPs of 64 virtual channels.
/// On a virtual channel without segment headers all packets are on MAP 0, and each of them fits in
/// a data field.
pub fn tc_recordings_deliver_packets()
    ensures packets { RecordedListsAreDeliverable }
    ensures fit { RecordedListsFit }
{}

/// The segments of a packet in the normal form are full except the last one, which has one octet or
/// more of the packet. End to end their octets are the packet, and the segments are one series on
/// the packet's MAP.
pub fn packets_are_divided_into_segments()
    ensures segments { EachIsDivided }
{}

/// The normal form of packets that frames can carry is frames end to end. No frame is longer than
/// the managed greatest length, and none is skipped. Read as a recording, with the same initial
/// V(R), the same virtual channels without segment headers and any window, the form delivers
/// exactly the packets that it was made from, on each virtual channel and MAP.
pub fn normal_form_delivers_its_packets()
    ensures frames { NormalFormIsFrames }
    ensures within { NoFrameIsLong }
    ensures read { NoFrameIsSkipped }
    ensures packets { NormalFormDelivers }
{}

/// The order of the frames of a normal form of packets that frames can carry, read as a recording.
/// The virtual channels of the frames never fall, and on each virtual channel the MAPs never fall.
/// Each frame is of type AD. Its N(S) is the initial V(R) of its virtual channel plus the number of
/// frames of this virtual channel before it, modulo 256.
///
/// The frames of a virtual channel and a MAP carry the packets of the MAP in their order, each in a
/// series of its own. The segments of a series are full except the last one, which has one octet or
/// more of the packet. On a virtual channel without segment headers each packet is one frame's data
/// field.
pub fn normal_form_is_in_order()
    ensures channels { VcsNeverFall }
    ensures maps { MapsNeverFall }
    ensures ns { NsCounts }
    ensures packets { EachPacketIsOneSeries }
{}

/// Units of frames of type AD are accepted in the order in which they were sent.
///
/// The frames were sent on a virtual channel with N(S) counting from the initial V(R) on, modulo
/// 256. Copies of these frames arrive in any order. Some may be lost and some repeated, and frames
/// of type BD and Unlock may come between them, but no Set V(R). Each copy, when it arrives, is
/// less than 256 frames away from the frame that is expected next. Under these conditions the
/// accepted units of type AD are a prefix of the sent units. At each moment V(R) is the initial
/// V(R) plus the number of these accepted units, modulo 256, also in the CLCW of a receiver. This
/// holds for every width of the window.
///
/// Where each copy, when it arrives, is in the window, and the window has at most 256 numbers, each
/// copy is less than 256 frames away. Then the Lockout flag is never set, and each copy of the
/// expected frame is accepted.
pub fn units_are_accepted_in_order()
    ensures order { UnitsInOrder }
    ensures vr { VrCountsUnits }
    ensures receiver { ReceiverCountsUnits }
    ensures near { WindowIsNear }
    ensures open { WindowNeverLocks }
    ensures expected { ExpectedUnitIsAccepted }
{}

/// The frames were sent and arrive as `units_are_accepted_in_order` says in its second paragraph,
/// from "The frames were sent" on, and none of them is of type BD. Then all accepted units are of
/// type AD. The packets of each MAP are a prefix of the packets that all sent units make: no other
/// packet is delivered, none more often than it was sent, and none before one that was sent
/// earlier. The same holds of the packets that a recording of these frames delivers on the virtual
/// channel and MAP, idle packets left out on both sides.
pub fn packets_are_delivered_in_order()
    ensures all { AdUnitsAreAll }
    ensures packets { PacketsInOrder }
    ensures recording { RecordedPacketsInOrder }
{}
