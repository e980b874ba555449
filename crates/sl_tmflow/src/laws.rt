//! The laws on this crate's definitions. Each function is empty; its clauses are the laws.
//!
//! Many laws speak of a relation, which says what a thing is, and of a list that a definition
//! computes: what is listed is in the relation, and what is in the relation is listed. So the list
//! has these things and no others.
ghost use Rattle.sl_tmflow.specs.Anomaly.{EachGapIsTold, EachToldIsAGap, EachListedIsBrokenOff};
ghost use Rattle.sl_tmflow.specs.Anomaly.{EachBrokenOffIsListed, OneIsBrokenOff, BrokenOffIsShort};
ghost use Rattle.sl_tmflow.specs.Anomaly.{BrokenOffIsTold, WhatIsToldIsBrokenOff};
ghost use Rattle.sl_tmflow.specs.Anomaly.{EachForeignStartIsTold, EachToldIsAForeignStart};
ghost use Rattle.sl_tmflow.specs.Delivery.{EachIsDelivery, EachIsListed, DeliveriesAreInOrder};
ghost use Rattle.sl_tmflow.specs.Delivery.{PacketsEndOnce, EndsAreInOrder, EachEndsByTheNextStart};
ghost use Rattle.sl_tmflow.specs.Delivery.{NoneOverlap};
ghost use Rattle.sl_tmflow.specs.Extractor.{DeliveredAreHandedOver};
ghost use Rattle.sl_tmflow.specs.FormDelivery.{NoFrameIsSkipped, NormalFormIsFrames};
ghost use Rattle.sl_tmflow.specs.FormDelivery.{NormalFormDelivers, RecordedListsAreDeliverable};
ghost use Rattle.sl_tmflow.specs.FormOrder.{ChannelsNeverFall, EachCarriesPackets, McCounts};
ghost use Rattle.sl_tmflow.specs.FormOrder.{PacketsLieEndToEnd, VcCounts};
ghost use Rattle.sl_tmflow.specs.Incomplete.{EachListedIsIncomplete, EachIncompleteIsListed};
ghost use Rattle.sl_tmflow.specs.Incomplete.{OneStartIsIncomplete, OneIsIncomplete};
ghost use Rattle.sl_tmflow.specs.Incomplete.{IncompleteIsShort};
ghost use Rattle.sl_tmflow.specs.Incomplete.{IncompleteIsCounted, WhatIsCountedIsIncomplete};
ghost use Rattle.sl_tmflow.specs.Loss.{NoneIsNew, EachIsLeft, RunsAreKept, KeptRunsAreLeft};
ghost use Rattle.sl_tmflow.specs.Loss.{TestTellsRun, PacketsAreKept, PacketsAreSublist};
ghost use Rattle.sl_tmflow.specs.Loss.{HandedOverAreKept, HandedOverAreSublist, RecordedAreKept};
ghost use Rattle.sl_tmflow.specs.Loss.{RecordedAreSublist};
ghost use Rattle.sl_tmflow.specs.Merge.{BestBreaksNoRun, BestIsExact, CountsTellNumbers, NoneIsLost};
ghost use Rattle.sl_tmflow.specs.Merge.{RecordedAreDelivered, WithinIsTransitive};
ghost use Rattle.sl_tmflow.specs.NormalForm.{EachFillIsLeast, EachPointerIsLeast};
ghost use Rattle.sl_tmflow.specs.PacketStart.{EachIsStart, EachStartIsListed};

/// The listed packet starts of a data field are packet starts, and every packet start is listed.
pub fn tm_packet_starts_are_listed()
    ensures each { EachIsStart }
    ensures all { EachStartIsListed }
{}

/// The listed deliveries of a virtual channel are deliveries, every delivery is listed, and the
/// list is in order of frame and packet start.
pub fn tm_deliveries_are_listed()
    ensures each { EachIsDelivery }
    ensures all { EachIsListed }
    ensures in_order { DeliveriesAreInOrder }
{}

/// The packets that a virtual channel delivers with one frame more are the packets that it delivers
/// without this frame, and then those that end in this frame.
pub fn tm_packets_end_once()
    ensures { PacketsEndOnce }
{}

/// The packets that a new [`Extractor`](crate::Extractor) hands over for a virtual channel are
/// those that the channel delivers, idle packets left out. The frames are given one after another,
/// and each call answers Ok.
pub fn tm_packets_are_handed_over()
    ensures { DeliveredAreHandedOver }
{}

/// Delivered packets in the order of their starts are also in the order of their ends. Each has
/// ended by the frame in which the next one starts, and no two share an octet. Of the incomplete
/// packets at most one is listed after a frame (`one`), with 1 to 65,541 octets so far (`short`).
pub fn tm_packets_end_in_order()
    ensures in_order { EndsAreInOrder }
    ensures by_the_next { EachEndsByTheNextStart }
    ensures apart { NoneOverlap }
    ensures one { OneIsIncomplete }
    ensures short { IncompleteIsShort }
{}

/// The listed packets that are incomplete after the last frame of a virtual channel are incomplete,
/// and every incomplete packet is listed. At most one packet start has an incomplete packet
/// (`one`). The octets in the list are as many as this packet has so far, and none where no packet
/// is incomplete.
pub fn tm_incomplete_packets_are_listed()
    ensures each { EachListedIsIncomplete }
    ensures all { EachIncompleteIsListed }
    ensures one { OneStartIsIncomplete }
    ensures counted { IncompleteIsCounted }
    ensures is_counted { WhatIsCountedIsIncomplete }
{}

/// A gap is reported exactly where the virtual channel frame count isn't the expected one, which is
/// the count of the channel's last frame plus 1, modulo 256. The report has the expected count.
pub fn tm_gaps_are_told()
    ensures each { EachGapIsTold }
    ensures only { EachToldIsAGap }
{}

/// The packets that are listed as broken off by the next frame of a virtual channel are broken off,
/// and every packet that the frame breaks off is listed. At most one packet is broken off, with 1
/// to 65,541 octets so far. The octets that are reported as dropped are as many as this packet has,
/// and none where no packet is broken off.
pub fn tm_broken_packets_are_listed()
    ensures each { EachListedIsBrokenOff }
    ensures all { EachBrokenOffIsListed }
    ensures one { OneIsBrokenOff }
    ensures short { BrokenOffIsShort }
    ensures told { BrokenOffIsTold }
    ensures is_told { WhatIsToldIsBrokenOff }
{}

/// A data field is reported to have octets of another packet version than 0 at a packet start
/// exactly where it has them there.
pub fn tm_foreign_starts_are_told()
    ensures each { EachForeignStartIsTold }
    ensures only { EachToldIsAForeignStart }
{}

/// The loss of frames is local. Two conditions are set: the frame counts of the whole virtual
/// channel have no gap, and fewer than 256 frames in a row are lost between two frames that are
/// kept. The kept frames then deliver exactly the packets whose frames were all kept.
///
/// Each delivery from the kept frames is one from the whole channel: the same packet from the same
/// start in the same frame, to the same frame, and none of its frames was lost. Each delivery from
/// the whole channel that lost no frame is one from the kept frames.
pub fn tm_loss_is_local()
    // Each delivery from the kept frames is the same as one from the whole channel. No frame was
    // lost: `IsSameDelivery` says so by how many there are from start to end.
    ensures none_new { NoneIsNew }
    // What is the same as a delivery from the whole channel is a delivery from the kept frames.
    ensures each_left { EachIsLeft }
    // Where two are the same, each number from start to end was kept (`RunIsKept`).
    ensures all_kept { RunsAreKept }
    // For each delivery from the whole channel of which each number was kept, there is the same one
    // from the kept frames.
    ensures kept_left { KeptRunsAreLeft }
{}

/// Under the conditions of `tm_loss_is_local`, the packets that the kept frames deliver are the
/// packets of the whole channel whose frames were all kept, in their order. So a station that lost
/// frames delivers on a virtual channel a sublist of what all frames deliver there.
///
/// The same holds of the packets that an [`Extractor`](crate::Extractor) hands over, given the kept
/// frames one after another, where each call answers Ok. It also holds of a recording that has the
/// kept frames of the virtual channel, whatever it has on the others: there it delivers a sublist
/// of what the recording of all frames delivers. Idle packets are left out on both sides.
///
/// The clause `run` says that `keeps_run` decides whether all frames of a packet were kept.
pub fn tm_lost_frames_leave_a_sublist()
    ensures run { TestTellsRun }
    ensures exactly { PacketsAreKept }
    ensures channel { PacketsAreSublist }
    ensures handed_over_exactly { HandedOverAreKept }
    ensures handed_over { HandedOverAreSublist }
    ensures recording_exactly { RecordedAreKept }
    ensures recording { RecordedAreSublist }
{}

/// Frames stand among more frames, in the same order, and no other frame stands between two of them
/// whose counts follow. The more frames then deliver all packets that the first ones deliver, in
/// their order. The same holds of two recordings on a virtual channel, with idle packets left out
/// on both sides. Nothing else is asked of the counts, and nothing of what was sent.
///
/// The clause `again` says that frames which stand so among frames stand so among all that these
/// stand among: several recordings can be merged one after another.
pub fn tm_more_frames_deliver_no_less()
    ensures channel { NoneIsLost }
    ensures recording { RecordedAreDelivered }
    ensures again { WithinIsTransitive }
{}

/// A merged recording has the frames of a whole virtual channel that one recording or another one
/// has. The frame counts of the whole channel have no gap, and fewer than 256 frames in a row are
/// lost by both. The merged recording then delivers exactly the packets of the whole channel each
/// frame of which one or the other has, idle packets left out. Where one recording also lost fewer
/// than 256 frames in a row, no frame stands between two of its frames whose counts follow.
pub fn tm_best_of_both_is_exact()
    ensures exactly { BestIsExact }
    ensures unbroken { BestBreaksNoRun }
{}

/// Fewer than 256 frames in a row are lost, of a whole virtual channel without a gap. The counts
/// then tell the numbers of all kept frames after one whose number is known.
pub fn tm_counts_tell_numbers()
    ensures { CountsTellNumbers }
{}

/// In the normal form the packets of a virtual channel are filled up to whole data fields by the
/// least number of octets that will do: 0, or a length that an idle packet can have. The first
/// header pointer of a data field is the least packet start in the field.
pub fn normal_forms_are_filled_least()
    ensures fill { EachFillIsLeast }
    ensures pointer { EachPointerIsLeast }
{}

/// Every recording delivers eight lists, one for each virtual channel, of packets that aren't idle.
pub fn tm_recordings_deliver_packets()
    ensures { RecordedListsAreDeliverable }
{}

/// The normal form of packets is frames end to end, and none of them is skipped. Read as a
/// recording, it delivers exactly the packets that it was made from, on each virtual channel, idle
/// packets left out.
pub fn normal_form_delivers_its_packets()
    ensures frames { NormalFormIsFrames }
    ensures read { NoFrameIsSkipped }
    ensures packets { NormalFormDelivers }
{}

/// The frames of the normal form of packets, read as a recording. Each frame is of packets, and has
/// no operational control field. From frame to frame the virtual channel identifier never falls.
/// The master channel frame count of a frame is the number of frames before it. Its virtual channel
/// frame count is the number of frames of its virtual channel before it. Both are modulo 256. The
/// data fields of a virtual channel, end to end, are the channel's packets, end to end, filled up
/// by an idle packet where one is needed.
pub fn normal_form_is_in_order()
    ensures fields { EachCarriesPackets }
    ensures channels { ChannelsNeverFall }
    ensures mc { McCounts }
    ensures vc { VcCounts }
    ensures packets { PacketsLieEndToEnd }
{}
