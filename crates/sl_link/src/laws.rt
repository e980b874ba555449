//! What holds of the definitions alone. Each function does nothing; its clauses are the laws.
ghost use Rattle.sl_link.specs.Laws.Lost.{StationsLackLostPackets};
ghost use Rattle.sl_engine.specs.Compare.Summarised.{TcNumbersAreOfCheck, TmNumbersAreOfCheck};
ghost use Rattle.sl_engine.specs.Compare.Text.{TcDifferencesHaveLines, TmDifferencesHaveLines};
ghost use Rattle.sl_link.specs.Laws.Anomaly.{LinesTellAnomalies};
ghost use Rattle.sl_link.specs.Laws.Anomaly.Tc.{TcAnomaliesAreCounted, TcAnomaliesAreListed};
ghost use Rattle.sl_link.specs.Laws.Anomaly.Tm.{TmAnomaliesAreCounted, TmAnomaliesAreListed};
ghost use Rattle.sl_link.specs.Laws.Listed.{TmPacketsAreListed, TcPacketsAreListed};
ghost use Rattle.sl_link.specs.Laws.Separation.{TmFormsTellPackets, TcFormsTellPackets};

/// Under the same managed parameters, normal forms of two TM recordings are equal octet for octet
/// exactly where the recordings deliver the same packets on each virtual channel, idle ones left
/// out. A normal form delivers the packets of the recording that it was made of, and is its own
/// normal form.
#[tactic(auto, using(crate::proofs::lemmas::Laws::Separation::tm_forms_tell_packets))]
pub fn tm_normal_forms_tell_packets()
    ensures { TmFormsTellPackets }
{}

/// Under the same managed parameters, normal forms of two TC recordings are equal octet for octet
/// exactly where the recordings deliver the same packets on each virtual channel and MAP, idle ones
/// left out. A normal form delivers the packets of the recording that it was made of, and is its
/// own normal form.
#[tactic(auto, using(crate::proofs::lemmas::Laws::Separation::tc_forms_tell_packets))]
pub fn tc_normal_forms_tell_packets()
    ensures { TcFormsTellPackets }
{}

/// The packet listing of a TM recording is a line for each of some packets. On each virtual channel
/// these are exactly the packets that the recording delivers there, in their order, idle ones left
/// out.
#[tactic(auto, using(crate::proofs::lemmas::Laws::Listed::tm_packets_are_listed))]
pub fn tm_packets_are_listed()
    ensures { TmPacketsAreListed }
{}

/// The packet listing of a TC recording is a line for each of some packets. On each virtual channel
/// and MAP these are exactly the packets that the recording delivers there, in their order, idle
/// ones left out.
#[tactic(auto, using(crate::proofs::lemmas::Laws::Listed::tc_packets_are_listed))]
pub fn tc_packets_are_listed()
    ensures { TcPacketsAreListed }
{}

/// What a station lacks of a pass is what it lost: a recording of the kept frames of a virtual
/// channel lacks exactly the packets that ran through a frame that was lost, in some order, and has
/// none of its own there, idle packets left out. The frame counts of the whole channel have no gap,
/// and fewer than 256 frames in a row were lost between two that were kept.
#[tactic(auto, using(crate::proofs::lemmas::Laws::Lost::stations_lack_lost_packets))]
pub fn tm_stations_lack_lost_packets()
    ensures { StationsLackLostPackets }
{}

/// What `compare_tm` and `compare_tc` count of a recording is of the lines that `check` writes of
/// it: its text is these lines, one after another, and then that of the totals, whose number of
/// anomalies is theirs.
#[tactic(auto, using(crate::proofs::lemmas::Laws::Compared::tm_numbers, crate::proofs::lemmas::Laws::Compared::tc_numbers))]
pub fn compared_numbers_are_of_check()
    ensures tm { TmNumbersAreOfCheck }
    ensures tc { TcNumbersAreOfCheck }
{}

/// The text of what is left of two recordings of one kind has a line exactly where one of them has
/// a packet without a counterpart.
pub fn differences_have_lines()
    ensures tm { TmDifferencesHaveLines }
    ensures tc { TcDifferencesHaveLines }
{}

/// What `check tm` writes of a recording, but for its last line, is the lines of anomalies, one after
/// another. These are exactly the anomalies of the recording, each of them once, in order: by the
/// offset, and where it is the same in the order of the lines of one frame, or of the channels. The
/// last line is that of the totals, and has their number.
///
/// What an anomaly is, is said by how the recording is delimited and how its frames are read, and by
/// the relations that the laws of `sl_tmflow` tie to its reports: a gap, a packet that is broken off,
/// octets of another version at a packet start, an incomplete packet.
#[tactic(auto, using(crate::proofs::lemmas::Laws::Anomaly::Tm::tm_anomalies_are_listed))]
pub fn tm_anomalies_are_listed()
    ensures { TmAnomaliesAreListed }
{}

/// The same of `check tc`, where FARM-1's window has at most 256 numbers, as each `Window` has. What
/// an anomaly is, is said by how the recording is delimited and how its frames are read, by FARM-1's
/// table, and by the relations that the laws of `sl_tcflow` tie to its reports: a segment out of
/// sequence, a series that is dropped, too long or incomplete, octets that are left after packets.
#[tactic(auto, using(crate::proofs::lemmas::Laws::Anomaly::Tc::tc_anomalies_are_listed))]
pub fn tc_anomalies_are_listed()
    ensures { TcAnomaliesAreListed }
{}

/// Anomalies that have the same line are the same, where their numbers are below 2^64. Those of the
/// anomalies of a recording are, if it has fewer octets than that.
pub fn anomalies_have_their_own_lines()
    ensures lines { LinesTellAnomalies }
    ensures tm { TmAnomaliesAreCounted }
    ensures tc { TcAnomaliesAreCounted }
{}
