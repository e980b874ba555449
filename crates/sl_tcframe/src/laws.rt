//! The laws on this crate's definitions. Each function is empty; its clauses are the laws.
ghost use Rattle.sl_tcframe.specs.AdFrame.{AdFramesAreReadBack, AdFramesAreWhole};
ghost use Rattle.sl_tcframe.specs.TcDelimited.{EachIsTcDelimited, IsTcDelimitedOnce};
ghost use Rattle.sl_tcframe.specs.TcFraming.{AnyChunksAreTaken, BelowLeastIsNoFrame};
ghost use Rattle.sl_tcframe.specs.TcFraming.{ChunksAreDelimited, FrontsAreFrames};
ghost use Rattle.sl_tcframe.specs.TcFraming.{IncompleteBecomesFrame};
ghost use Rattle.sl_tcframe.specs.TcFrame.{EachHasParts, HasPartsOnce, OnlyFramesHaveParts};
ghost use Rattle.sl_tcframe.specs.TcFrame.{EachIsRead, IsReadOnce};
ghost use Rattle.sl_tcframe.specs.VcSet.{AddedNumbersRise, ListsOnce, NumbersAreAdded};

/// Octets that are one frame by their frame length field are divided into the parts of a TC frame,
/// in exactly one way: the primary header, the data field and the frame error control field. No
/// other octets have these parts.
pub fn tc_frames_have_parts()
    ensures each { EachHasParts }
    ensures once { HasPartsOnce }
    ensures only { OnlyFramesHaveParts }
{}

/// A frame is skipped for the first reason that holds. Where no reason holds, the frame is read,
/// and has exactly one content.
pub fn tc_frames_are_read()
    ensures each { EachIsRead }
    ensures once { IsReadOnce }
{}

/// Every list of octets is a recording, in exactly one way: frames end to end by their frame length
/// fields, and a remainder that doesn't begin with a frame.
pub fn tc_recordings_are_delimited()
    ensures each { EachIsTcDelimited }
    ensures once { IsTcDelimitedOnce }
{}

/// A frame of type AD that fits the format, with a segment header or without, is one frame by its
/// frame length field. The frame is read back as it was made: it isn't skipped, and its virtual
/// channel, its N(S) and its unit are those that it was made from.
pub fn ad_frames_are_read_back()
    ensures whole { AdFramesAreWhole }
    ensures read_back { AdFramesAreReadBack }
{}

/// A virtual channel that is added to a set is in the set. Every other virtual channel is in the
/// set exactly where it was before. The numbers of the set still rise strictly, up to 63.
pub fn channels_are_added()
    ensures added { NumbersAreAdded }
    ensures rising { AddedNumbersRise }
{}

/// A text lists at most one set of virtual channels.
pub fn texts_list_channels_once()
    ensures { ListsOnce }
{}

/// What stands at the front of octets: a whole frame, an incomplete one, or a frame length field
/// that states less than the least length of a frame.
///
/// - The front is a whole frame exactly where the octets begin with a frame of this length.
/// - Octets that state a length below the least don't begin with a frame, however they go on.
/// - An incomplete front becomes a frame with some octets more.
pub fn tc_fronts_tell_frames()
    ensures whole { FrontsAreFrames }
    ensures below { BelowLeastIsNoFrame }
    ensures incomplete { IncompleteBecomesFrame }
{}

/// A framer that is given a recording in chunks delimits the recording, whatever the chunks are.
/// Each chunk is given until the framer yields no frame, and then the next chunk. The frames that
/// the framer yields are the recording's frames.
///
/// The remainder of the recording is the octets that were taken after the last frame, and then the
/// octets that weren't taken. The only octets that aren't taken come after a stated length below
/// the least length of a frame.
pub fn tc_chunks_are_delimited()
    ensures any { AnyChunksAreTaken }
    ensures delimited { ChunksAreDelimited }
{}
