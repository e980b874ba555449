//! The laws on this crate's definitions. Each function is empty; its clauses are the laws.
ghost use Rattle.sl_tmframe.specs.PacketFrame.{PacketFramesAreWhole, PacketFramesAreReadBack};
ghost use Rattle.sl_tmframe.specs.TmDelimited.{EachIsTmDelimited, IsTmDelimitedOnce};
ghost use Rattle.sl_tmframe.specs.TmFrame.{EachHasParts, HasPartsOnce, EachIsRead, IsReadOnce};
ghost use Rattle.sl_tmframe.specs.TmFraming.{AnyChunksAreTaken, ChunksAreDelimited};
ghost use Rattle.sl_tmframe.specs.TmFraming.{ShortBecomesFrame};

/// Every list of octets of the managed length, if this is 12 or more, has the parts of a TM frame
/// in exactly one way. All parts but the data field have 12 octets together at most.
pub fn tm_frames_have_parts()
    ensures each { EachHasParts }
    ensures once { HasPartsOnce }
{}

/// Octets of the managed length, if this is 12 or more, are skipped where a reason to skip them
/// holds, for the first such reason. Where none holds, they are read as a frame of one class:
/// packets, idle or opaque. No octets are read in two ways.
pub fn tm_frames_are_read()
    ensures each { EachIsRead }
    ensures once { IsReadOnce }
{}

/// A frame of packets has the length of its format, and is read back: it isn't skipped, and its
/// virtual channel, its frame counts, its first header pointer and its data field are those that
/// the frame was made from.
pub fn packet_frames_are_read_back()
    ensures whole { PacketFramesAreWhole }
    ensures read_back { PacketFramesAreReadBack }
{}

/// Every list of octets is a recording in exactly one way: TM frames of the managed length, if this
/// is 1 or more, and a shorter remainder.
pub fn tm_recordings_are_delimited()
    ensures each { EachIsTmDelimited }
    ensures once { IsTmDelimitedOnce }
{}

/// A framer that is given a recording in chunks delimits the recording, whatever the division. The
/// framer is called with what is left of a chunk until nothing is left, and then with the next
/// chunk. The frames that the framer yields are the recording's frames, and the octets that were
/// taken after the last frame are the remainder. Any list of chunks can be given (clause `any`).
///
/// A remainder can always still become a frame: to octets that are too few for a frame, some octets
/// can be added at the end so that all of them together are exactly one frame (clause `short`). So
/// only the end of the recording shows that it is a remainder.
pub fn tm_chunks_are_delimited()
    ensures any { AnyChunksAreTaken }
    ensures delimited { ChunksAreDelimited }
    ensures short { ShortBecomesFrame }
{}
