//! A recording that is read once, chunk by chunk, and handed over frame by frame.
ghost use Rattle.std.specs.Prelude.{◌≡◌, ◌+◌, ◌^◌, ◌<◌, ◌++◌, [], ℕ, List, length, IfOk, IfErr, OnOk};
ghost use Rattle.sl_engine.specs.Framing.{HasCutFrames, HasCutAll, HasPassed, PassesOver, StopsPassing};
ghost use Rattle.sl_engine.specs.Io.Streams.{IsRead};

mod frame_sink;
mod framer;
mod tc;
mod tm;

use crate::link::managed::Managed;
pub use frame_sink::FrameSink;
pub use framer::Framer;
use sl_io::{Counted, LinkFault, read_some};
use std::io::Read;

/// How many octets are read at once, at most.
pub const CHUNK_SIZE: usize = 0x10000;

/// Reads a recording to its end, hands over each frame of it, and answers how many octets were
/// read.
pub fn read_recording<S: FrameSink, R: Read>(
    managed: &Managed,
    sink: &mut S,
    reader: &mut Counted<R>,
    buffer: &mut [u8],
) -> Result<u64, LinkFault>
    requires room { 0 < length buffer.old }
    // The sink has taken no frame.
    requires begun { S.took managed.now sink.old sink.old [] }
    ensures all { IfOk result (PassesOver R.remaining reader.old reader.new
        (S.Framer.frames_of managed.now) (S.took managed.now sink.old sink.new)
        managed.now.max_octets) }
    ensures fault { IfErr result (StopsPassing R.remaining reader.old reader.new
        (S.Framer.frames_of managed.now) (S.took managed.now sink.old sink.new)
        (S.stopped managed.now sink.old sink.new) managed.now.max_octets (length buffer.old)) }
{
    let mut framer = S::Framer::begin(managed);
    let mut octets = 0;
    loop {
        let taken = read_chunk(managed, &mut framer, sink, reader, buffer, octets)?;
        if taken == 0 {
            return Ok(octets);
        }
        octets += taken as u64;
    }
}

/// Reads the next chunk of a recording of which `octets` octets were read, and hands over the
/// frames that it completes. Answers how many octets came, 0 where the recording ended. A clause
/// holds whatever was read before: for each reader `begun` with which the reading may have begun,
/// each such value `start` of the sink, and all octets `so_far` that may have been read.
pub fn read_chunk<S: FrameSink, R: Read>(
    managed: &Managed,
    framer: &mut S::Framer,
    sink: &mut S,
    reader: &mut Counted<R>,
    buffer: &mut [u8],
    octets: u64,
) -> Result<usize, LinkFault>
    requires room { 0 < length buffer.old }
    requires ready { (begun : Counted R) × (start : S) × (so_far : List ℕ)
        × HasPassed R.remaining begun reader.old managed.now.max_octets octets
        (HasCutAll S.Framer.is_frame S.Framer.waits S.Framer.frames_of
        (S.took managed.now start sink.old) managed.now framer.old) so_far }
    ensures passed { IfOk result (λ taken. (begun : Counted R) (start : S) (so_far : List ℕ)
        → HasPassed R.remaining begun reader.old managed.now.max_octets octets
        (HasCutAll S.Framer.is_frame S.Framer.waits S.Framer.frames_of
        (S.took managed.now start sink.old) managed.now framer.old) so_far
        → (chunk : List ℕ)
        × HasPassed R.remaining begun reader.new managed.now.max_octets (octets + taken)
        (HasCutAll S.Framer.is_frame S.Framer.waits S.Framer.frames_of
        (S.took managed.now start sink.new) managed.now framer.new) (so_far ++ chunk)) }
    ensures end { IfOk result (λ taken. taken ≡ 0 → IsRead R.remaining reader.new) }
    ensures fits { IfOk result (λ taken. octets + taken < 2 ^ 64) }
    ensures fault { IfErr result (λ fault. (begun : Counted R) (start : S) (so_far : List ℕ)
        → HasPassed R.remaining begun reader.old managed.now.max_octets octets
        (HasCutAll S.Framer.is_frame S.Framer.waits S.Framer.frames_of
        (S.took managed.now start sink.old) managed.now framer.old) so_far
        → StopsPassing R.remaining begun reader.new (S.Framer.frames_of managed.now)
        (S.took managed.now start sink.new) (S.stopped managed.now start sink.new)
        managed.now.max_octets (length buffer.old) fault) }
{
    let taken = read_some(reader, buffer, managed.max_octets - octets)?;
    if taken == 0 {
        return Ok(0);
    }
    cut_chunk(managed, framer, sink, &buffer[..taken])?;
    Ok(taken)
}

/// Hands over the frames that a chunk completes, and then pauses. Each clause holds for every past:
/// every value `start` that the sink may have begun with, and all `octets` that may have been read,
/// those of the chunk included. The last argument of `HasCutFrames` is the part of `octets` that
/// the framer hasn't seen yet: before the call the whole chunk, and at a fault what is `left` of
/// it.
pub fn cut_chunk<S: FrameSink>(
    managed: &Managed,
    framer: &mut S::Framer,
    sink: &mut S,
    chunk: &[u8],
) -> Result<(), LinkFault>
    requires ready { (start : S) × (octets : List ℕ)
        × HasCutFrames S.Framer.is_frame S.Framer.waits (S.took managed.now start sink.old)
        managed.now framer.old octets chunk.now × (length octets < 2 ^ 64) }
    ensures taken { OnOk result ((start : S) (octets : List ℕ)
        → HasCutFrames S.Framer.is_frame S.Framer.waits (S.took managed.now start sink.old)
        managed.now framer.old octets chunk.now
        → HasCutAll S.Framer.is_frame S.Framer.waits S.Framer.frames_of
        (S.took managed.now start sink.new) managed.now framer.new octets) }
    ensures fault { IfErr result (λ fault. (start : S) (octets : List ℕ)
        → HasCutFrames S.Framer.is_frame S.Framer.waits (S.took managed.now start sink.old)
        managed.now framer.old octets chunk.now
        → (left : List ℕ) × HasCutFrames S.Framer.is_frame S.Framer.waits
        (λ frames. S.stopped managed.now start sink.new frames fault) managed.now framer.new octets
        left) }
{
    let mut left = chunk;
    while let Some(frame) = framer.next_frame(&mut left) {
        sink.frame(managed, frame)?;
    }
    sink.pause()
}
