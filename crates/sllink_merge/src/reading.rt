//! A recording read whole.
ghost use Rattle.std.specs.Prelude.{◌≡◌, ◌++◌, [], IfErr, IfOk, OnOk};
ghost use Rattle.sl_io.specs.Streams.{ReadsAll, StopsReading};
ghost use Rattle.sllink_merge.specs.Reading.{chunk_size};

use sl_io::{Counted, LinkFault, read_some};
use std::alloc::Global;
use std::io::Read;

// How many octets are read at once, at most.
const CHUNK_SIZE: usize = 0x10000;

/// Reads a recording to its end. `size` is how many octets it is thought to have.
pub fn read_whole<R: Read>(
    alloc: Global,
    reader: &mut Counted<R>,
    size: u64,
    limit: u64,
) -> Result<Vec<u8>, LinkFault>
    ensures read { IfOk result (λ octets. ReadsAll R.remaining reader.old reader.new limit
        octets.items) }
    ensures fault { IfErr result (StopsReading R.remaining reader.old reader.new limit chunk_size) }
{
    let mut buffer = [0; CHUNK_SIZE];
    let mut octets = room_for(alloc, size.min(limit))?;
    loop {
        let taken = read_some(reader, &mut buffer, limit - octets.len() as u64)?;
        if taken == 0 {
            return Ok(octets);
        }
        keep(&mut octets, &buffer[..taken])?;
    }
}

// An empty vector with room for this number of octets.
fn room_for(alloc: Global, octets: u64) -> Result<Vec<u8>, LinkFault>
    ensures empty { IfOk result (λ room. room.items ≡ []) }
    ensures memory { IfErr result (λ fault. fault ≡ LinkFault.Memory) }
{
    let Ok(octets) = usize::try_from(octets) else {
        return Err(LinkFault::Memory);
    };
    match Vec::with_capacity(alloc, octets) {
        Ok(room) => Ok(room),
        Err(_) => Err(LinkFault::Memory),
    }
}

// Adds a piece to octets.
fn keep(octets: &mut Vec<u8>, piece: &[u8]) -> Result<(), LinkFault>
    ensures kept { OnOk result (octets.new.items ≡ octets.old.items ++ piece.now) }
    ensures memory { IfErr result (λ fault. fault ≡ LinkFault.Memory) }
{
    match octets.extend_from_slice(piece) {
        Ok(()) => Ok(()),
        Err(_) => Err(LinkFault::Memory),
    }
}
