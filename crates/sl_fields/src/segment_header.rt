//! The segment header of a TC transfer frame.
ghost use Rattle.std.specs.Prelude.{◌≡◌, ℕ, ◌^◌, ◌<◌, ◌≤◌, List, length, SomeIff};
ghost use Rattle.sl_fields.specs.Field.{IsOctets};
ghost use Rattle.sl_fields.specs.SegmentHeader.{SegmentFields, segment_header, sequence_flags};
ghost use Rattle.sl_fields.specs.SegmentHeader.{FitsSegmentHeader, segment_octets};

use crate::bits::{field, pack};
use byteorder::{BigEndian, ByteOrder};
use std::marker::Model;

/// The segment header of CCSDS 232.0-B: one octet at the front of a TC transfer frame's data field.
#[derive(Clone, Copy, Debug, PartialEq, Eq)]
pub struct SegmentHeader {
    // The fields in their order. The method of the same name describes each field.
    flags: u8,
    map: u8,
}

impl Model for SegmentHeader {
    ghost use Rattle.sl_fields.specs.SegmentHeader.{SegmentFields};

    ghost Value = { SegmentFields };

    ghost use Rattle.sl_fields.specs.SegmentHeaderModel.{fields_of, inside_of, IsSegmentHeader};

    ghost view = { fields_of };

    ghost invariant = { IsSegmentHeader };

    ghost inverse = { inside_of };
}

impl SegmentHeader {
    /// The header with these fields, or `None` where a field is out of its range. The range of
    /// `flags` is 0 to 3, and of `map` 0 to 63.
    pub fn new(flags: u8, map: u8) -> Option<SegmentHeader>
        ensures { let fields : SegmentFields = record {
          flags = flags;
          map = map;
        } in SomeIff result (FitsSegmentHeader fields) fields }
    {
        let fits = flags < 4 && map < 64;
        if !fits {
            return None;
        }
        Some(SegmentHeader { flags, map })
    }

    /// The header of a segment on the MAP `map`, 0 to 63. `first` says whether the segment is the
    /// first one of its service data unit, and `last` whether it is the last one. The sequence
    /// flags of a segment that is both are 3, no segmentation.
    pub fn of_segment(first: bool, last: bool, map: u8) -> SegmentHeader
        requires { map ≤ 63 }
        ensures { let fields : SegmentFields = record {
          flags = sequence_flags first last;
          map = map;
        } in result ≡ fields }
    {
        let flags = match (first, last) {
            (true, true) => 3,
            (true, false) => 1,
            (false, true) => 2,
            (false, false) => 0,
        };
        SegmentHeader { flags, map }
    }

    /// Reads the header from its octet. Every octet is a header.
    pub fn read(octets: &[u8; 1]) -> SegmentHeader
        ensures { result ≡ segment_header octets.now }
    {
        let number = u64::from(octets[0]);
        SegmentHeader {
            flags: field(number, 6, 2) as u8,
            map: field(number, 0, 6) as u8,
        }
    }

    /// Sequence flags, 0 to 3: 1 first, 0 continuing, 2 last, 3 no segmentation.
    pub fn flags(&self) -> u8
        ensures value { result ≡ self.now.flags }
        ensures fits { result < 2 ^ 2 }
    {
        self.flags
    }

    /// Multiplexer access point identifier (MAP ID), 0 to 63.
    pub fn map(&self) -> u8
        ensures value { result ≡ self.now.map }
        ensures fits { result < 2 ^ 6 }
    {
        self.map
    }

    /// Writes the header as its octet.
    pub fn write(&self) -> [u8; 1]
        // The octet reads back as this header.
        ensures reads_back { segment_header result ≡ self.now }
        // No other octet does.
        ensures only { (octets : List ℕ) → length octets ≡ 1 → IsOctets octets
            → segment_header octets ≡ self.now → octets ≡ result }
        // The octet is the two fields, one after another.
        ensures octets { result ≡ segment_octets self.now }
    {
        let number = pack(&[(2, self.flags as u64), (6, self.map as u64)]);
        let mut octets = [0; 1];
        BigEndian::write_uint(&mut octets, number, 1);
        octets
    }
}
