//! The primary header of a space packet.
ghost use Rattle.std.specs.Prelude.{◌≡◌, ℕ, ◌^◌, ◌<◌, ◌≤◌, List, length, SomeIff};
ghost use Rattle.sl_fields.specs.Field.{IsOctets};
ghost use Rattle.sl_fields.specs.PacketHeader.{PacketFields, packet_header, telemetry_header};
ghost use Rattle.sl_fields.specs.PacketHeader.{FitsPacketHeader, packet_octets};

use crate::bits::{field, flag, pack};
use byteorder::{BigEndian, ByteOrder};
use std::marker::Model;

/// The space packet primary header of CCSDS 133.0-B, six octets.
#[derive(Clone, Copy, Debug, PartialEq, Eq)]
pub struct PacketHeader {
    // The fields in their order. Each field's method describes it. `kind` is the packet type.
    version: u8,
    kind: u8,
    secondary: bool,
    apid: u16,
    flags: u8,
    count: u16,
    length: u16,
}

impl Model for PacketHeader {
    ghost use Rattle.sl_fields.specs.PacketHeader.{PacketFields};

    ghost Value = { PacketFields };

    ghost use Rattle.sl_fields.specs.PacketHeaderModel.{fields_of, inside_of, IsPacketHeader};

    ghost view = { fields_of };

    ghost invariant = { IsPacketHeader };

    ghost inverse = { inside_of };
}

impl PacketHeader {
    /// The header with these fields, or `None` where a field is out of its range. The range of
    /// `version` is 0 to 7, of `kind`, the packet type, 0 to 1, of `apid` 0 to 2047, of `flags` 0
    /// to 3, and of `count` 0 to 16,383. Any `length` is in range.
    pub fn new(
        version: u8,
        kind: u8,
        secondary: bool,
        apid: u16,
        flags: u8,
        count: u16,
        length: u16,
    ) -> Option<PacketHeader>
        ensures { let fields : PacketFields = record {
          version = version;
          kind = kind;
          secondary = secondary;
          apid = apid;
          flags = flags;
          count = count;
          length = length;
        } in SomeIff result (FitsPacketHeader fields) fields }
    {
        let fits = version < 8 && kind < 2 && apid < 2048 && flags < 4 && count < 16384;
        if !fits {
            return None;
        }
        Some(PacketHeader {
            version,
            kind,
            secondary,
            apid,
            flags,
            count,
            length,
        })
    }

    /// The header of an unsegmented telemetry packet without a secondary header: version 0, packet
    /// type 0, secondary header flag 0 and sequence flags 3.
    ///
    /// `apid` is 0 to 2047, and `count`, the packet sequence count, 0 to 16,383. `length` is the
    /// number of octets of the packet data field minus 1, 0 to 65,535.
    pub fn of_telemetry(apid: u16, count: u16, length: u16) -> PacketHeader
        requires apid { apid ≤ 2047 }
        requires count { count ≤ 16383 }
        ensures { result ≡ telemetry_header apid count length }
    {
        PacketHeader {
            version: 0,
            kind: 0,
            secondary: false,
            apid,
            flags: 3,
            count,
            length,
        }
    }

    /// Reads the header from its six octets. Any six octets are read: the version, 0 for a space
    /// packet, isn't checked.
    pub fn read(octets: &[u8; 6]) -> PacketHeader
        ensures { result ≡ packet_header octets.now }
    {
        let number = BigEndian::read_u48(octets);
        PacketHeader {
            version: field(number, 45, 3) as u8,
            kind: field(number, 44, 1) as u8,
            secondary: flag(number, 43),
            apid: field(number, 32, 11) as u16,
            flags: field(number, 30, 2) as u8,
            count: field(number, 16, 14) as u16,
            length: field(number, 0, 16) as u16,
        }
    }

    /// Packet version number, 0 to 7: 0 for a space packet.
    pub fn version(&self) -> u8
        ensures value { result ≡ self.now.version }
        ensures fits { result < 2 ^ 3 }
    {
        self.version
    }

    /// Packet type: 0 for telemetry, 1 for telecommand.
    pub fn kind(&self) -> u8
        ensures value { result ≡ self.now.kind }
        ensures fits { result < 2 ^ 1 }
    {
        self.kind
    }

    /// Secondary header flag: whether the packet data field begins with a secondary header.
    pub fn secondary(&self) -> bool
        ensures { result ≡ self.now.secondary }
    {
        self.secondary
    }

    /// Application process identifier (APID), 0 to 2047: 2047 for an idle packet.
    pub fn apid(&self) -> u16
        ensures value { result ≡ self.now.apid }
        ensures fits { result < 2 ^ 11 }
    {
        self.apid
    }

    /// Sequence flags, 0 to 3: 1 first, 0 continuing, 2 last, 3 unsegmented.
    pub fn flags(&self) -> u8
        ensures value { result ≡ self.now.flags }
        ensures fits { result < 2 ^ 2 }
    {
        self.flags
    }

    /// Packet sequence count or packet name, 0 to 16,383.
    pub fn count(&self) -> u16
        ensures value { result ≡ self.now.count }
        ensures fits { result < 2 ^ 14 }
    {
        self.count
    }

    /// Packet data length, 0 to 65,535: the number of octets after the primary header, minus 1.
    pub fn length(&self) -> u16
        ensures { result ≡ self.now.length }
    {
        self.length
    }

    /// Writes the header as its six octets.
    pub fn write(&self) -> [u8; 6]
        // The octets read back as this header.
        ensures reads_back { packet_header result ≡ self.now }
        // No other six octets do.
        ensures only { (octets : List ℕ) → length octets ≡ 6 → IsOctets octets
            → packet_header octets ≡ self.now → octets ≡ result }
        // The octets are the fields, one after another.
        ensures octets { result ≡ packet_octets self.now }
    {
        let number = pack(&[
            (3, self.version as u64),
            (1, self.kind as u64),
            (1, self.secondary as u64),
            (11, self.apid as u64),
            (2, self.flags as u64),
            (14, self.count as u64),
            (16, self.length as u64),
        ]);
        let mut octets = [0; 6];
        BigEndian::write_uint(&mut octets, number, 6);
        octets
    }
}
