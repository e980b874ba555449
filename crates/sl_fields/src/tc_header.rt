//! The primary header of a TC transfer frame.
ghost use Rattle.std.specs.Prelude.{◌≡◌, ℕ, ◌^◌, ◌<◌, ◌≤◌, List, length, SomeIff};
ghost use Rattle.sl_fields.specs.Field.{IsOctets};
ghost use Rattle.sl_fields.specs.TcHeader.{TcFields, ad_header, tc_header, FitsTcHeader, tc_octets};

use crate::bits::{field, flag, pack};
use byteorder::{BigEndian, ByteOrder};
use std::marker::Model;

/// The TC transfer frame primary header of CCSDS 232.0-B, five octets.
#[derive(Clone, Copy, Debug, PartialEq, Eq)]
pub struct TcHeader {
    // The fields in their order. The method of the same name describes each field.
    version: u8,
    bypass: bool,
    command: bool,
    spare: u8,
    spacecraft: u16,
    vc: u8,
    length: u16,
    ns: u8,
}

impl Model for TcHeader {
    ghost use Rattle.sl_fields.specs.TcHeader.{TcFields};

    ghost Value = { TcFields };

    ghost use Rattle.sl_fields.specs.TcHeaderModel.{fields_of, inside_of, IsTcHeader};

    ghost view = { fields_of };

    ghost invariant = { IsTcHeader };

    ghost inverse = { inside_of };
}

impl TcHeader {
    /// The header with these fields, or `None` where a field is out of its range. The range of
    /// `version` and `spare` is 0 to 3, of `spacecraft` and `length` 0 to 1023, and of `vc` 0 to
    /// 63. Any `ns` is in range.
    pub fn new(
        version: u8,
        bypass: bool,
        command: bool,
        spare: u8,
        spacecraft: u16,
        vc: u8,
        length: u16,
        ns: u8,
    ) -> Option<TcHeader>
        ensures { let fields : TcFields = record {
          version = version;
          bypass = bypass;
          command = command;
          spare = spare;
          spacecraft = spacecraft;
          vc = vc;
          length = length;
          ns = ns;
        } in SomeIff result (FitsTcHeader fields) fields }
    {
        let fits = version < 4 && spare < 4 && spacecraft < 1024 && vc < 64 && length < 1024;
        if !fits {
            return None;
        }
        Some(TcHeader {
            version,
            bypass,
            command,
            spare,
            spacecraft,
            vc,
            length,
            ns,
        })
    }

    /// The header of a frame of type AD: version 0, bypass flag 0, control command flag 0 and spare
    /// bits 0.
    ///
    /// `spacecraft` is 0 to 1023 and `vc` 0 to 63. `length` is the number of octets of the frame
    /// minus 1, 0 to 1023. `ns` is the frame sequence number N(S), 0 to 255.
    pub fn of_ad(spacecraft: u16, vc: u8, length: u16, ns: u8) -> TcHeader
        requires spacecraft { spacecraft ≤ 1023 }
        requires vc { vc ≤ 63 }
        requires length { length ≤ 1023 }
        ensures { result ≡ ad_header spacecraft vc length ns }
    {
        TcHeader {
            version: 0,
            bypass: false,
            command: false,
            spare: 0,
            spacecraft,
            vc,
            length,
            ns,
        }
    }

    /// Reads the header from its five octets. Any five octets are read: the version, 0 for a TC
    /// transfer frame, isn't checked.
    pub fn read(octets: &[u8; 5]) -> TcHeader
        ensures { result ≡ tc_header octets.now }
    {
        let number = BigEndian::read_uint(octets, 5);
        TcHeader {
            version: field(number, 38, 2) as u8,
            bypass: flag(number, 37),
            command: flag(number, 36),
            spare: field(number, 34, 2) as u8,
            spacecraft: field(number, 24, 10) as u16,
            vc: field(number, 18, 6) as u8,
            length: field(number, 8, 10) as u16,
            ns: field(number, 0, 8) as u8,
        }
    }

    /// Transfer frame version number, 0 to 3: 0 for a TC transfer frame.
    pub fn version(&self) -> u8
        ensures value { result ≡ self.now.version }
        ensures fits { result < 2 ^ 2 }
    {
        self.version
    }

    /// Bypass flag: true where the frame bypasses the frame acceptance checks of FARM-1 (Type-B),
    /// false where FARM-1 makes these checks (Type-A).
    pub fn bypass(&self) -> bool
        ensures { result ≡ self.now.bypass }
    {
        self.bypass
    }

    /// Control command flag: true where the frame carries a control command (Type-C), false where
    /// the frame carries data (Type-D).
    pub fn command(&self) -> bool
        ensures { result ≡ self.now.command }
    {
        self.command
    }

    /// Reserved spare, 0 to 3.
    pub fn spare(&self) -> u8
        ensures value { result ≡ self.now.spare }
        ensures fits { result < 2 ^ 2 }
    {
        self.spare
    }

    /// Spacecraft identifier, 0 to 1023.
    pub fn spacecraft(&self) -> u16
        ensures value { result ≡ self.now.spacecraft }
        ensures fits { result < 2 ^ 10 }
    {
        self.spacecraft
    }

    /// Virtual channel identifier, 0 to 63.
    pub fn vc(&self) -> u8
        ensures value { result ≡ self.now.vc }
        ensures fits { result < 2 ^ 6 }
    {
        self.vc
    }

    /// Frame length field, 0 to 1023: the number of octets of the frame, minus 1.
    pub fn length(&self) -> u16
        ensures value { result ≡ self.now.length }
        ensures fits { result < 2 ^ 10 }
    {
        self.length
    }

    /// Frame sequence number N(S), 0 to 255.
    pub fn ns(&self) -> u8
        ensures { result ≡ self.now.ns }
    {
        self.ns
    }

    /// Writes the header as its five octets.
    pub fn write(&self) -> [u8; 5]
        // The octets read back as this header.
        ensures reads_back { tc_header result ≡ self.now }
        // No other five octets do.
        ensures only { (octets : List ℕ) → length octets ≡ 5 → IsOctets octets
            → tc_header octets ≡ self.now → octets ≡ result }
        // The octets are the fields, one after another.
        ensures octets { result ≡ tc_octets self.now }
    {
        let number = pack(&[
            (2, self.version as u64),
            (1, self.bypass as u64),
            (1, self.command as u64),
            (2, self.spare as u64),
            (10, self.spacecraft as u64),
            (6, self.vc as u64),
            (10, self.length as u64),
            (8, self.ns as u64),
        ]);
        let mut octets = [0; 5];
        BigEndian::write_uint(&mut octets, number, 5);
        octets
    }
}
