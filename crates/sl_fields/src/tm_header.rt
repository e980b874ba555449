//! The primary header of a TM transfer frame.
ghost use Rattle.std.specs.Prelude.{◌≡◌, ℕ, ◌^◌, ◌<◌, ◌≤◌, List, length, SomeIff};
ghost use Rattle.sl_fields.specs.Field.{IsOctets};
ghost use Rattle.sl_fields.specs.TmHeader.{TmFields, tm_header, FitsTmHeader, packets_header};
ghost use Rattle.sl_fields.specs.TmHeader.{tm_octets};

use crate::bits::{field, flag, pack};
use byteorder::{BigEndian, ByteOrder};
use std::marker::Model;

/// The TM transfer frame primary header of CCSDS 132.0-B, six octets.
#[derive(Clone, Copy, Debug, PartialEq, Eq)]
pub struct TmHeader {
    // The fields in their order. The method of the same name describes each field. `control` is the
    // operational control field flag, `mc` the master channel frame count, and `vcc` that of the
    // virtual channel `vc`.
    version: u8,
    spacecraft: u16,
    vc: u8,
    control: bool,
    mc: u8,
    vcc: u8,
    secondary: bool,
    sync: bool,
    order: bool,
    segment: u8,
    first: u16,
}

impl Model for TmHeader {
    ghost use Rattle.sl_fields.specs.TmHeader.{TmFields};

    ghost Value = { TmFields };

    ghost use Rattle.sl_fields.specs.TmHeaderModel.{fields_of, inside_of, IsTmHeader};

    ghost view = { fields_of };

    ghost invariant = { IsTmHeader };

    ghost inverse = { inside_of };
}

impl TmHeader {
    /// The header with these fields, or `None` where a field is out of its range. The range of
    /// `version` and `segment` is 0 to 3, of `spacecraft` 0 to 1023, of `vc` 0 to 7, and of `first`
    /// 0 to 2047. Any `mc`, the master channel frame count, and any `vcc`, the virtual channel
    /// frame count, are in range.
    pub fn new(
        version: u8,
        spacecraft: u16,
        vc: u8,
        control: bool,
        mc: u8,
        vcc: u8,
        secondary: bool,
        sync: bool,
        order: bool,
        segment: u8,
        first: u16,
    ) -> Option<TmHeader>
        ensures { let fields : TmFields = record {
          version = version;
          spacecraft = spacecraft;
          vc = vc;
          control = control;
          mc = mc;
          vcc = vcc;
          secondary = secondary;
          sync = sync;
          order = order;
          segment = segment;
          first = first;
        } in SomeIff result (FitsTmHeader fields) fields }
    {
        let fits = version < 4 && spacecraft < 1024 && vc < 8 && segment < 4 && first < 2048;
        if !fits {
            return None;
        }
        Some(TmHeader {
            version,
            spacecraft,
            vc,
            control,
            mc,
            vcc,
            secondary,
            sync,
            order,
            segment,
            first,
        })
    }

    /// The header of a frame of packets: version 0, no operational control field, no secondary
    /// header, synchronisation flag 0, packet order flag 0 and segment length identifier 3.
    ///
    /// `spacecraft` is 0 to 1023 and `vc` 0 to 7. `mc` is the master channel frame count and `vcc`
    /// the virtual channel frame count, both 0 to 255. `first` is the first header pointer, 0 to
    /// 2047: 2047 where no packet starts in the frame. 2046, for only idle data, isn't refused.
    pub fn of_packets(spacecraft: u16, vc: u8, mc: u8, vcc: u8, first: u16) -> TmHeader
        requires spacecraft { spacecraft ≤ 1023 }
        requires vc { vc ≤ 7 }
        requires first { first ≤ 2047 }
        ensures { result ≡ packets_header spacecraft vc mc vcc first }
    {
        TmHeader {
            version: 0,
            spacecraft,
            vc,
            control: false,
            mc,
            vcc,
            secondary: false,
            sync: false,
            order: false,
            segment: 3,
            first,
        }
    }

    /// Reads the header from its six octets. Any six octets are read: the version, 0 for a TM
    /// transfer frame, isn't checked.
    pub fn read(octets: &[u8; 6]) -> TmHeader
        ensures { result ≡ tm_header octets.now }
    {
        let number = BigEndian::read_u48(octets);
        TmHeader {
            version: field(number, 46, 2) as u8,
            spacecraft: field(number, 36, 10) as u16,
            vc: field(number, 33, 3) as u8,
            control: flag(number, 32),
            mc: field(number, 24, 8) as u8,
            vcc: field(number, 16, 8) as u8,
            secondary: flag(number, 15),
            sync: flag(number, 14),
            order: flag(number, 13),
            segment: field(number, 11, 2) as u8,
            first: field(number, 0, 11) as u16,
        }
    }

    /// Transfer frame version number, 0 to 3: 0 for a TM transfer frame.
    pub fn version(&self) -> u8
        ensures value { result ≡ self.now.version }
        ensures fits { result < 2 ^ 2 }
    {
        self.version
    }

    /// Spacecraft identifier, 0 to 1023.
    pub fn spacecraft(&self) -> u16
        ensures value { result ≡ self.now.spacecraft }
        ensures fits { result < 2 ^ 10 }
    {
        self.spacecraft
    }

    /// Virtual channel identifier, 0 to 7.
    pub fn vc(&self) -> u8
        ensures value { result ≡ self.now.vc }
        ensures fits { result < 2 ^ 3 }
    {
        self.vc
    }

    /// Operational control field flag: whether the frame has an operational control field.
    pub fn control(&self) -> bool
        ensures { result ≡ self.now.control }
    {
        self.control
    }

    /// Master channel frame count, 0 to 255.
    pub fn mc(&self) -> u8
        ensures { result ≡ self.now.mc }
    {
        self.mc
    }

    /// Virtual channel frame count, 0 to 255.
    pub fn vcc(&self) -> u8
        ensures { result ≡ self.now.vcc }
    {
        self.vcc
    }

    /// Transfer frame secondary header flag: whether the frame has a secondary header.
    pub fn secondary(&self) -> bool
        ensures { result ≡ self.now.secondary }
    {
        self.secondary
    }

    /// Synchronisation flag: false where the data field has packets or only idle data, true where
    /// the data field has other data.
    pub fn sync(&self) -> bool
        ensures { result ≡ self.now.sync }
    {
        self.sync
    }

    /// Packet order flag: false in a frame of packets, by CCSDS 132.0-B.
    pub fn order(&self) -> bool
        ensures { result ≡ self.now.order }
    {
        self.order
    }

    /// Segment length identifier, 0 to 3: 3 in a frame of packets, by CCSDS 132.0-B.
    pub fn segment(&self) -> u8
        ensures value { result ≡ self.now.segment }
        ensures fits { result < 2 ^ 2 }
    {
        self.segment
    }

    /// First header pointer, 0 to 2047: the offset in octets from the start of the data field to
    /// the first packet that starts there, 2046 where the frame has only idle data, 2047 where no
    /// packet starts in the frame.
    pub fn first(&self) -> u16
        ensures value { result ≡ self.now.first }
        ensures fits { result < 2 ^ 11 }
    {
        self.first
    }

    /// Writes the header as its six octets.
    pub fn write(&self) -> [u8; 6]
        // The octets read back as this header.
        ensures reads_back { tm_header result ≡ self.now }
        // No other six octets do.
        ensures only { (octets : List ℕ) → length octets ≡ 6 → IsOctets octets
            → tm_header octets ≡ self.now → octets ≡ result }
        // The octets are the fields, one after another.
        ensures octets { result ≡ tm_octets self.now }
    {
        let number = pack(&[
            (2, self.version as u64),
            (10, self.spacecraft as u64),
            (3, self.vc as u64),
            (1, self.control as u64),
            (8, self.mc as u64),
            (8, self.vcc as u64),
            (1, self.secondary as u64),
            (1, self.sync as u64),
            (1, self.order as u64),
            (2, self.segment as u64),
            (11, self.first as u64),
        ]);
        let mut octets = [0; 6];
        BigEndian::write_uint(&mut octets, number, 6);
        octets
    }
}
