//! The Communications Link Control Word.
ghost use Rattle.std.specs.Prelude.{◌≡◌, ℕ, ◌^◌, ◌<◌, ◌≤◌, List, length, SomeIff};
ghost use Rattle.sl_fields.specs.Field.{IsOctets};
ghost use Rattle.sl_fields.specs.Clcw.{ClcwFields, clcw_word, farm_word, FitsClcw, clcw_octets};

use crate::bits::{field, flag, pack};
use byteorder::{BigEndian, ByteOrder};
use std::marker::Model;

/// The Communications Link Control Word (CLCW) of CCSDS 232.0-B, four octets.
#[derive(Clone, Copy, Debug, PartialEq, Eq)]
pub struct Clcw {
    // The fields in their order. The method of the same name describes each field: `word` is the
    // control word type (not the whole word), `spare_end` the spare bit before the report value.
    word: u8,
    version: u8,
    status: u8,
    cop: u8,
    vc: u8,
    spare: u8,
    no_rf: bool,
    no_lock: bool,
    lockout: bool,
    wait: bool,
    retransmit: bool,
    farm_b: u8,
    spare_end: bool,
    report: u8,
}

impl Model for Clcw {
    ghost use Rattle.sl_fields.specs.Clcw.{ClcwFields};

    ghost Value = { ClcwFields };

    ghost use Rattle.sl_fields.specs.ClcwModel.{fields_of, inside_of, IsClcw};

    ghost view = { fields_of };

    ghost invariant = { IsClcw };

    ghost inverse = { inside_of };
}

impl Clcw {
    /// The CLCW with these fields, or `None` where a field is out of its range. The range of
    /// `word`, the control word type, is 0 to 1; of `version`, `cop`, `spare` and `farm_b` 0 to 3;
    /// of `status` 0 to 7; of `vc` 0 to 63. Any `report` is in range.
    pub fn new(
        word: u8,
        version: u8,
        status: u8,
        cop: u8,
        vc: u8,
        spare: u8,
        no_rf: bool,
        no_lock: bool,
        lockout: bool,
        wait: bool,
        retransmit: bool,
        farm_b: u8,
        spare_end: bool,
        report: u8,
    ) -> Option<Clcw>
        ensures { let fields : ClcwFields = record {
          word = word;
          version = version;
          status = status;
          cop = cop;
          vc = vc;
          spare = spare;
          no_rf = no_rf;
          no_lock = no_lock;
          lockout = lockout;
          wait = wait;
          retransmit = retransmit;
          farm_b = farm_b;
          spare_end = spare_end;
          report = report;
        } in SomeIff result (FitsClcw fields) fields }
    {
        let first_octet_fits = word < 2 && version < 4 && status < 8 && cop < 4;
        if !first_octet_fits || vc >= 64 || spare >= 4 || farm_b >= 4 {
            return None;
        }
        Some(Clcw {
            word,
            version,
            status,
            cop,
            vc,
            spare,
            no_rf,
            no_lock,
            lockout,
            wait,
            retransmit,
            farm_b,
            spare_end,
            report,
        })
    }

    /// The CLCW that reports the state of FARM-1 on the virtual channel `vc`, 0 to 63. The COP in
    /// effect is 1, which is COP-1. The control word type, the CLCW version, the status, the spare
    /// bits and the flags No RF Available, No Bit Lock and Wait are 0. This project's FARM-1 never
    /// reaches the wait state.
    ///
    /// `lockout` and `retransmit` are the flags of these names, `farm_b` is the FARM-B counter, 0
    /// to 3, and `report` is V(R), 0 to 255.
    pub fn of_farm(vc: u8, lockout: bool, retransmit: bool, farm_b: u8, report: u8) -> Clcw
        requires vc { vc ≤ 63 }
        requires farm_b { farm_b ≤ 3 }
        ensures { result ≡ farm_word vc lockout retransmit farm_b report }
    {
        Clcw {
            word: 0,
            version: 0,
            status: 0,
            cop: 1,
            vc,
            spare: 0,
            no_rf: false,
            no_lock: false,
            lockout,
            wait: false,
            retransmit,
            farm_b,
            spare_end: false,
            report,
        }
    }

    /// Reads the word from its four octets. Any four octets are read: the control word type, 0 for
    /// a CLCW, isn't checked.
    pub fn read(octets: &[u8; 4]) -> Clcw
        ensures { result ≡ clcw_word octets.now }
    {
        let number = u64::from(BigEndian::read_u32(octets));
        Clcw {
            word: field(number, 31, 1) as u8,
            version: field(number, 29, 2) as u8,
            status: field(number, 26, 3) as u8,
            cop: field(number, 24, 2) as u8,
            vc: field(number, 18, 6) as u8,
            spare: field(number, 16, 2) as u8,
            no_rf: flag(number, 15),
            no_lock: flag(number, 14),
            lockout: flag(number, 13),
            wait: flag(number, 12),
            retransmit: flag(number, 11),
            farm_b: field(number, 9, 2) as u8,
            spare_end: flag(number, 8),
            report: field(number, 0, 8) as u8,
        }
    }

    /// Control word type, the first bit of the word, 0 or 1: 0 for a CLCW.
    pub fn word(&self) -> u8
        ensures value { result ≡ self.now.word }
        ensures fits { result < 2 ^ 1 }
    {
        self.word
    }

    /// CLCW version number, 0 to 3.
    pub fn version(&self) -> u8
        ensures value { result ≡ self.now.version }
        ensures fits { result < 2 ^ 2 }
    {
        self.version
    }

    /// Status field, 0 to 7.
    pub fn status(&self) -> u8
        ensures value { result ≡ self.now.status }
        ensures fits { result < 2 ^ 3 }
    {
        self.status
    }

    /// COP in effect, 0 to 3: 1 for COP-1.
    pub fn cop(&self) -> u8
        ensures value { result ≡ self.now.cop }
        ensures fits { result < 2 ^ 2 }
    {
        self.cop
    }

    /// Virtual channel identification, 0 to 63.
    pub fn vc(&self) -> u8
        ensures value { result ≡ self.now.vc }
        ensures fits { result < 2 ^ 6 }
    {
        self.vc
    }

    /// Reserved spare, 0 to 3.
    pub fn spare(&self) -> u8
        ensures value { result ≡ self.now.spare }
        ensures fits { result < 2 ^ 2 }
    {
        self.spare
    }

    /// No RF Available flag: whether the radio frequency channel isn't available.
    pub fn no_rf(&self) -> bool
        ensures { result ≡ self.now.no_rf }
    {
        self.no_rf
    }

    /// No Bit Lock flag: whether bit lock is missing.
    pub fn no_lock(&self) -> bool
        ensures { result ≡ self.now.no_lock }
    {
        self.no_lock
    }

    /// Lockout flag: whether FARM-1 is in the lockout state.
    pub fn lockout(&self) -> bool
        ensures { result ≡ self.now.lockout }
    {
        self.lockout
    }

    /// Wait flag: whether FARM-1 is in the wait state.
    pub fn wait(&self) -> bool
        ensures { result ≡ self.now.wait }
    {
        self.wait
    }

    /// Retransmit flag: whether frames of type AD are asked for again.
    pub fn retransmit(&self) -> bool
        ensures { result ≡ self.now.retransmit }
    {
        self.retransmit
    }

    /// FARM-B counter, 0 to 3: accepted frames of types BD and BC, modulo 4.
    pub fn farm_b(&self) -> u8
        ensures value { result ≡ self.now.farm_b }
        ensures fits { result < 2 ^ 2 }
    {
        self.farm_b
    }

    /// Reserved spare, the one bit before the report value.
    pub fn spare_end(&self) -> bool
        ensures { result ≡ self.now.spare_end }
    {
        self.spare_end
    }

    /// Report value N(R), 0 to 255: the V(R) of FARM-1, which is the frame sequence number that is
    /// expected next.
    pub fn report(&self) -> u8
        ensures { result ≡ self.now.report }
    {
        self.report
    }

    /// Writes the word as its four octets.
    pub fn write(&self) -> [u8; 4]
        // The octets read back as this word.
        ensures reads_back { clcw_word result ≡ self.now }
        // No other four octets do.
        ensures only { (octets : List ℕ) → length octets ≡ 4 → IsOctets octets
            → clcw_word octets ≡ self.now → octets ≡ result }
        // The octets are the fields, one after another.
        ensures octets { result ≡ clcw_octets self.now }
    {
        let number = pack(&[
            (1, self.word as u64),
            (2, self.version as u64),
            (3, self.status as u64),
            (2, self.cop as u64),
            (6, self.vc as u64),
            (2, self.spare as u64),
            (1, self.no_rf as u64),
            (1, self.no_lock as u64),
            (1, self.lockout as u64),
            (1, self.wait as u64),
            (1, self.retransmit as u64),
            (2, self.farm_b as u64),
            (1, self.spare_end as u64),
            (8, self.report as u64),
        ]);
        let mut octets = [0; 4];
        BigEndian::write_uint(&mut octets, number, 4);
        octets
    }
}
