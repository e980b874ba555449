//! The managed parameters of a link, and what is counted in a recording, as C has them.
ghost use Rattle.std.specs.Prelude.{◌≡◌};
ghost use Rattle.sl_tcframe.specs.VcSetModel.{numbers_from};
ghost use Rattle.sl_c.specs.Link.{counts_of_totals, reading_of, refusal_of};

use crate::answer::Answer;
use sl_cop::Starts;
use sl_link::{Managed, ManagedFault, Totals};
use sl_tcframe::VcSet;

/// How many virtual channels of TC frames there are.
const VIRTUAL_CHANNELS: usize = 64;

/// The managed parameters of a link, in the ranges of [`Managed::new`]. `vr` has the initial V(R)
/// of each virtual channel of TC frames, and `plain` whether the frames of a virtual channel have
/// no segment headers.
#[repr(C)]
#[derive(Clone, Copy)]
pub struct ManagedFields {
    pub spacecraft: u16,
    pub tm_length: u16,
    pub tc_length: u16,
    pub tm_fecf: bool,
    pub tc_fecf: bool,
    pub window: u8,
    pub vr: [u8; 64],
    pub plain: [bool; 64],
    pub limit: u64,
}

/// What is counted in a recording, as [`Totals`] has it.
#[repr(C)]
#[derive(Clone, Copy)]
pub struct TotalsFields {
    pub octets: u64,
    pub frames: u64,
    pub skipped: u64,
    pub rest: u64,
    pub packets: u64,
    pub idle: u64,
    pub anomalies: u64,
}

/// The managed parameters, where recordings of at most `octets` octets are to be read. Or why they
/// aren't read: the answer for the first parameter that is refused, or `TooLong` where `octets` is
/// over the limit.
pub fn managed_for(fields: &ManagedFields, octets: usize) -> Result<Managed, Answer>
    ensures { result ≡ reading_of fields.now octets }
{
    // V(R) is 0 here, and that of each virtual channel is set below.
    let managed = match Managed::new(
        fields.spacecraft,
        fields.tm_length,
        fields.tm_fecf,
        fields.tc_length,
        fields.tc_fecf,
        fields.window,
        0,
        fields.limit,
    ) {
        Ok(managed) => managed,
        Err(fault) => return Err(refusal(fault)),
    };
    if octets as u64 > fields.limit {
        return Err(Answer::TooLong);
    }
    Ok(
        managed
            .with_plain(plain_of(&fields.plain))
            .with_starts(initial_vrs(&fields.vr)),
    )
}

/// The totals of a recording as C has them.
pub fn totals_fields(totals: &Totals) -> TotalsFields
    ensures { counts_of_totals result ≡ totals.now }
{
    TotalsFields {
        octets: totals.octets(),
        frames: totals.frames(),
        skipped: totals.skipped(),
        rest: totals.rest(),
        packets: totals.packets(),
        idle: totals.idle(),
        anomalies: totals.anomalies(),
    }
}

// The answer where a managed parameter is refused.
fn refusal(fault: ManagedFault) -> Answer
    ensures { result ≡ refusal_of fault }
{
    match fault {
        ManagedFault::Spacecraft => Answer::Spacecraft,
        ManagedFault::TmLength => Answer::TmLength,
        ManagedFault::TcLength => Answer::TcLength,
        ManagedFault::Window => Answer::Window,
        ManagedFault::Limit => Answer::Limit,
    }
}

// The virtual channels whose flag is set, from the last flag to the first: a number is put before
// greater ones.
fn plain_of(flags: &[bool; 64]) -> VcSet
    ensures { result ≡ numbers_from 0 flags.now }
{
    let mut plain = VcSet::new();
    for below in 0..VIRTUAL_CHANNELS {
        let vc = VIRTUAL_CHANNELS - 1 - below;
        if flags[vc] {
            plain = plain.with(vc as u8);
        }
    }
    plain
}

// The initial V(R) of each virtual channel, as `Starts` has them.
fn initial_vrs(vrs: &[u8; 64]) -> Starts
    ensures { result ≡ vrs.now }
{
    let mut starts = Starts::all(0);
    for vc in 0..VIRTUAL_CHANNELS {
        starts = starts.with(vc as u8, vrs[vc]);
    }
    starts
}
