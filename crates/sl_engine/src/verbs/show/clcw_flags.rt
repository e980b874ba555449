//! The text of a CLCW's flags and FARM-B counter.
ghost use Rattle.std.specs.Prelude.{◌≡◌, ◌+◌, ◌*◌, ◌<◌};
ghost use Rattle.sl_fields.specs.Field.{bit_of};
ghost use Rattle.sl_engine.specs.Verbs.Show.Tm.{clcw_flags_text};

use sl_fields::Clcw;

/// What a line says of a CLCW between its virtual channel and its report value.
#[inline(always)]
pub fn flags_text(clcw: &Clcw) -> [u8; 42]
    ensures { result ≡ clcw_flags_text clcw.now }
{
    TEXTS[usize::from(flags_number(clcw))]
}

// The flags Lockout, Wait and Retransmit and the FARM-B counter as five bits.
#[inline(always)]
fn flags_number(clcw: &Clcw) -> u8
    ensures number { result ≡ 16 * bit_of clcw.now.lockout + 8 * bit_of clcw.now.wait
        + 4 * bit_of clcw.now.retransmit + clcw.now.farm_b }
    ensures fits { result < 32 }
    ensures counter { clcw.now.farm_b < 4 }
{
    16 * u8::from(clcw.lockout())
        + 8 * u8::from(clcw.wait())
        + 4 * u8::from(clcw.retransmit())
        + clcw.farm_b()
}

// The text of each such number.
static TEXTS: [[u8; 42]; 32] = [
    *b" lockout 0 wait 0 retransmit 0 farmb 0 vr ",
    *b" lockout 0 wait 0 retransmit 0 farmb 1 vr ",
    *b" lockout 0 wait 0 retransmit 0 farmb 2 vr ",
    *b" lockout 0 wait 0 retransmit 0 farmb 3 vr ",
    *b" lockout 0 wait 0 retransmit 1 farmb 0 vr ",
    *b" lockout 0 wait 0 retransmit 1 farmb 1 vr ",
    *b" lockout 0 wait 0 retransmit 1 farmb 2 vr ",
    *b" lockout 0 wait 0 retransmit 1 farmb 3 vr ",
    *b" lockout 0 wait 1 retransmit 0 farmb 0 vr ",
    *b" lockout 0 wait 1 retransmit 0 farmb 1 vr ",
    *b" lockout 0 wait 1 retransmit 0 farmb 2 vr ",
    *b" lockout 0 wait 1 retransmit 0 farmb 3 vr ",
    *b" lockout 0 wait 1 retransmit 1 farmb 0 vr ",
    *b" lockout 0 wait 1 retransmit 1 farmb 1 vr ",
    *b" lockout 0 wait 1 retransmit 1 farmb 2 vr ",
    *b" lockout 0 wait 1 retransmit 1 farmb 3 vr ",
    *b" lockout 1 wait 0 retransmit 0 farmb 0 vr ",
    *b" lockout 1 wait 0 retransmit 0 farmb 1 vr ",
    *b" lockout 1 wait 0 retransmit 0 farmb 2 vr ",
    *b" lockout 1 wait 0 retransmit 0 farmb 3 vr ",
    *b" lockout 1 wait 0 retransmit 1 farmb 0 vr ",
    *b" lockout 1 wait 0 retransmit 1 farmb 1 vr ",
    *b" lockout 1 wait 0 retransmit 1 farmb 2 vr ",
    *b" lockout 1 wait 0 retransmit 1 farmb 3 vr ",
    *b" lockout 1 wait 1 retransmit 0 farmb 0 vr ",
    *b" lockout 1 wait 1 retransmit 0 farmb 1 vr ",
    *b" lockout 1 wait 1 retransmit 0 farmb 2 vr ",
    *b" lockout 1 wait 1 retransmit 0 farmb 3 vr ",
    *b" lockout 1 wait 1 retransmit 1 farmb 0 vr ",
    *b" lockout 1 wait 1 retransmit 1 farmb 1 vr ",
    *b" lockout 1 wait 1 retransmit 1 farmb 2 vr ",
    *b" lockout 1 wait 1 retransmit 1 farmb 3 vr ",
];
