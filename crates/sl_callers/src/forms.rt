//! Callers whose own contracts say what the normal forms promise, and why a call is refused.
//!
//! The recordings are slices and what is written is a vector. Each caller answers `TooLong` only
//! where a recording, or a normal form that it normalises again, is longer than the managed limit,
//! and `Memory` where memory was refused. It has no other fault.
ghost use Rattle.std.specs.Prelude.{◌≡◌, ◌↔◌, IsTrue, IfOk, length, max};
ghost use Rattle.sl_engine.specs.Kind.Tm.{tm_packets};
ghost use Rattle.sl_engine.specs.Normalise.Tm.{tm_normal_form};
ghost use Rattle.sl_engine.specs.Kind.Tc.{tc_packets};
ghost use Rattle.sl_engine.specs.Normalise.Tc.{tc_normal_form};
ghost use Rattle.sl_callers.specs.Forms.{KeepsLimit};

use sl_link::{Counted, LinkFault, Managed, normalise_tc, normalise_tm};
use std::alloc::Global;

/// Whether two TM recordings deliver the same packets on each virtual channel, idle ones left out.
pub fn have_same_tm_packets(
    alloc: Global,
    managed: &Managed,
    one: &[u8],
    other: &[u8],
) -> Result<bool, LinkFault>
    ensures same { IfOk result (λ same. IsTrue same
        ↔ (tm_packets managed.now one.now ≡ tm_packets managed.now other.now)) }
    ensures within { KeepsLimit managed.now.max_octets (max (length one.now) (length other.now))
        result }
{
    let form = tm_form(alloc, managed, one)?;
    let other_form = tm_form(alloc, managed, other)?;
    Ok(form.as_slice() == other_form.as_slice())
}

/// The normal form of the normal form of a TM recording. It is the normal form of the recording: to
/// normalise twice is to normalise once. So clause `form` holds of one pass too, and clause
/// `within` alone refuses it, unless it compares the form's length with the limit: the fault is
/// `TooLong` also where the normal form is longer.
pub fn normalise_tm_twice(
    alloc: Global,
    managed: &Managed,
    recording: &[u8],
) -> Result<Vec<u8>, LinkFault>
    ensures form { IfOk result (λ form. form.items ≡ tm_normal_form managed.now recording.now) }
    ensures within { KeepsLimit managed.now.max_octets
        (max (length recording.now) (length (tm_normal_form managed.now recording.now))) result }
{
    let form = tm_form(alloc, managed, recording)?;
    tm_form(alloc, managed, form.as_slice())
}

// The normal form of a TM recording.
fn tm_form(alloc: Global, managed: &Managed, recording: &[u8]) -> Result<Vec<u8>, LinkFault>
    ensures form { IfOk result (λ form. form.items ≡ tm_normal_form managed.now recording.now) }
    ensures packets { IfOk result (λ form. tm_packets managed.now form.items
        ≡ tm_packets managed.now recording.now) }
    ensures within { KeepsLimit managed.now.max_octets (length recording.now) result }
{
    let mut reader = Counted::new(recording);
    let mut writer = Counted::new(Vec::new(alloc));
    match normalise_tm(alloc, managed, &mut reader, &mut writer) {
        Ok(_) => Ok(writer.into_inner()),
        Err(LinkFault::TooLong) => Err(LinkFault::TooLong),
        // A slice has no fault, and a vector only where memory is refused.
        Err(_) => Err(LinkFault::Memory),
    }
}

/// Whether FARM-1 lets the same packets of two TC recordings through on each virtual channel and
/// MAP, idle ones left out.
pub fn have_same_tc_packets(
    alloc: Global,
    managed: &Managed,
    one: &[u8],
    other: &[u8],
) -> Result<bool, LinkFault>
    ensures same { IfOk result (λ same. IsTrue same
        ↔ (tc_packets managed.now one.now ≡ tc_packets managed.now other.now)) }
    ensures within { KeepsLimit managed.now.max_octets (max (length one.now) (length other.now))
        result }
{
    let form = tc_form(alloc, managed, one)?;
    let other_form = tc_form(alloc, managed, other)?;
    Ok(form.as_slice() == other_form.as_slice())
}

/// The normal form of the normal form of a TC recording. It is the normal form of the recording: to
/// normalise twice is to normalise once. So clause `form` holds of one pass too, and clause
/// `within` alone refuses it, unless it compares the form's length with the limit: the fault is
/// `TooLong` also where the normal form is longer.
pub fn normalise_tc_twice(
    alloc: Global,
    managed: &Managed,
    recording: &[u8],
) -> Result<Vec<u8>, LinkFault>
    ensures form { IfOk result (λ form. form.items ≡ tc_normal_form managed.now recording.now) }
    ensures within { KeepsLimit managed.now.max_octets
        (max (length recording.now) (length (tc_normal_form managed.now recording.now))) result }
{
    let form = tc_form(alloc, managed, recording)?;
    tc_form(alloc, managed, form.as_slice())
}

// The normal form of a TC recording.
fn tc_form(alloc: Global, managed: &Managed, recording: &[u8]) -> Result<Vec<u8>, LinkFault>
    ensures form { IfOk result (λ form. form.items ≡ tc_normal_form managed.now recording.now) }
    ensures packets { IfOk result (λ form. tc_packets managed.now form.items
        ≡ tc_packets managed.now recording.now) }
    ensures within { KeepsLimit managed.now.max_octets (length recording.now) result }
{
    let mut reader = Counted::new(recording);
    let mut writer = Counted::new(Vec::new(alloc));
    match normalise_tc(alloc, managed, &mut reader, &mut writer) {
        Ok(_) => Ok(writer.into_inner()),
        Err(LinkFault::TooLong) => Err(LinkFault::TooLong),
        // A slice has no fault, and a vector only where memory is refused.
        Err(_) => Err(LinkFault::Memory),
    }
}
