//! Runs of packets that only one recording has.
ghost use Rattle.std.specs.Prelude.{◌≡◌};
ghost use Rattle.sl_pair.specs.Runs.{first_run, goes_on};

use crate::left::Left;

/// The sequence count after the last one is 0.
const COUNTS: u16 = 16384;

/// How many packets the first run has: packets of one APID, each the next of that APID in its
/// recording with the next sequence count (CCSDS 133.0-B).
pub fn first_run(left: &[Left]) -> usize
    ensures { result ≡ first_run left.now }
{
    if left.is_empty() {
        return 0;
    }
    let mut packets = 1;
    while packets < left.len() && goes_on(&left[packets - 1], &left[packets]) {
        packets += 1;
    }
    packets
}

// Whether a packet goes on with the run of another one.
fn goes_on(one: &Left, next: &Left) -> bool
    ensures { result ≡ goes_on one.now next.now }
{
    next.apid() == one.apid()
        && one.apid_number().checked_add(1) == Some(next.apid_number())
        && next.count() == (one.count() + 1) % COUNTS
}
