//! Splits a slice after its first octets, or before its last octets.
ghost use Rattle.std.specs.Prelude.{◌≡◌, ◌-◌, ◌≤◌, length, take, drop};

/// Returns the first `N` octets, and the octets after them. `octets` has `N` octets or more.
#[inline(always)]
pub fn front<const N: usize>(octets: &[u8]) -> (&[u8; N], &[u8])
    requires { N ≤ length octets.now }
    ensures front { result.0.now ≡ take N octets.now }
    ensures behind { result.1.now ≡ drop N octets.now }
{
    octets.split_first_chunk::<N>().unwrap()
}

/// Returns the octets before the last `N`, and the last `N`. `octets` has `N` octets or more.
#[inline(always)]
pub fn back<const N: usize>(octets: &[u8]) -> (&[u8], &[u8; N])
    requires { N ≤ length octets.now }
    ensures before { result.0.now ≡ take (length octets.now - N) octets.now }
    ensures back { result.1.now ≡ drop (length octets.now - N) octets.now }
{
    octets.split_last_chunk::<N>().unwrap()
}
