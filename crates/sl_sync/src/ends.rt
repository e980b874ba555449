//! What is behind the first octets.
ghost use Rattle.std.specs.Prelude.{◌≡◌, drop};

/// The octets behind the first `count`; where there are no more than these, none.
pub fn behind(octets: &[u8], count: usize) -> &[u8]
    ensures { result.now ≡ drop count octets.now }
{
    &octets[count.min(octets.len())..]
}
