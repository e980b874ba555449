//! The frame error control field.
ghost use Rattle.std.specs.Prelude.{◌≡◌};
ghost use Rattle.sl_fields.specs.Fecf.{fecf_of, fecf_is_good};

/// The frame error control field that stands after these octets of a frame.
#[unsafe(no_mangle)]
pub extern "C" fn sllink_fecf(octets: &[u8]) -> u16
    ensures { result ≡ fecf_of octets.now }
{
    sl_fields::fecf(octets)
}

/// Whether there are three octets or more and the last two are the frame error control field of
/// those before them.
#[unsafe(no_mangle)]
pub extern "C" fn sllink_fecf_good(octets: &[u8]) -> bool
    ensures { result ≡ fecf_is_good octets.now }
{
    sl_fields::fecf_good(octets)
}
