//! Numbers from 0 to 255 as decimal text.
ghost use Rattle.std.specs.Prelude.{◌≡◌, ◌≤◌, ℕ, IfSome, Some};
ghost use Rattle.std.specs.Fmt.{decimal};

/// Reads a number, 0 to 255, from decimal text without leading zeros; `None` for any other text.
pub fn read_decimal(text: &str) -> Option<u8>
    ensures number { IfSome result (λ n. text.now ≡ decimal n) }
    ensures every { (n : ℕ) → n ≤ 255 → text.now ≡ decimal n → result ≡ Some n }
{
    // `parse` takes a plus sign and leading zeros too. Both `+` and `0` are below `1`.
    if text.len() > 1 && text.as_bytes()[0] < b'1' {
        return None;
    }
    text.parse::<u8>().ok()
}
