//! A text split at the first byte of some value.

ghost use Rattle.std.specs.Prelude.{◌≡◌, ◌≤◌, length, option_map, IfSome};
ghost use Rattle.srt_config.specs.Address.{parted};
ghost use Rattle.srt_config.specs.AddressParts.{both};

use memchr::memchr;

/// A text split at the first byte of some value, which belongs to neither part.
#[derive(Clone, Copy)]
pub struct Parts<'a> {
    /// The text before the byte.
    pub before: &'a [u8],
    /// The text after the byte.
    pub behind: &'a [u8],
}

/// Splits the text at its first byte of this value; None if it has none. Linear in the length of the part before it.
pub fn parted(at: u8, text: &[u8]) -> Option<Parts<'_>>
    ensures parts { option_map both result ≡ parted at text.now }
    ensures before_within { IfSome result (λ p. length p.before.now ≤ length text.now) }
    ensures behind_within { IfSome result (λ p. length p.behind.now ≤ length text.now) }
{
    match memchr(at, text) {
        Some(k) => Some(Parts {
            before: &text[..k],
            behind: &text[k + 1..],
        }),
        None => None,
    }
}
