//! The form of a route's name, which is our choice.

ghost use Rattle.std.specs.Prelude.{◌≡◌};
ghost use Rattle.std.specs.List.{list_all};
ghost use Rattle.srt_types.specs.Entries.{is_name_byte, is_name};

use crate::entries::is_between;
use crate::product_limits::MAX_NAME;

fn is_name_byte(byte: u8) -> bool
    ensures { result ≡ is_name_byte byte }
{
    (b'a'..=b'z').contains(&byte)
        || (b'A'..=b'Z').contains(&byte)
        || (b'0'..=b'9').contains(&byte)
        || (b'-'..=b'/').contains(&byte)
        || byte == b'_'
}

fn are_name_bytes(bytes: &[u8]) -> bool
    ensures { result ≡ list_all is_name_byte bytes.now }
{
    bytes.iter().all(|b| is_name_byte(*b))
}

/// Whether these bytes are a valid route name: 1 to 64 bytes, each an ASCII letter or digit, `-`, `_`, `.` or `/`.
/// Linear in the length.
pub fn is_name(name: &[u8]) -> bool
    ensures { result ≡ is_name name.now }
{
    is_between(1, MAX_NAME, name.len()) && are_name_bytes(name)
}
