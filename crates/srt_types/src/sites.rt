//! What sessions are counted by: an IPv4 address, or the first 64 bits of an IPv6 address (our choice).

ghost use Rattle.std.specs.Prelude.{◌≡◌};
ghost use Rattle.srt_types.specs.Access.{site, is_same_site as are_of_a_site};

use crate::access::is_mapped;

/// Returns what an address is counted by: all 16 bytes of an IPv4 address, else the first 8.
fn site(ip: &[u8; 16]) -> &[u8]
    ensures { result.now ≡ site ip.now }
{
    if is_mapped(ip) { ip } else { &ip[..8] }
}

/// Whether two addresses are of the same site: they are the same IPv4 address, or IPv6 addresses that have their first
/// 64 bits in common.
pub fn is_same_site(a: &[u8; 16], b: &[u8; 16]) -> bool
    ensures { result ≡ are_of_a_site a.now b.now }
{
    site(a) == site(b)
}
