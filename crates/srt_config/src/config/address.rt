//! Addresses with a port.

ghost use Rattle.std.specs.Prelude.{◌≡◌, ◌^◌, ◌<◌, option_map, IfSome};
ghost use Rattle.std.specs.Option.{option_copied};
ghost use Rattle.std.specs.Net.Addr.{ipv6_segments};
ghost use Rattle.std.specs.Net.Reader.{whole_value, read_ipv6};
ghost use Rattle.srt_config.specs.Address.{octet_to, behind, has_byte, ipv6_in, ipv4_address_in, ipv6_address_in, address_in};
ghost use Rattle.srt_config.specs.AddressParts.{octet_seen, address_of};

use crate::numbers::read_number;
use crate::splitting::parted;
use srt_types::is_mapped;
use std::net::Ipv6Addr;

/// An address and a port.
#[derive(Clone, Copy, Debug, PartialEq, Eq)]
pub struct BindAddress {
    /// The 16 bytes of the IPv6 address, in network byte order. An IPv4 address has the form `::ffff:a.b.c.d`, and no
    /// other address that is read has it.
    pub ip: [u8; 16],
    /// The port; 0 if the system may choose one.
    pub port: u16,
}

/// An octet, and the text after the byte that ends it.
#[derive(Clone, Copy)]
pub(crate) struct Octet<'a> {
    /// The octet's value.
    pub(crate) octet: u8,
    /// The text after the octet and its end.
    pub(crate) behind: &'a [u8],
}

/// Reads the octet before the first byte of this value, in decimal digits without leading zeros, and the text after that
/// byte; None if the text has another form.
#[tactic(auto, unfolding(crate::specs::Address::octet_to))]
pub(crate) fn octet_to(end: u8, text: &[u8]) -> Option<Octet<'_>>
    ensures { option_map octet_seen result ≡ octet_to end text.now }
{
    let parts = parted(end, text)?;
    let octet = read_number(parts.before, 256)?;
    Some(Octet {
        octet: octet as u8,
        behind: parts.behind,
    })
}

/// Returns the text after this byte, if the text begins with it.
fn behind(first: u8, text: &[u8]) -> Option<&[u8]>
    ensures { option_copied result ≡ behind first text.now }
{
    match text {
        [byte, rest @ ..] if *byte == first => Some(rest),
        _ => None,
    }
}

/// Whether the text has this byte.
pub(crate) fn has_byte(byte: u8, text: &[u8]) -> bool
    ensures { result ≡ has_byte byte text.now }
{
    text.iter().any(|b| *b == byte)
}

/// Reads groups as they stand in an IPv6 address.
fn read_groups(text: &[u8]) -> Option<Ipv6Addr>
    ensures { option_map ipv6_segments result ≡ whole_value (read_ipv6 text.now) }
{
    match Ipv6Addr::parse_ascii(text) {
        Ok(address) => Some(address),
        Err(_) => None,
    }
}

/// Reads an IPv6 address without a zone or a dotted end, as its 16 bytes; None if the text has another form, or is that of
/// an IPv4 address, `::ffff:0:0/96`.
#[tactic(auto, unfolding(crate::specs::Address::ipv6_in))]
pub(crate) fn ipv6_in(text: &[u8]) -> Option<[u8; 16]>
    ensures { result ≡ ipv6_in text.now }
{
    if has_byte(b'.', text) {
        return None;
    }
    let ip = read_groups(text)?.octets();
    if is_mapped(&ip) { None } else { Some(ip) }
}

/// Reads `a.b.c.d:port` in decimal digits without leading zeros; None if the text has another form.
#[tactic(auto, unfolding(crate::specs::Address::ipv4_address_in))]
fn read_ipv4_address(text: &[u8]) -> Option<BindAddress>
    ensures { option_map address_of result ≡ ipv4_address_in text.now }
{
    let a = octet_to(b'.', text)?;
    let b = octet_to(b'.', a.behind)?;
    let c = octet_to(b'.', b.behind)?;
    let d = octet_to(b':', c.behind)?;
    let port = read_number(d.behind, 1 << 16)?;
    Some(BindAddress {
        ip: [
            0, 0, 0, 0, 0, 0, 0, 0, 0, 0, 255, 255, a.octet, b.octet, c.octet, d.octet,
        ],
        port: port as u16,
    })
}

/// Reads `X]:port` with an IPv6 address X and a port in decimal digits without leading zeros; None if the text has another
/// form.
#[tactic(auto, unfolding(crate::specs::Address::ipv6_address_in))]
fn read_ipv6_address(text: &[u8]) -> Option<BindAddress>
    ensures { option_map address_of result ≡ ipv6_address_in text.now }
{
    let parts = parted(b']', text)?;
    let ip = ipv6_in(parts.before)?;
    let port = read_number(behind(b':', parts.behind)?, 1 << 16)?;
    Some(BindAddress {
        ip,
        port: port as u16,
    })
}

/// Reads `a.b.c.d:port` or `[X]:port`, with an IPv6 address X; None if the text has another form.
#[tactic(auto, unfolding(crate::specs::Address::address_in))]
pub(crate) fn read_address(text: &[u8]) -> Option<BindAddress>
    ensures { option_map address_of result ≡ address_in text.now }
{
    match behind(b'[', text) {
        Some(rest) => read_ipv6_address(rest),
        None => read_ipv4_address(text),
    }
}
