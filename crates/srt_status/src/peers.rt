//! A caller's address and port in a text.

ghost use Rattle.std.specs.Prelude.{◌≡◌, ◌+◌, ◌<◌, ◌≤◌, ◌++◌, length, OnOk};
ghost use Rattle.std.specs.Net.Text.{leading_zero_digits, hex, groups_text, longest_zero_run, hex_groups_text};
ghost use Rattle.srt_status.specs.Peers.{next_group, next_groups, ip_text, ipv4_text, ipv6_text, peer_text};

use crate::text::{hex_digit, put, put_number};
use srt_types::{Peer, is_mapped};
use std::alloc::AllocError;
use std::net::Ipv6Addr;

#[tactic(auto, using(crate::proofs::Puts::joined), unfolding(crate::specs::Peers::ipv4_text))]
fn put_ipv4(out: &mut Vec<u8>, ip: [u8; 4]) -> Result<(), AllocError>
    ensures { OnOk result (out.new.items ≡ out.old.items ++ ipv4_text ip) }
{
    let [a, b, c, d] = ip;
    put_number(out, u64::from(a))?;
    put(out, b".")?;
    put_number(out, u64::from(b))?;
    put(out, b".")?;
    put_number(out, u64::from(c))?;
    put(out, b".")?;
    put_number(out, u64::from(d))
}

/// How many of a group's first three hexadecimal digits are zeros ahead of its first other one.
fn leading_zero_digits(group: u16) -> usize
    ensures value { result ≡ leading_zero_digits group }
    ensures within { result < 4 }
{
    match group {
        0x1000.. => 0,
        0x100.. => 1,
        0x10.. => 2,
        _ => 3,
    }
}

/// Puts a group of an IPv6 address in hexadecimal digits, without leading zeros.
#[tactic(auto, unfolding(std::specs::Net::Text::hex))]
fn put_group(out: &mut Vec<u8>, group: u16) -> Result<(), AllocError>
    ensures { OnOk result (out.new.items ≡ out.old.items ++ hex group) }
{
    let digits = [
        hex_digit((group / 0x1000) as u8),
        hex_digit((group / 0x100 % 16) as u8),
        hex_digit((group / 0x10 % 16) as u8),
        hex_digit((group % 16) as u8),
    ];
    put(out, &digits[leading_zero_digits(group)..])
}

/// Puts a group behind a colon.
#[tactic(auto, using(crate::proofs::Puts::joined))]
fn put_next_group(out: &mut Vec<u8>, group: u16) -> Result<(), AllocError>
    ensures { OnOk result (out.new.items ≡ out.old.items ++ next_group group) }
{
    put(out, b":")?;
    put_group(out, group)
}

/// Puts groups, each behind a colon.
#[tactic(auto, using(crate::proofs::Puts::one_more))]
fn put_next_groups(out: &mut Vec<u8>, groups: &[u16]) -> Result<(), AllocError>
    ensures { OnOk result (out.new.items ≡ out.old.items ++ next_groups groups.now) }
{
    for group in groups {
        put_next_group(out, *group)?;
    }
    Ok(())
}

/// Puts groups, with colons between them.
#[tactic(auto, using(crate::proofs::Puts::joined))]
fn put_groups(out: &mut Vec<u8>, groups: &[u16]) -> Result<(), AllocError>
    ensures { OnOk result (out.new.items ≡ out.old.items ++ groups_text groups.now) }
{
    match groups {
        [first, rest @ ..] => {
            put_group(out, *first)?;
            put_next_groups(out, rest)
        }
        [] => Ok(()),
    }
}

/// Returns where the longest run of zeros starts, and its length; of two such runs those of the first one.
fn longest_zero_run(groups: &[u16]) -> (usize, usize)
    ensures value { result ≡ longest_zero_run groups.now }
    ensures within { result.0 + result.1 ≤ length groups.now }
{
    let mut start = groups.len();
    let mut len = 0;
    let mut run = 0;
    for i in (0..groups.len()).rev() {
        run = if groups[i] == 0 { run + 1 } else { 0 };
        if run >= len {
            start = i;
            len = run;
        }
    }
    (start, len)
}

/// Puts groups, with `::` in place of the longest run of two or more zeros.
#[tactic(auto, using(crate::proofs::Puts::joined), unfolding(std::specs::Net::Text::hex_groups_text))]
fn put_shortened(out: &mut Vec<u8>, groups: &[u16]) -> Result<(), AllocError>
    ensures { OnOk result (out.new.items ≡ out.old.items ++ hex_groups_text groups.now) }
{
    let (start, len) = longest_zero_run(groups);
    if len > 1 {
        put_groups(out, &groups[..start])?;
        put(out, b"::")?;
        put_groups(out, &groups[start + len..])
    } else {
        put_groups(out, groups)
    }
}

#[tactic(auto, using(crate::proofs::Puts::joined), unfolding(crate::specs::Peers::ipv6_text))]
fn put_ipv6(out: &mut Vec<u8>, ip: &[u8; 16]) -> Result<(), AllocError>
    ensures { OnOk result (out.new.items ≡ out.old.items ++ ipv6_text ip.now) }
{
    put(out, b"[")?;
    put_shortened(out, &Ipv6Addr::from(*ip).segments())?;
    put(out, b"]")
}

/// Puts an address: the four numbers of an IPv4 address, else the groups of an IPv6 address in brackets (RFC 5952).
#[tactic(auto, unfolding(crate::specs::Peers::ip_text))]
fn put_ip(out: &mut Vec<u8>, ip: &[u8; 16]) -> Result<(), AllocError>
    ensures { OnOk result (out.new.items ≡ out.old.items ++ ip_text ip.now) }
{
    if is_mapped(ip) {
        put_ipv4(out, [ip[12], ip[13], ip[14], ip[15]])
    } else {
        put_ipv6(out, ip)
    }
}

/// Puts a caller's address and port, with a colon between them.
#[tactic(auto, using(crate::proofs::Puts::joined))]
pub(crate) fn put_peer(out: &mut Vec<u8>, peer: &Peer) -> Result<(), AllocError>
    ensures { OnOk result (out.new.items ≡ out.old.items ++ peer_text peer.now) }
{
    put_ip(out, &peer.ip)?;
    put(out, b":")?;
    put_number(out, u64::from(peer.port))
}
