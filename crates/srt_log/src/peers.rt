//! A caller's address and port in a line.

ghost use Rattle.std.specs.Prelude.{◌≡◌, ◌+◌, ◌<◌, ◌≤◌, length};
ghost use Rattle.std.specs.Net.Text.{leading_zero_digits, hex, groups_text, longest_zero_run, hex_groups_text};
ghost use Rattle.srt_log.specs.Texts.{put};
ghost use Rattle.srt_log.specs.Peers.{next_group, next_groups, ip_text, ipv4_text, ipv6_text, socket_text, peer_text};

use crate::line::{Line, hex_digit};
use srt_types::{Peer, is_mapped};
use std::net::Ipv6Addr;

#[tactic(auto, using(crate::proofs::Puts::put_put))]
fn put_ipv4(line: &mut Line, ip: [u8; 4])
    ensures { line.new.text.items ≡ put line.old.text.items (ipv4_text ip) }
{
    let [a, b, c, d] = ip;
    line.put_number(u64::from(a));
    line.put(b".");
    line.put_number(u64::from(b));
    line.put(b".");
    line.put_number(u64::from(c));
    line.put(b".");
    line.put_number(u64::from(d));
}

/// How many of a group's first three hexadecimal digits are zeros ahead of its first other one.
fn leading_zero_digits(group: u16) -> usize
    ensures value { result ≡ leading_zero_digits group }
    ensures within { result < 4 }
{
    match group {
        0x1000.. => 0,
        0x100.. => 1,
        0x10.. => 2,
        _ => 3,
    }
}

/// Puts a group of an IPv6 address in hexadecimal digits, without leading zeros.
#[tactic(auto, unfolding(std::specs::Net::Text::hex))]
fn put_group(line: &mut Line, group: u16)
    ensures { line.new.text.items ≡ put line.old.text.items (hex group) }
{
    let digits = [
        hex_digit((group / 0x1000) as u8),
        hex_digit((group / 0x100 % 16) as u8),
        hex_digit((group / 0x10 % 16) as u8),
        hex_digit((group % 16) as u8),
    ];
    line.put(&digits[leading_zero_digits(group)..]);
}

/// Puts a group behind a colon.
#[tactic(auto, using(crate::proofs::Puts::put_put))]
fn put_next_group(line: &mut Line, group: u16)
    ensures { line.new.text.items ≡ put line.old.text.items (next_group group) }
{
    line.put(b":");
    put_group(line, group);
}

/// Puts groups, each behind a colon.
#[tactic(auto, using(crate::proofs::Puts::put_put, crate::proofs::Puts::one_more_group))]
fn put_next_groups(line: &mut Line, groups: &[u16])
    ensures { line.new.text.items ≡ put line.old.text.items (next_groups groups.now) }
{
    line.put(b"");
    for group in groups {
        put_next_group(line, *group);
    }
}

/// Puts groups, with colons between them.
#[tactic(auto, using(crate::proofs::Puts::put_put))]
fn put_groups(line: &mut Line, groups: &[u16])
    ensures { line.new.text.items ≡ put line.old.text.items (groups_text groups.now) }
{
    match groups {
        [first, rest @ ..] => {
            put_group(line, *first);
            put_next_groups(line, rest);
        }
        [] => line.put(b""),
    }
}

/// Returns where the longest run of zeros starts, and its length; of two such runs those of the first one.
fn longest_zero_run(groups: &[u16]) -> (usize, usize)
    ensures value { result ≡ longest_zero_run groups.now }
    ensures within { result.0 + result.1 ≤ length groups.now }
{
    let mut start = groups.len();
    let mut len = 0;
    let mut run = 0;
    for i in (0..groups.len()).rev() {
        run = if groups[i] == 0 { run + 1 } else { 0 };
        if run >= len {
            start = i;
            len = run;
        }
    }
    (start, len)
}

/// Puts groups, with `::` in place of the longest run of two or more zeros.
#[tactic(auto, using(crate::proofs::Puts::put_put), unfolding(std::specs::Net::Text::hex_groups_text))]
fn put_shortened(line: &mut Line, groups: &[u16])
    ensures { line.new.text.items ≡ put line.old.text.items (hex_groups_text groups.now) }
{
    let (start, len) = longest_zero_run(groups);
    if len > 1 {
        put_groups(line, &groups[..start]);
        line.put(b"::");
        put_groups(line, &groups[start + len..]);
    } else {
        put_groups(line, groups);
    }
}

#[tactic(auto, using(crate::proofs::Puts::put_put))]
fn put_ipv6(line: &mut Line, ip: [u8; 16])
    ensures { line.new.text.items ≡ put line.old.text.items (ipv6_text ip) }
{
    line.put(b"[");
    put_shortened(line, &Ipv6Addr::from(ip).segments());
    line.put(b"]");
}

/// Puts an address: the four numbers of an IPv4 address, else the groups of an IPv6 address in brackets (RFC 5952).
pub(crate) fn put_ip(line: &mut Line, ip: [u8; 16])
    ensures { line.new.text.items ≡ put line.old.text.items (ip_text ip) }
{
    if is_mapped(&ip) {
        put_ipv4(line, [ip[12], ip[13], ip[14], ip[15]]);
    } else {
        put_ipv6(line, ip);
    }
}

/// Puts an address and a port, with a colon between them.
#[tactic(auto, using(crate::proofs::Puts::put_put))]
pub(crate) fn put_socket(line: &mut Line, ip: [u8; 16], port: u16)
    ensures { line.new.text.items ≡ put line.old.text.items (socket_text ip port) }
{
    put_ip(line, ip);
    line.put(b":");
    line.put_number(u64::from(port));
}

/// Puts a caller's address and port, with a colon between them.
pub(crate) fn put_peer(line: &mut Line, peer: Peer)
    ensures { line.new.text.items ≡ put line.old.text.items (peer_text peer) }
{
    put_socket(line, peer.ip, peer.port);
}
