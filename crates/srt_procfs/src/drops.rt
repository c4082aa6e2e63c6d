//! Datagrams that the kernel dropped because a socket's buffer was full.

ghost use Rattle.std.specs.Prelude.{◌≡◌, ◌%◌, ◌++◌};
ghost use Rattle.srt_procfs.specs.Drops.{hex_digit, word_text, word_from, port_text, ipv4_local, ipv6_local};
ghost use Rattle.srt_procfs.specs.Drops.{is_at, drops_of, first_drops, drops_in, table_of, AreDrops};
ghost use Rattle.srt_procfs.specs.Parts.{parts_of};

use crate::files::KernelFiles;
use crate::numbers::number_in;
use crate::parts::{SplitText, split_at, word_at};
use crate::reading::read_table;
use srt_types::is_mapped;

/// The kernel's table of UDP sockets over IPv4, as proc(5) describes it.
const TABLE: &str = "/proc/net/udp";

/// The same over IPv6.
const IPV6_TABLE: &str = "/proc/net/udp6";

/// The column of the local address and port, counted from 0.
const LOCAL: usize = 1;

/// The column of the number of datagrams that were dropped.
const DROPS: usize = 12;

/// The upper-case hexadecimal digit of the lowest four bits.
fn hex_digit(bits: u8) -> u8
    ensures { result ≡ hex_digit (bits % 16) }
{
    let digit = bits % 16;
    if digit < 10 {
        b'0' + digit
    } else {
        b'A' + (digit - 10)
    }
}

/// Four bytes of an address as the tables have them: from the last to the first, in upper-case hexadecimal digits. (The
/// kernel prints them as a number of its processor, whose lowest byte comes first in memory.)
fn word_text(a: u8, b: u8, c: u8, d: u8) -> [u8; 8]
    ensures { result ≡ word_text a b c d }
{
    [
        hex_digit(d / 16),
        hex_digit(d),
        hex_digit(c / 16),
        hex_digit(c),
        hex_digit(b / 16),
        hex_digit(b),
        hex_digit(a / 16),
        hex_digit(a),
    ]
}

/// A port as the tables have it, behind a colon: its bytes from the first to the last, in upper-case hexadecimal digits.
fn port_text(port: u16) -> [u8; 5]
    ensures { result ≡ port_text port }
{
    let [high, low] = port.to_be_bytes();
    [
        b':',
        hex_digit(high / 16),
        hex_digit(high),
        hex_digit(low / 16),
        hex_digit(low),
    ]
}

/// Eight bytes as two words.
fn words_text(ip: [u8; 8]) -> [u8; 16]
    ensures { result ≡ word_from ip 0 ++ word_from ip 4 }
{
    let [a, b, c, d, e, f, g, h] = word_text(ip[0], ip[1], ip[2], ip[3]);
    let [i, j, k, l, m, n, o, p] = word_text(ip[4], ip[5], ip[6], ip[7]);
    [a, b, c, d, e, f, g, h, i, j, k, l, m, n, o, p]
}

/// An IPv4 address, the last four of these bytes, and a port as the table of IPv4 has them.
#[tactic(auto, unfolding(crate::specs::Drops::ipv4_local))]
fn ipv4_local(ip: [u8; 16], port: u16) -> [u8; 13]
    ensures { result ≡ ipv4_local ip port }
{
    let [a, b, c, d, e, f, g, h] = word_text(ip[12], ip[13], ip[14], ip[15]);
    let [i, j, k, l, m] = port_text(port);
    [a, b, c, d, e, f, g, h, i, j, k, l, m]
}

/// An IPv6 address and a port as the table of IPv6 has them.
#[tactic(auto, unfolding(crate::specs::Drops::ipv6_local))]
fn ipv6_local(ip: [u8; 16], port: u16) -> [u8; 37]
    ensures { result ≡ ipv6_local ip port }
{
    let mut text = [b':'; 37];
    let high = [ip[0], ip[1], ip[2], ip[3], ip[4], ip[5], ip[6], ip[7]];
    let low = [ip[8], ip[9], ip[10], ip[11], ip[12], ip[13], ip[14], ip[15]];
    text[..16].copy_from_slice(&words_text(high));
    text[16..32].copy_from_slice(&words_text(low));
    text[32..].copy_from_slice(&port_text(port));
    text
}

/// Whether a line is that of the socket at this local address.
#[tactic(auto, unfolding(crate::specs::Drops::is_at))]
fn is_at(local: &[u8], line: &[u8]) -> bool
    ensures { result ≡ is_at local.now line.now }
{
    match word_at(LOCAL, line) {
        Some(word) => word == local,
        None => false,
    }
}

/// The number of datagrams that a line says were dropped.
#[tactic(auto, unfolding(crate::specs::Drops::drops_of))]
fn drops_of(line: &[u8]) -> Option<u64>
    ensures { result ≡ drops_of line.now }
{
    number_in(10, word_at(DROPS, line)?)
}

/// The drops of the first line of a table that has this local address.
#[tactic(auto, using(crate::proofs::Turns::drops_found, crate::proofs::Turns::drops_passed))]
fn first_drops(local: &[u8], text: &[u8]) -> Option<u64>
    ensures { result ≡ first_drops local.now (parts_of 10 text.now) }
{
    let mut left = text;
    loop {
        let SplitText { part, rest } = split_at(b'\n', left);
        if is_at(local, part) {
            return drops_of(part);
        }
        match rest {
            Some(rest) => left = rest,
            None => return None,
        }
    }
}

/// How many datagrams the kernel dropped at the UDP socket that is bound to this address and port, by the text of
/// `/proc/net/udp` if it is an IPv4 address, `::ffff:a.b.c.d`, else by that of `/proc/net/udp6`. None if no line has that
/// address and port, or the line's last column can't be read. A socket bound to `0.0.0.0` or `::` is found by that address
/// alone. Linear in the length of the text.
pub fn drops_in(text: &[u8], ip: [u8; 16], port: u16) -> Option<u64>
    ensures { result ≡ drops_in text.now ip port }
{
    if is_mapped(&ip) {
        first_drops(&ipv4_local(ip, port), text)
    } else {
        first_drops(&ipv6_local(ip, port), text)
    }
}

/// The path of the kernel's table of UDP sockets that has this address.
fn table_of(ip: &[u8; 16]) -> &'static str
    ensures { result.now ≡ table_of ip.now }
{
    if is_mapped(ip) { TABLE } else { IPV6_TABLE }
}

/// How many datagrams the kernel has dropped at this process's UDP socket, bound to this address and port, since it was
/// opened. An IPv4 address has the form `::ffff:a.b.c.d`. None if that can't be read. Allocates a copy of the kernel's
/// table while it reads it.
pub fn kernel_drops<F: KernelFiles + AllocGlobal>(files: &F, ip: [u8; 16], port: u16) -> Option<u64>
    ensures { AreDrops F.reading F.was_refused F.was_full ip port result }
{
    let table = read_table(files, table_of(&ip))?;
    drops_in(&table, ip, port)
}
