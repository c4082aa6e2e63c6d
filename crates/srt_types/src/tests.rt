//! Numbers and times next to the values at which they wrap.

use crate::{
    Access, KeyLength, Msg26, Network, RoleAccess, Seq31, Stamp32, is_same_site, read_word,
    write_at,
};
use std::net::Ipv6Addr;
use std::test::Fail;

fn number(word: u32) -> Result<Seq31, Fail> {
    match Seq31::new(word) {
        Some(number) => Ok(number),
        None => Err(Fail::from("a word with its top bit set")),
    }
}

#[test]
fn a_sequence_number_has_31_bits(rt: HostRuntime) -> Result<(), Fail> {
    assert_eq!(rt; number(0x7fff_ffff)?.get(), 0x7fff_ffff);
    assert!(rt; Seq31::new(0x8000_0000).is_none());
    assert_eq!(rt; Seq31::ZERO.get(), 0);
    assert_eq!(rt; Seq31::default().get(), 0);
    Ok(())
}

#[test]
fn numbers_go_round(rt: HostRuntime) -> Result<(), Fail> {
    assert_eq!(rt; number(0x7fff_ffff)?.add(1).get(), 0);
    assert_eq!(rt; number(5)?.add(0xffff_ffff).get(), 4);
    Ok(())
}

#[test]
fn a_window_reaches_across_the_wrap(rt: HostRuntime) -> Result<(), Fail> {
    let front = number(0x7fff_ffff)?;
    assert_eq!(rt; number(0x1e)?.offset_in(front, 32), Some(31));
    assert_eq!(rt; number(0x1f)?.offset_in(front, 32), None);
    assert_eq!(rt; number(0x7fff_fffe)?.offset_in(front, 32), None);
    assert_eq!(rt;
        number(0x7fff_fffe)?.offset_in(front, 1 << 31),
        Some(0x7fff_ffff)
    );
    assert_eq!(rt; front.offset_in(front, 0), None);
    Ok(())
}

#[test]
fn message_numbers_begin_at_1(rt: HostRuntime) -> Result<(), Fail> {
    assert_eq!(rt; Msg26::first().get(), 1);
    assert_eq!(rt; Msg26::first().next().get(), 2);
    Ok(())
}

#[test]
fn a_stamp_stands_for_the_nearest_time(rt: HostRuntime) -> Result<(), Fail> {
    // From 2^31 before (included) to 2^31 after (excluded).
    assert_eq!(rt; Stamp32::new(0).lift(1 << 31), 0);
    assert_eq!(rt; Stamp32::new(0).lift((1 << 31) + 1), 1 << 32);
    assert_eq!(rt; Stamp32::new(0x8000_0000).lift(0), -(1 << 31));
    assert_eq!(rt; Stamp32::new(0x100).lift(0xffff_ff00 + 600), 0x1_0000_0100);
    Ok(())
}

#[test]
fn words_stand_greatest_byte_first(rt: HostRuntime) -> Result<(), Fail> {
    let mut bytes = [0u8; 8];
    let end = write_at(&mut bytes, 4, &[0x80, 0x02, 0, 5]);
    assert_eq!(rt; end, 8);
    assert_eq!(rt; read_word(&bytes, 4), 0x8002_0005);
    assert_eq!(rt; read_word(&bytes, 0), 0);
    Ok(())
}

fn bytes_of(address: &str) -> Result<[u8; 16], Fail> {
    let address: Ipv6Addr = address.parse()?;
    Ok(address.octets())
}

/// Whether the network with this first address and prefix contains the address.
fn is_in(first: &str, prefix: u32, address: &str) -> Result<bool, Fail> {
    if prefix > 128 {
        return Err(Fail::from("a prefix of at most 128 bits"));
    }
    match Network::of_ipv6_prefix(u128::from_be_bytes(bytes_of(first)?), prefix) {
        Some(network) => Ok(network.contains(&bytes_of(address)?)),
        None => Err(Fail::from("a network")),
    }
}

/// A network's first address and its prefix, an address, and whether it is in the network.
type NetworkRow = (&'static str, u32, &'static str, bool);

const NETWORKS: [NetworkRow; 10] = [
    ("::", 0, "2001:db8::7", true),
    ("::", 0, "::ffff:192.0.2.7", false),
    ("::", 80, "::ffff:192.0.2.7", false),
    (
        "2001:db8::",
        32,
        "2001:db8:ffff:ffff:ffff:ffff:ffff:ffff",
        true,
    ),
    ("2001:db8::", 32, "2001:db9::", false),
    ("2001:db8:0:0:8000::", 65, "2001:db8::ffff:0:0:7", true),
    ("2001:db8:0:0:8000::", 65, "2001:db8::7fff:0:0:7", false),
    ("2001:db8::7", 128, "2001:db8::7", true),
    ("2001:db8::7", 128, "2001:db8::6", false),
    ("::1", 128, "::ffff:0.0.0.1", false),
];

#[test]
fn networks_of_ipv6_have_their_first_bits_in_common(rt: HostRuntime) -> Result<(), Fail> {
    for (first, prefix, address, is_contained) in NETWORKS {
        assert_eq!(rt; is_in(first, prefix, address)?, is_contained);
    }
    assert!(rt; Network::of_ipv6_prefix(1, 127).is_none());
    assert!(rt; Network::of_ipv6_prefix(1, 0).is_none());
    Ok(())
}

/// Two addresses, and whether they are of the same site.
type SiteRow = (&'static str, &'static str, bool);

const SITES: [SiteRow; 5] = [
    ("2001:db8::1", "2001:db8::ffff:0:0:1", true),
    ("2001:db8::1", "2001:db8:0:1::1", false),
    ("::1", "::ffff:0.0.0.1", false),
    ("::ffff:192.0.2.7", "::ffff:192.0.2.7", true),
    ("::ffff:192.0.2.7", "::ffff:192.0.2.8", false),
];

#[test]
fn a_site_is_an_ipv4_address_or_64_bits(rt: HostRuntime) -> Result<(), Fail> {
    for (address, other, is_same) in SITES {
        assert_eq!(rt;
            is_same_site(&bytes_of(address)?, &bytes_of(other)?),
            is_same
        );
    }
    Ok(())
}

#[test]
fn a_copy_is_secured_by_its_own_passphrase(rt: HostRuntime) -> Result<(), Fail> {
    let secured = RoleAccess {
        from: None,
        key: None,
        passphrase: Some(String::from_str(rt.alloc(), "correct horse battery")?),
    };
    let access = Access {
        publish: secured,
        request: RoleAccess::every_caller(),
        key_length: Some(KeyLength::Aes192),
    };
    let copy = access.copy(rt.alloc())?;
    drop(access);
    assert!(rt; copy.publish.is_secured());
    assert!(rt; !copy.request.is_secured());
    assert!(rt; copy.is_right_length(24));
    assert!(rt; !copy.is_right_length(16));
    assert!(rt; !copy.is_right_length(32));
    match copy.publish.passphrase.as_ref() {
        Some(text) => assert!(rt; text.as_str() == "correct horse battery"),
        None => return Err(Fail::from("a copy without the passphrase")),
    }
    Ok(())
}
