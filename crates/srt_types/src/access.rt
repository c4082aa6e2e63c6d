//! Access control of routes: networks, keys and passphrases (our choice).

ghost use Rattle.std.specs.Prelude.{◌≡◌, ◌≤◌, option_map, string_bytes, IfOk, length};
ghost use Rattle.std.specs.List.{list_any};
ghost use Rattle.std.specs.Option.{option_copied};
ghost use Rattle.srt_types.specs.Access.{every_caller, anyone, role_access_of, access_of, in_role, is_mapped as is_of_ipv4, ipv4_in, network_of};
ghost use Rattle.srt_types.specs.Access.{ipv6_network_of, is_within, front_bits, contains, lists};
ghost use Rattle.srt_types.specs.Access.{is_right_key, admits, knows, is_secured, bytes_in, is_right_length};

use crate::shared::{Access, KeyLength, Network, Peer, Role, RoleAccess};
use crate::words::read_word;
use std::alloc::{AllocError, Global};

/// The first 12 bytes of an IPv4 address in the form `::ffff:a.b.c.d`.
const IPV4_FRONT: [u8; 12] = [0, 0, 0, 0, 0, 0, 0, 0, 0, 0, 255, 255];

/// Whether the 16 bytes of an address are those of an IPv4 address, `::ffff:a.b.c.d`.
pub fn is_mapped(ip: &[u8; 16]) -> bool
    ensures { result ≡ is_of_ipv4 ip.now }
{
    ip.starts_with(&IPV4_FRONT)
}

/// Returns the IPv4 address in the 16 bytes of an address, as a number. None if they have another form.
fn ipv4_in(ip: &[u8; 16]) -> Option<u32>
    ensures { result ≡ ipv4_in ip.now }
{
    if is_mapped(ip) {
        Some(read_word(ip, 12))
    } else {
        None
    }
}

/// Whether the addresses from the first on, this many, contain the address.
fn is_within(first: u32, size: u64, address: Option<u32>) -> bool
    ensures { result ≡ is_within first size address }
{
    match address {
        Some(address) => first <= address && u64::from(address - first) < size,
        None => false,
    }
}

/// Returns the first bits of an address, as many as the prefix has; all of them if it has more than 128.
fn front_bits(prefix: u32, address: u128) -> u128
    ensures { result ≡ front_bits prefix address }
{
    if prefix == 0 {
        0
    } else if prefix < 128 {
        address >> (128 - prefix)
    } else {
        address
    }
}

impl Network {
    /// Returns the IPv4 network of all addresses whose first `prefix` bits, 0 to 32, are those of `address`. None if
    /// `address` has a bit set after the prefix.
    pub fn of_prefix(address: u32, prefix: u32) -> Option<Network>
        requires { prefix ≤ 32 }
        ensures { result ≡ network_of address prefix }
    {
        let size = 1_u64 << (32 - prefix);
        if u64::from(address) % size == 0 {
            Some(Network::V4 {
                first: address,
                size,
            })
        } else {
            None
        }
    }

    /// Returns the IPv6 network of all addresses whose first `prefix` bits, 0 to 128, are those of `address`. None if
    /// `address` has a bit set after the prefix.
    pub fn of_ipv6_prefix(address: u128, prefix: u32) -> Option<Network>
        requires { prefix ≤ 128 }
        ensures { result ≡ ipv6_network_of address prefix }
    {
        let is_first = if prefix == 0 {
            address == 0
        } else {
            address % (1_u128 << (128 - prefix)) == 0
        };
        if is_first {
            Some(Network::V6 {
                first: address,
                prefix,
            })
        } else {
            None
        }
    }

    /// Whether the network contains the address of these 16 bytes. An IPv4 address, `::ffff:a.b.c.d`, is in no IPv6
    /// network, and no other address is in an IPv4 network.
    pub fn contains(&self, ip: &[u8; 16]) -> bool
        ensures { result ≡ contains ip.now self.now }
    {
        match *self {
            Network::V4 { first, size } => is_within(first, size, ipv4_in(ip)),
            Network::V6 { first, prefix } => {
                !is_mapped(ip)
                    && front_bits(prefix, u128::from_be_bytes(*ip)) == front_bits(prefix, first)
            }
        }
    }
}

fn lists(networks: &[Network], peer: Peer) -> bool
    ensures { result ≡ list_any (contains peer.ip) networks.now }
{
    networks.iter().any(|network| network.contains(&peer.ip))
}

/// Returns a copy of a list. Allocates; an error if the allocation fails.
fn copied_list(
    alloc: Global,
    from: &Option<Vec<Network>>,
) -> Result<Option<Vec<Network>>, AllocError>
    ensures { IfOk result (λ copy. option_map (λ networks. networks.items) copy ≡ option_map (λ networks. networks.items) from.now) }
{
    match from.as_ref() {
        Some(networks) => Ok(Some(Vec::from_slice(alloc, networks.as_slice())?)),
        None => Ok(None),
    }
}

/// Returns a copy of a text. Allocates; an error if the allocation fails.
fn copied_text(alloc: Global, text: &Option<String>) -> Result<Option<String>, AllocError>
    ensures { IfOk result (λ copy. option_map string_bytes copy ≡ option_map string_bytes text.now) }
{
    match text.as_ref() {
        Some(text) => Ok(Some(String::from_str(alloc, text.as_str())?)),
        None => Ok(None),
    }
}

impl KeyLength {
    /// Returns the number of bytes of a key: 16, 24 or 32.
    pub fn bytes(self) -> usize
        ensures { result ≡ bytes_in self }
    {
        match self {
            KeyLength::Aes128 => 16,
            KeyLength::Aes192 => 24,
            KeyLength::Aes256 => 32,
        }
    }
}

impl RoleAccess {
    /// Returns the rules that admit every caller: neither a list of networks nor a key, and no passphrase.
    pub fn every_caller() -> RoleAccess
        ensures { role_access_of result ≡ every_caller }
    {
        RoleAccess {
            from: None,
            key: None,
            passphrase: None,
        }
    }

    /// Whether the role has a passphrase, so that its sessions are encrypted.
    pub fn is_secured(&self) -> bool
        ensures { result ≡ is_secured (role_access_of self.now) }
    {
        self.passphrase.is_some()
    }

    /// Whether the list contains the caller's address. Without a list, always. Linear in the number of networks.
    pub fn lists(&self, peer: Peer) -> bool
        ensures { result ≡ lists (role_access_of self.now).from peer }
    {
        match self.from.as_ref() {
            Some(networks) => lists(networks.as_slice(), peer),
            None => true,
        }
    }

    /// Whether `brought`, the key in a Stream ID, is the right one. If no key is required, always.
    pub fn is_right_key(&self, brought: Option<&[u8]>) -> bool
        ensures { result ≡ is_right_key (role_access_of self.now).key (option_copied brought.entry) }
    {
        match self.key.as_ref() {
            Some(key) => match brought {
                Some(text) => text == key.as_bytes(),
                None => false,
            },
            None => true,
        }
    }

    /// Returns a copy. Allocates; an error if the allocation fails.
    pub fn copy(&self, alloc: Global) -> Result<RoleAccess, AllocError>
        ensures { IfOk result (λ copy. role_access_of copy ≡ role_access_of self.now) }
    {
        Ok(RoleAccess {
            from: copied_list(alloc, &self.from)?,
            key: copied_text(alloc, &self.key)?,
            passphrase: copied_text(alloc, &self.passphrase)?,
        })
    }
}

impl Access {
    /// Returns the rules that admit every caller in both roles, without encryption.
    pub fn anyone() -> Access
        ensures { access_of result ≡ anyone }
    {
        Access {
            publish: RoleAccess::every_caller(),
            request: RoleAccess::every_caller(),
            key_length: None,
        }
    }

    /// Returns the rules for a role.
    pub fn in_role(&self, role: Role) -> &RoleAccess
        ensures { role_access_of result.now ≡ in_role (access_of self.now) role }
    {
        match role {
            Role::Publish => &self.publish,
            Role::Request => &self.request,
        }
    }

    /// Whether one of the two lists contains the caller's address. Linear in the number of networks.
    pub fn knows(&self, peer: Peer) -> bool
        ensures { result ≡ knows (access_of self.now) peer }
    {
        self.publish.lists(peer) || self.request.lists(peer)
    }

    /// Whether keys of this many bytes have the length that is required. If none is, always.
    pub fn is_right_length(&self, bytes: usize) -> bool
        ensures { result ≡ is_right_length (access_of self.now).key_length bytes }
    {
        match self.key_length {
            Some(length) => bytes == length.bytes(),
            None => true,
        }
    }

    /// Returns a copy. Allocates; an error if the allocation fails.
    pub fn copy(&self, alloc: Global) -> Result<Access, AllocError>
        ensures { IfOk result (λ copy. access_of copy ≡ access_of self.now) }
    {
        Ok(Access {
            publish: self.publish.copy(alloc)?,
            request: self.request.copy(alloc)?,
            key_length: self.key_length,
        })
    }
}
