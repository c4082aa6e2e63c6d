//! Whether two routes of configurations have the same keys, with the same values.

ghost use Rattle.std.specs.Prelude.{◌≡◌, nat_eq, option_map, string_bytes};
ghost use Rattle.std.specs.Str.{bytes_eq};
ghost use Rattle.srt_types.specs.Access.{role_access_of, access_of};
ghost use Rattle.srt_types.specs.Terms.{terms_of};
ghost use Rattle.srt_config.specs.SameKeys.{same_if, same_mode, same_callers, same_network, same_networks, same_role, same_access};
ghost use Rattle.srt_config.specs.SameKeys.{same_length, same_rules, same_numbers, same_terms, same_schedule};
ghost use Rattle.srt_config.specs.Readmission.{same_secrets, same_besides};

use srt_types::{Access, Callers, Entry, KeyLength, Mode, Network, RoleAccess, Rules, Schedule};

fn same_mode(a: Mode, b: Mode) -> bool
    ensures { result ≡ same_mode a b }
{
    match a {
        Mode::Live => match b {
            Mode::Live => true,
            Mode::Buffer => false,
        },
        Mode::Buffer => match b {
            Mode::Live => false,
            Mode::Buffer => true,
        },
    }
}

fn same_callers(a: Callers, b: Callers) -> bool
    ensures { result ≡ same_callers a b }
{
    match a {
        Callers::Draft => match b {
            Callers::Draft => true,
            Callers::Libsrt => false,
        },
        Callers::Libsrt => match b {
            Callers::Draft => false,
            Callers::Libsrt => true,
        },
    }
}

fn same_number(a: Option<u32>, b: Option<u32>) -> bool
    ensures { result ≡ same_if nat_eq a b }
{
    match a {
        Some(a) => match b {
            Some(b) => a == b,
            None => false,
        },
        None => b.is_none(),
    }
}

fn same_network(a: Network, b: Network) -> bool
    ensures { result ≡ same_network a b }
{
    match a {
        Network::V4 { first, size } => match b {
            Network::V4 {
                first: other,
                size: many,
            } => first == other && size == many,
            Network::V6 { .. } => false,
        },
        Network::V6 { first, prefix } => match b {
            Network::V4 { .. } => false,
            Network::V6 {
                first: other,
                prefix: many,
            } => first == other && prefix == many,
        },
    }
}

fn same_networks(a: &[Network], b: &[Network]) -> bool
    ensures { result ≡ same_networks a.now b.now }
{
    a == b
}

fn same_list(a: &Option<Vec<Network>>, b: &Option<Vec<Network>>) -> bool
    ensures { result ≡ same_if same_networks (option_map (λ networks. networks.items) a.now) (option_map (λ networks. networks.items) b.now) }
{
    match a.as_ref() {
        Some(a) => match b.as_ref() {
            Some(b) => same_networks(a.as_slice(), b.as_slice()),
            None => false,
        },
        None => b.is_none(),
    }
}

fn same_key(a: &Option<String>, b: &Option<String>) -> bool
    ensures { result ≡ same_if bytes_eq (option_map string_bytes a.now) (option_map string_bytes b.now) }
{
    match a.as_ref() {
        Some(a) => match b.as_ref() {
            Some(b) => a.as_bytes() == b.as_bytes(),
            None => false,
        },
        None => b.is_none(),
    }
}

fn same_role(a: &RoleAccess, b: &RoleAccess) -> bool
    ensures { result ≡ same_role (role_access_of a.now) (role_access_of b.now) }
{
    same_list(&a.from, &b.from)
        && same_key(&a.key, &b.key)
        && same_key(&a.passphrase, &b.passphrase)
}

fn same_length(a: Option<KeyLength>, b: Option<KeyLength>) -> bool
    ensures { result ≡ same_if same_length a b }
{
    match a {
        Some(a) => match b {
            Some(b) => a.bytes() == b.bytes(),
            None => false,
        },
        None => b.is_none(),
    }
}

fn same_access(a: &Access, b: &Access) -> bool
    ensures { result ≡ same_access (access_of a.now) (access_of b.now) }
{
    same_role(&a.publish, &b.publish)
        && same_role(&a.request, &b.request)
        && same_length(a.key_length, b.key_length)
}

fn same_rules(a: Rules, b: Rules) -> bool
    ensures { result ≡ same_rules a b }
{
    same_callers(a.callers, b.callers)
        && a.reserved == b.reserved
        && same_number(a.sessions_per_address, b.sessions_per_address)
        && same_number(a.takeover_ms, b.takeover_ms)
        && same_number(a.resend_percent, b.resend_percent)
}

fn same_numbers(a: &Entry, b: &Entry) -> bool
    ensures { result ≡ same_numbers (terms_of a.now) (terms_of b.now) }
{
    a.latency_ms == b.latency_ms
        && a.buffer == b.buffer
        && a.sessions == b.sessions
        && a.inbox == b.inbox
        && a.outbox == b.outbox
}

/// Whether both entries have the same keys, with the same values. Linear in the length of their names, lists and keys.
/// Doesn't allocate.
pub(crate) fn same_entry(a: &Entry, b: &Entry) -> bool
    ensures { result ≡ same_terms (terms_of a.now) (terms_of b.now) }
{
    a.name.as_bytes() == b.name.as_bytes()
        && same_mode(a.mode, b.mode)
        && same_numbers(a, b)
        && same_access(&a.access, &b.access)
        && same_rules(a.rules, b.rules)
}

fn same_secrets(a: &Access, b: &Access) -> bool
    ensures { result ≡ same_secrets (access_of a.now) (access_of b.now) }
{
    same_key(&a.publish.passphrase, &b.publish.passphrase)
        && same_key(&a.request.passphrase, &b.request.passphrase)
        && same_length(a.key_length, b.key_length)
}

/// Whether both entries have the same keys, with the same values, besides the lists and the keys of roles. Linear in the length of
/// their names and passphrases. Doesn't allocate.
pub(crate) fn same_besides(a: &Entry, b: &Entry) -> bool
    ensures { result ≡ same_besides (terms_of a.now) (terms_of b.now) }
{
    a.name.as_bytes() == b.name.as_bytes()
        && same_mode(a.mode, b.mode)
        && same_numbers(a, b)
        && same_secrets(&a.access, &b.access)
        && same_rules(a.rules, b.rules)
}

/// Whether both schedules have the same rounds.
pub(crate) fn same_schedule(a: Schedule, b: Schedule) -> bool
    ensures { result ≡ same_schedule a b }
{
    a.open_round == b.open_round && same_number(a.close_round, b.close_round)
}
