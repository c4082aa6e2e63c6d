//! Configurations.

use super::{RIGHT, changed, config_of, with_routes};
use crate::{
    BindAddress, Config, ConfigFault, Key, Place, PlacedFault, RouteChange, changes_between,
    read_table, with_defaults,
};
use srt_cookie::{Secret, cookie};
use srt_types::{Callers, Entry, KeyLength, Mode, Peer, RoleAccess, Rules, Schedule};
use std::process::Abort;
use std::test::Fail;

/// The numbers of an entry: latency, buffer, sessions, inbox and outbox.
fn numbers_of(entry: &Entry) -> [u32; 5] {
    [
        entry.latency_ms,
        entry.buffer,
        entry.sessions,
        entry.inbox,
        entry.outbox,
    ]
}

/// Asserts an entry's name, mode and numbers.
fn assert_entry(
    rt: &(impl AllocGlobal + Abort),
    entry: Option<&Entry>,
    name: &str,
    mode: Mode,
    numbers: [u32; 5],
) {
    match entry {
        Some(entry) => {
            assert_eq!(rt; entry.name.as_str(), name);
            assert_eq!(rt; entry.mode, mode);
            assert_eq!(rt; numbers_of(entry), numbers);
        }
        None => assert!(rt; false, "no entry"),
    }
}

/// Asserts the two entries of the valid configuration, the first with this name.
fn assert_entries(rt: &(impl AllocGlobal + Abort), config: &Config, name: &str) {
    let entries = config.entries.as_slice();
    assert_eq!(rt; entries.len(), 2);
    assert_entry(
        rt,
        entries.first(),
        name,
        Mode::Live,
        [120, 1024, 5, 16, 16],
    );
    assert_entry(
        rt,
        entries.last(),
        "files",
        Mode::Buffer,
        [120, 32, 3, 16, 16],
    );
}

#[test]
fn a_right_configuration(rt: HostRuntime) -> Result<(), Fail> {
    let config = config_of(&rt, RIGHT)?;
    let mut bytes = [0u8; 32];
    for i in 0..32 {
        bytes[i] = i as u8;
    }
    let peer = Peer {
        ip: [0, 0, 0, 0, 0, 0, 0, 0, 0, 0, 255, 255, 127, 0, 0, 1],
        port: 5000,
    };
    assert_eq!(rt;
        cookie(&config.secret, peer, 0),
        cookie(&Secret::new(bytes), peer, 0)
    );
    assert_eq!(rt; config.bind.ip, mapped([127, 0, 0, 1]));
    assert_eq!(rt; config.bind.port, 0);
    assert_eq!(rt; config.workers, 1);
    assert_entries(&rt, &config, "studio");
    Ok(())
}

/// A change of the valid configuration, and the numbers after it: the address's port, the workers, and the first
/// route's.
type NumbersRow = (&'static str, &'static str, [u32; 7]);

const LIMITS: [NumbersRow; 9] = [
    (":0\"", ":65535\"", [65535, 1, 120, 1024, 5, 16, 16]),
    ("workers = 1", "workers = 16", [0, 16, 120, 1024, 5, 16, 16]),
    (
        "latency_ms = 120",
        "latency_ms = 20",
        [0, 1, 20, 1024, 5, 16, 16],
    ),
    (
        "latency_ms = 120",
        "latency_ms = 8_000",
        [0, 1, 8000, 1024, 5, 16, 16],
    ),
    (
        "buffer = 1024",
        "buffer = 0x2000",
        [0, 1, 120, 8192, 5, 16, 16],
    ),
    (
        "sessions = 5",
        "sessions = 17",
        [0, 1, 120, 1024, 17, 16, 16],
    ),
    ("sessions = 5", "sessions = 1", [0, 1, 120, 1024, 1, 16, 16]),
    ("inbox = 16", "inbox = 4096", [0, 1, 120, 1024, 5, 4096, 16]),
    (
        "outbox = 16",
        "outbox = 4096",
        [0, 1, 120, 1024, 5, 16, 4096],
    ),
];

/// The numbers of a configuration: the address's port, the workers, and the first route's.
fn all_numbers_of(config: &Config) -> [u32; 7] {
    let port = u32::from(config.bind.port);
    match config.entries.as_slice().first() {
        Some(first) => {
            let [latency_ms, buffer, sessions, inbox, outbox] = numbers_of(first);
            [
                port,
                config.workers,
                latency_ms,
                buffer,
                sessions,
                inbox,
                outbox,
            ]
        }
        None => [port, config.workers, 0, 0, 0, 0, 0],
    }
}

/// Asserts that the valid configuration with this change is read, with these numbers and two routes.
fn assert_numbers(rt: &(impl AllocGlobal + Abort), row: &NumbersRow) -> Result<(), Fail> {
    let text = changed(rt, RIGHT, row.0, row.1)?;
    let config = config_of(rt, text.as_str())?;
    assert_eq!(rt; all_numbers_of(&config), row.2);
    assert_eq!(rt; config.entries.len(), 2);
    Ok(())
}

#[test]
fn numbers_at_their_limits_are_read(rt: HostRuntime) -> Result<(), Fail> {
    for row in &LIMITS {
        assert_numbers(&rt, row)?;
    }
    Ok(())
}

/// The 16 bytes of an IPv4 address.
fn mapped(octets: [u8; 4]) -> [u8; 16] {
    let [a, b, c, d] = octets;
    [0, 0, 0, 0, 0, 0, 0, 0, 0, 0, 255, 255, a, b, c, d]
}

/// Asserts that the valid configuration is read with this name in the place of the first route's.
fn assert_name(rt: &(impl AllocGlobal + Abort), name: &str) -> Result<(), Fail> {
    let text = changed(rt, RIGHT, "studio", name)?;
    let config = config_of(rt, text.as_str())?;
    assert_entries(rt, &config, name);
    Ok(())
}

const NAMES: [&str; 3] = [
    "Az09-_./",
    "filet",
    "aaaaaaaaaaaaaaaaaaaaaaaaaaaaaaaaaaaaaaaaaaaaaaaaaaaaaaaaaaaaaaaa",
];

#[test]
fn names_and_addresses_are_read(rt: HostRuntime) -> Result<(), Fail> {
    let text = changed(&rt, RIGHT, "127.0.0.1", "255.254.0.10")?;
    let config = config_of(&rt, text.as_str())?;
    assert_eq!(rt; config.bind.ip, mapped([255, 254, 0, 10]));
    for name in &NAMES {
        assert_name(&rt, name)?;
    }
    Ok(())
}

#[test]
fn a_status_page_may_have_an_address(rt: HostRuntime) -> Result<(), Fail> {
    let config = config_of(&rt, RIGHT)?;
    assert_eq!(rt; config.status, None);
    let both = "workers = 1\nstatus = \"10.1.2.3:9001\"\n";
    let text = changed(&rt, RIGHT, "workers = 1\n", both)?;
    let config = config_of(&rt, text.as_str())?;
    let address = BindAddress {
        ip: mapped([10, 1, 2, 3]),
        port: 9001,
    };
    assert_eq!(rt; config.status, Some(address));
    Ok(())
}

/// The valid configuration with this text after the first route's outbox.
fn with_first_route(rt: &(impl AllocGlobal + Abort), keys: &str) -> Result<Config, Fail> {
    let both = format!(in rt.alloc(); "outbox = 16\n{keys}")?;
    let text = changed(rt, RIGHT, "outbox = 16\n", both.as_str())?;
    config_of(rt, text.as_str())
}

/// What may follow the first route's outbox, and the route's schedule.
type ScheduleRow = (&'static str, u32, Option<u32>);

const SCHEDULES: [ScheduleRow; 5] = [
    ("", 0, None),
    ("open_round = 3\nclose_round = 4\n", 3, Some(4)),
    ("close_round = 1\n", 0, Some(1)),
    ("open_round = 1_000_000_000\n", 1_000_000_000, None),
    (
        "close_round = 1000000000\nopen_round = 0\n",
        0,
        Some(1_000_000_000),
    ),
];

/// Asserts the schedules of the valid configuration with this text after the first route's outbox.
fn assert_schedules(rt: &(impl AllocGlobal + Abort), row: &ScheduleRow) -> Result<(), Fail> {
    let config = with_first_route(rt, row.0)?;
    let first = Schedule {
        open_round: row.1,
        close_round: row.2,
    };
    let second = Schedule {
        open_round: 0,
        close_round: None,
    };
    assert_eq!(rt; config.schedules.as_slice().first(), Some(&first));
    assert_eq!(rt; config.schedules.as_slice().last(), Some(&second));
    assert_eq!(rt; config.schedules.len(), 2);
    Ok(())
}

#[test]
fn routes_may_open_and_close_in_rounds(rt: HostRuntime) -> Result<(), Fail> {
    for row in &SCHEDULES {
        assert_schedules(&rt, row)?;
    }
    Ok(())
}

/// What may follow the first route's outbox, and the route's rules.
type RulesRow = (&'static str, Rules);

const RULES: [RulesRow; 3] = [
    ("", Rules::DRAFT),
    (
        "callers = \"libsrt\"\nreserved = 2\nsessions_per_address = 17\ntakeover_ms = 5000\nresend_percent = 5\n",
        Rules {
            callers: Callers::Libsrt,
            reserved: 2,
            sessions_per_address: Some(17),
            takeover_ms: Some(5000),
            resend_percent: Some(5),
        },
    ),
    (
        "resend_percent = 1000\ntakeover_ms = 100\nsessions_per_address = 1\nreserved = 0\ncallers = \"draft\"\n",
        Rules {
            callers: Callers::Draft,
            reserved: 0,
            sessions_per_address: Some(1),
            takeover_ms: Some(100),
            resend_percent: Some(1000),
        },
    ),
];

/// Asserts an entry's rules.
fn assert_has_rules(rt: &(impl AllocGlobal + Abort), entry: Option<&Entry>, rules: Rules) {
    match entry {
        Some(entry) => assert_eq!(rt; entry.rules, rules),
        None => assert!(rt; false, "no entry"),
    }
}

/// Asserts the rules of the valid configuration with this text after the first route's outbox.
fn assert_rules(rt: &(impl AllocGlobal + Abort), row: &RulesRow) -> Result<(), Fail> {
    let config = with_first_route(rt, row.0)?;
    assert_eq!(rt; config.entries.len(), 2);
    assert_has_rules(rt, config.entries.as_slice().first(), row.1);
    assert_has_rules(rt, config.entries.as_slice().last(), Rules::DRAFT);
    Ok(())
}

#[test]
fn a_route_may_have_rules_beyond_the_draft(rt: HostRuntime) -> Result<(), Fail> {
    for row in &RULES {
        assert_rules(&rt, row)?;
    }
    Ok(())
}

/// What may follow the first route's outbox, and the passphrases of publishers and of subscribers and the length of keys of the route.
type EncryptionRow = (
    &'static str,
    Option<&'static str>,
    Option<&'static str>,
    Option<KeyLength>,
);

const ENCRYPTIONS: [EncryptionRow; 6] = [
    ("", None, None, None),
    (
        "publish_passphrase = \"correct horse battery\"\n",
        Some("correct horse battery"),
        None,
        None,
    ),
    (
        "publish_passphrase = \"\\u00fc\\u00fc \\u5bc6\\u7801\"\npbkeylen = 16\n",
        Some("üü 密码"),
        None,
        Some(KeyLength::Aes128),
    ),
    (
        "pbkeylen = 24\npublish_passphrase = '0 \"~\\ \tzzz'\n",
        Some("0 \"~\\ \tzzz"),
        None,
        Some(KeyLength::Aes192),
    ),
    (
        "pbkeylen = 0x20\nrequest_passphrase = \"ppppppppppppppppppppppppppppppppppppppppppppppppppppppppppppppppppppppppppppppp\"\n",
        None,
        Some("ppppppppppppppppppppppppppppppppppppppppppppppppppppppppppppppppppppppppppppppp"),
        Some(KeyLength::Aes256),
    ),
    (
        "request_passphrase = \"hold the line please\"\npublish_passphrase = \"correct horse battery\"\n",
        Some("correct horse battery"),
        Some("hold the line please"),
        None,
    ),
];

/// Asserts the passphrase of a role.
fn assert_passphrase(rt: &impl Abort, role: &RoleAccess, passphrase: Option<&str>) {
    match role.passphrase.as_ref() {
        Some(text) => assert_eq!(rt; Some(text.as_str()), passphrase),
        None => assert!(rt; passphrase.is_none()),
    }
}

/// Asserts the passphrases and the length of keys of an entry.
fn assert_is_encrypted(
    rt: &impl Abort,
    entry: Option<&Entry>,
    publish: Option<&str>,
    request: Option<&str>,
    key_length: Option<KeyLength>,
) {
    match entry {
        Some(entry) => {
            assert_passphrase(rt, &entry.access.publish, publish);
            assert_passphrase(rt, &entry.access.request, request);
            assert_eq!(rt; entry.access.key_length, key_length);
        }
        None => assert!(rt; false, "no entry"),
    }
}

#[test]
fn a_route_may_have_a_passphrase(rt: HostRuntime) -> Result<(), Fail> {
    for row in &ENCRYPTIONS {
        let config = with_first_route(&rt, row.0)?;
        let entries = config.entries.as_slice();
        assert_eq!(rt; entries.len(), 2);
        assert_is_encrypted(&rt, entries.first(), row.1, row.2, row.3);
        assert_is_encrypted(&rt, entries.last(), None, None, None);
    }
    Ok(())
}

#[test]
fn refused_memory_is_fault_10_of_no_key(rt: HostRuntime) {
    let fault = ConfigFault::OutOfMemory;
    assert_eq!(rt; fault.number(), 10);
    assert_eq!(rt; fault.key(), "-");
}

#[test]
fn many_routes_are_read(rt: HostRuntime) -> Result<(), Fail> {
    for count in &[17usize, 511] {
        let text = with_routes(&rt, *count)?;
        let config = config_of(&rt, text.as_str())?;
        assert_eq!(rt; config.entries.len(), *count);
        assert_eq!(rt; config.schedules.len(), *count);
    }
    Ok(())
}

/// The top of a configuration with defaults.
const TOP: &str = "\
secret = \"000102030405060708090a0b0c0d0e0f101112131415161718191A1B1C1D1E1F\"
bind = \"127.0.0.1:0\"
workers = 1
[defaults]
";

/// A list of the most networks, each of the most digits.
const MOST_NETWORKS: &str = "\
[
\"2001:db8:ffff:ffff:ffff:ffff:ffff:fff0\", \"2001:db8:ffff:ffff:ffff:ffff:ffff:fff1\",
\"2001:db8:ffff:ffff:ffff:ffff:ffff:fff2\", \"2001:db8:ffff:ffff:ffff:ffff:ffff:fff3\",
\"2001:db8:ffff:ffff:ffff:ffff:ffff:fff4\", \"2001:db8:ffff:ffff:ffff:ffff:ffff:fff5\",
\"2001:db8:ffff:ffff:ffff:ffff:ffff:fff6\", \"2001:db8:ffff:ffff:ffff:ffff:ffff:fff7\",
\"2001:db8:ffff:ffff:ffff:ffff:ffff:fff8\", \"2001:db8:ffff:ffff:ffff:ffff:ffff:fff9\",
\"2001:db8:ffff:ffff:ffff:ffff:ffff:fffa\", \"2001:db8:ffff:ffff:ffff:ffff:ffff:fffb\",
\"2001:db8:ffff:ffff:ffff:ffff:ffff:fffc\", \"2001:db8:ffff:ffff:ffff:ffff:ffff:fffd\",
\"2001:db8:ffff:ffff:ffff:ffff:ffff:fffe\", \"2001:db8:ffff:ffff:ffff:ffff:ffff:ffff\",
]
";

/// Every key of a route but its name and its lists, with numbers of the most digits and texts of the most bytes.
const ALL_KEYS: &str = "\
mode = \"live\"
latency_ms = 8000
buffer = 8192
sessions = 17
inbox = 4096
outbox = 4096
open_round = 999999999
close_round = 1000000000
callers = \"libsrt\"
publish_key = \"kkkkkkkkkkkkkkkkkkkkkkkkkkkkkkkkkkkkkkkkkkkkkkkkkkkkkkkkkkkkkkkk\"
request_key = \"kkkkkkkkkkkkkkkkkkkkkkkkkkkkkkkkkkkkkkkkkkkkkkkkkkkkkkkkkkkkkkkk\"
reserved = 2
sessions_per_address = 17
takeover_ms = 5000
resend_percent = 1000
publish_passphrase = \"ppppppppppppppppppppppppppppppppppppppppppppppppppppppppppppppppppppppppppppppp\"
request_passphrase = \"ppppppppppppppppppppppppppppppppppppppppppppppppppppppppppppppppppppppppppppppp\"
pbkeylen = 32
expect = false
";

#[test]
fn routes_with_every_key_fit_into_a_file(rt: HostRuntime) -> Result<(), Fail> {
    let mut text = String::from_str(rt.alloc(), TOP)?;
    for number in 0usize..511 {
        let route = format!(in rt.alloc(); "[[route]]\nname = \"r{number}\"\n{ALL_KEYS}")?;
        text.push_str(route.as_str())?;
        for list in ["publish_from = ", "request_from = "] {
            text.push_str(list)?;
            text.push_str(MOST_NETWORKS)?;
        }
    }
    assert!(rt; text.len() > 900_000);
    assert!(rt; text.len() <= 1_048_576);
    let config = config_of(&rt, text.as_str())?;
    assert_eq!(rt; config.entries.len(), 511);
    Ok(())
}

/// A list of 16 networks.
const SIXTEEN: &str = "\
outbox = 16
publish_from = [
  \"10.0.0.0/8\", \"10.0.0.1\", \"10.0.0.2\", \"10.0.0.3\", \"10.0.0.4\", \"10.0.0.5\", \"10.0.0.6\", \"10.0.0.7\",
  \"10.0.0.8\", \"10.0.0.9\", \"10.0.1.0\", \"10.0.1.1\", \"10.0.1.2\", \"10.0.1.3\", \"10.0.1.4\", \"10.0.1.5\",
]
";

#[test]
fn a_list_may_have_16_networks(rt: HostRuntime) -> Result<(), Fail> {
    let text = changed(&rt, RIGHT, "outbox = 16\n", SIXTEEN)?;
    let config = config_of(&rt, text.as_str())?;
    let networks = match config.entries.as_slice().first() {
        Some(first) => match first.access.publish.from.as_ref() {
            Some(networks) => networks.len(),
            None => 0,
        },
        None => 0,
    };
    assert_eq!(rt; networks, 16);
    Ok(())
}

/// The first fault of a table that is this text, with its place.
fn fault_of(rt: &(impl AllocGlobal + Abort), text: &str) -> Result<PlacedFault, Fail> {
    match toml::table_from_str(rt.alloc(), text) {
        Ok(table) => {
            let whole = with_defaults(rt.alloc(), table)?;
            match read_table(rt.alloc(), &whole) {
                Ok(_) => Err(Fail::from("no fault")),
                Err(placed) => Ok(placed),
            }
        }
        Err(_) => Err(Fail::from("no table")),
    }
}

/// A change of the valid configuration, the key of its fault, and the part that has it.
type PlaceRow = (&'static str, &'static str, &'static str, Place);

const PLACES: [PlaceRow; 6] = [
    ("workers = 1", "workers = 0", "workers", Place::Above),
    ("workers = 1", "worker = 1", "worker", Place::Above),
    ("sessions = 5", "sessions = 18", "sessions", Place::Route(1)),
    ("sessions = 3", "sessions = 18", "sessions", Place::Route(2)),
    ("\"files\"", "\"studio\"", "name", Place::Route(2)),
    ("sessions = 3", "session = 3", "session", Place::Route(2)),
];

/// The same of the valid configuration with defaults.
const PLACES_WITH_DEFAULTS: [PlaceRow; 11] = [
    ("[defaults]", "defaults = 1\n[more]", "more", Place::Above),
    ("[defaults]", "[[defaults]]", "defaults", Place::Above),
    ("workers = 1", "workers = 0", "workers", Place::Above),
    (
        "mode = \"live\"",
        "name = \"live\"",
        "name",
        Place::Defaults,
    ),
    ("inbox = 16", "inbox = 15", "inbox", Place::Defaults),
    (
        "inbox = 16",
        "close_round = 0",
        "close_round",
        Place::Defaults,
    ),
    ("inbox = 16", "", "inbox", Place::Route(1)),
    (
        "inbox = 16",
        "inbox = 16\nsessions_per_address = 18",
        "sessions_per_address",
        Place::Defaults,
    ),
    (
        "inbox = 16",
        "inbox = 16\npublish_passphrase = \"too short\"",
        "publish_passphrase",
        Place::Defaults,
    ),
    (
        "inbox = 16",
        "inbox = 16\npbkeylen = 20",
        "pbkeylen",
        Place::Defaults,
    ),
    (
        "inbox = 16",
        "inbox = 16\npbkeylen = 16",
        "pbkeylen",
        Place::Route(1),
    ),
];

/// Asserts the faults of these changes of a configuration.
fn assert_places(
    rt: &(impl AllocGlobal + Abort),
    whole: &str,
    rows: &[PlaceRow],
) -> Result<(), Fail> {
    for row in rows {
        let text = changed(rt, whole, row.0, row.1)?;
        let placed = fault_of(rt, text.as_str())?;
        assert_eq!(rt; placed.fault.key(), row.2);
        assert_eq!(rt; placed.place, row.3);
    }
    Ok(())
}

#[test]
fn a_fault_has_its_part_with_defaults(rt: HostRuntime) -> Result<(), Fail> {
    assert_places(&rt, SHORT, &PLACES_WITH_DEFAULTS)
}

#[test]
fn a_fault_has_its_route(rt: HostRuntime) -> Result<(), Fail> {
    assert_places(&rt, RIGHT, &PLACES)
}

/// The valid configuration with the keys that its routes have in common in its defaults, and others besides.
const SHORT: &str = "\
secret = \"000102030405060708090a0b0c0d0e0f101112131415161718191A1B1C1D1E1F\"
bind = \"127.0.0.1:0\"
workers = 1

[defaults]
mode = \"live\"
latency_ms = 120
buffer = 1024
sessions = 5
inbox = 16
outbox = 16

[[route]]
name = \"studio\"

[[route]]
name = \"files\"
mode = \"buffer\"
buffer = 32
sessions = 3
";

/// Asserts that a configuration is the valid one.
fn assert_is_right(rt: &(impl AllocGlobal + Abort), text: &str) -> Result<(), Fail> {
    let right = config_of(rt, RIGHT)?;
    let config = config_of(rt, text)?;
    let changes = changes_between(rt.alloc(), &right, &config)?;
    assert!(rt; !changes.fixed.any());
    assert_eq!(rt;
        changes.routes.as_slice(),
        &[RouteChange::Stays(0), RouteChange::Stays(1)][..]
    );
    assert_eq!(rt; changes.gone.len(), 0);
    Ok(())
}

#[test]
fn a_route_has_the_defaults_that_it_lacks(rt: HostRuntime) -> Result<(), Fail> {
    assert_is_right(&rt, SHORT)?;
    let unused = changed(
        &rt,
        RIGHT,
        "[[route]]",
        "[defaults]\nsessions = 17\n[[route]]",
    )?;
    assert_is_right(&rt, unused.as_str())?;
    let none = changed(&rt, RIGHT, "[[route]]", "[defaults]\n[[route]]")?;
    assert_is_right(&rt, none.as_str())
}

#[test]
fn the_table_of_keys_has_limits_and_texts(rt: HostRuntime) {
    let limits = Key::Sessions.limits();
    assert_eq!(rt; limits.least, 1);
    assert_eq!(rt; limits.most, 17);
    assert!(rt; Key::Sessions.choices().is_none());
    match Key::Mode.choices() {
        Some(choices) => {
            assert_eq!(rt; choices.first, "live");
            assert_eq!(rt; choices.second, "buffer");
        }
        None => assert!(rt; false, "no choices"),
    }
}
