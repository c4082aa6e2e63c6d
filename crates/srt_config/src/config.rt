//! The configuration: a TOML table.

ghost use Rattle.std.specs.Prelude.{◌≡◌, None, length, map, true};
ghost use Rattle.std.specs.List.{list_all};
ghost use Rattle.srt_types.specs.Terms.{terms_of};
ghost use Rattle.srt_types.specs.Entries.{is_between};
ghost use Rattle.srt_lobby.specs.Opening.{fault_of};
ghost use Rattle.srt_config.specs.Routes.{closes_later};

mod access;
mod address;
mod defaults;
mod encryption;
mod faults;
mod keys;
mod listing;
mod placed;
mod reading;
mod routes;
mod rules;
mod typed_values;
mod values;

pub use access::{is_key_text, read_network};
pub use address::BindAddress;
pub use defaults::with_defaults;
pub use faults::ConfigFault;
pub use keys::{Choices, DEFAULT_KEYS, Key, Limits, ROUTE_KEYS, TOP_KEYS, ValueKind};
pub use listing::all_faults;
pub use placed::{Place, PlacedFault};
pub use reading::{is_within_limits, read_config, read_table};
pub use routes::RouteNumbers;
use srt_cookie::Secret;
use srt_types::{Entry, Schedule};

/// A configuration of a gateway.
#[derive(Drop)]
pub struct Config {
    /// The secret of the handshake cookies: 32 bytes.
    pub secret: Secret,
    /// The address and UDP port at which `serve` receives datagrams.
    pub bind: BindAddress,
    /// The number of threads that serve the routes in `serve`: 1 to 16.
    pub workers: u32,
    /// The address and TCP port of the status page of `run`; `None` if it has none.
    pub status: Option<BindAddress>,
    /// The routes, in the order of their indexes: 1 to 511, with distinct names.
    pub entries: Vec<Entry>,
    /// The rounds of the poller in which each of them opens and closes, in the same order. A replay has no rounds: it
    /// opens all of them at its start.
    pub schedules: Vec<Schedule>,
    /// Whether each of them is expected to be on air: one without an active publisher then needs somebody. In the same order.
    pub expected: Vec<bool>,
    pub ghost served: { is_between 1 16 workers ≡ true },
    pub ghost sound: { fault_of (map terms_of entries.items) ≡ None },
    pub ghost scheduled: { length schedules.items ≡ length entries.items },
    pub ghost later: { list_all closes_later schedules.items ≡ true },
    pub ghost marked: { length expected.items ≡ length entries.items },
}
