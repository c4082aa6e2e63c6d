//! What is read of valid configurations, and what changed ones request. The faults of configurations are cases of
//! `tests/cli`. Cookies were computed by Python's hashlib.

mod changes;
mod configs;
mod listing;

use crate::{Config, read_config};
use std::process::Abort;
use std::test::Fail;

/// A configuration of two routes. Its secret is the bytes 0 to 31.
const RIGHT: &str = "\
secret = \"000102030405060708090a0b0c0d0e0f101112131415161718191A1B1C1D1E1F\"
bind = \"127.0.0.1:0\"
workers = 1

[[route]]
name = \"studio\"
mode = \"live\"
latency_ms = 120
buffer = 1024
sessions = 5
inbox = 16
outbox = 16

[[route]]
name = \"files\"
mode = \"buffer\"
latency_ms = 120
buffer = 32
sessions = 3
inbox = 16
outbox = 16
";

/// The keys of a further route after its name.
const FURTHER: &str = "\
mode = \"live\"
latency_ms = 120
buffer = 32
sessions = 2
inbox = 16
outbox = 16
";

/// The valid configuration with further routes, so that it has this many.
fn with_routes(rt: &(impl AllocGlobal + Abort), count: usize) -> Result<String, Fail> {
    let mut text = String::from_str(rt.alloc(), RIGHT)?;
    for number in 2..count {
        let route = format!(in rt.alloc(); "[[route]]\nname = \"r{number}\"\n{FURTHER}")?;
        text.push_str(route.as_str())?;
    }
    Ok(text)
}

/// The configuration of a text.
fn config_of(rt: &(impl AllocGlobal + Abort), text: &str) -> Result<Config, Fail> {
    match read_config(rt.alloc(), text) {
        Ok(config) => Ok(config),
        Err(_) => Err(Fail::from("a right configuration")),
    }
}

/// The text, with the first occurrence of one line replaced by another.
fn changed(
    rt: &(impl AllocGlobal + Abort),
    text: &str,
    from: &str,
    to: &str,
) -> Result<String, Fail> {
    match text.split_once(from) {
        Some((before, behind)) => {
            let mut out = String::from_str(rt.alloc(), before)?;
            out.push_str(to)?;
            out.push_str(behind)?;
            Ok(out)
        }
        None => Err(Fail::from("nothing to change")),
    }
}
