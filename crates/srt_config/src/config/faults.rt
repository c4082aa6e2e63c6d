//! The faults of a configuration.

ghost use Rattle.std.specs.Prelude.{◌≡◌};
ghost use Rattle.srt_config.specs.Faults.{key_text, number_of};

use super::keys::Key;
use std::error::Error;
use std::fmt;

/// The first thing that is wrong with a configuration. Its text is the line that the program prints.
#[derive(Debug, Drop)]
pub enum ConfigFault {
    /// The text isn't TOML.
    Toml,
    /// This key isn't known in its table.
    UnknownKey(String),
    /// The key is missing.
    Missing(Key),
    /// The key's value has the wrong type.
    WrongKind(Key),
    /// The key's value is outside its limits; for `route` the number of routes, for `mode` and `callers` a text that is none
    /// of their two, for `close_round` also a round that isn't after `open_round`, for `reserved` also a number that isn't
    /// below `sessions`, for a list of networks their number, for the key of a role a text of another form, for a passphrase its
    /// length, for `pbkeylen` also any number of a route without a passphrase.
    OutOfRange(Key),
    /// A route's name has a wrong form.
    BadName,
    /// A route has the name of an earlier route.
    RepeatedName,
    /// The secret is not 64 hexadecimal digits.
    BadSecret,
    /// The address at this key isn't of the form `a.b.c.d:port`, or one of its networks not of the form `a.b.c.d` or
    /// `a.b.c.d/n`.
    BadAddress(Key),
    /// An allocation failed.
    OutOfMemory,
}

impl ConfigFault {
    /// Returns the number of the fault in the program's output: 1 to 10, in the order above.
    pub fn number(&self) -> u8
        ensures { result ≡ number_of self.now }
    {
        match self {
            ConfigFault::Toml => 1,
            ConfigFault::UnknownKey(_) => 2,
            ConfigFault::Missing(_) => 3,
            ConfigFault::WrongKind(_) => 4,
            ConfigFault::OutOfRange(_) => 5,
            ConfigFault::BadName => 6,
            ConfigFault::RepeatedName => 7,
            ConfigFault::BadSecret => 8,
            ConfigFault::BadAddress(_) => 9,
            ConfigFault::OutOfMemory => 10,
        }
    }

    /// Returns the key that has the fault, or `-` if no key has it.
    pub fn key(&self) -> &str
        ensures { result.now ≡ key_text self.now }
    {
        match self {
            ConfigFault::Toml | ConfigFault::OutOfMemory => "-",
            ConfigFault::UnknownKey(key) => key.as_str(),
            ConfigFault::Missing(key)
            | ConfigFault::WrongKind(key)
            | ConfigFault::OutOfRange(key)
            | ConfigFault::BadAddress(key) => key.name(),
            ConfigFault::BadName | ConfigFault::RepeatedName => Key::Name.name(),
            ConfigFault::BadSecret => Key::Secret.name(),
        }
    }
}

impl fmt::Display for ConfigFault {
    fn fmt<W: fmt::Write>(&self, f: &mut fmt::Formatter<W>) -> fmt::Result {
        write!(f, "config fault {} {}", self.number(), self.key())
    }
}

impl Error for ConfigFault {}
