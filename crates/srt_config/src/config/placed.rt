//! A fault with its place.

ghost use Rattle.std.specs.Prelude.{◌≡◌};
ghost use Rattle.srt_config.specs.FaultPlace.{above_routes};

use super::faults::ConfigFault;

/// The part of a configuration that has a fault.
#[derive(Clone, Copy, Debug, PartialEq, Eq)]
pub enum Place {
    /// The keys above the routes, or the list of the routes as a whole.
    Above,
    /// The table of defaults.
    Defaults,
    /// The route of this number, counted from 1, with the defaults that it lacks.
    Route(usize),
}

/// The first fault of a configuration, and the part that has it.
#[derive(Drop)]
pub struct PlacedFault {
    /// The fault.
    pub fault: ConfigFault,
    /// The part that has it.
    pub place: Place,
}

impl From<ConfigFault> for PlacedFault {
    ghost from_gives = { λ fault placed. placed ≡ above_routes fault };

    fn from(fault: ConfigFault) -> PlacedFault {
        PlacedFault {
            fault,
            place: Place::Above,
        }
    }
}
