//! What may help if an address can't be bound.

ghost use Rattle.std.specs.Prelude.{◌≡◌};
ghost use Rattle.srt_host.specs.Hints.{bind_hint};

use std::io::ErrorKind;

/// The first port that a program without special rights may bind, unless its system is set otherwise.
const FIRST_FREE_PORT: u16 = 1024;

/// Returns what a line about an address that can't be bound, for a reason of this kind, continues with: for a port below 1024 that is
/// denied, which rights it needs; else nothing.
pub fn bind_hint(kind: ErrorKind, port: u16) -> &'static str
    ensures { result.now ≡ bind_hint kind port }
{
    match kind {
        ErrorKind::PermissionDenied if port < FIRST_FREE_PORT => {
            "; ports below 1024 need root or CAP_NET_BIND_SERVICE"
        }
        _ => "",
    }
}
