//! Reads a configuration's file.

ghost use Rattle.std.specs.Prelude.{◌≡◌, true, IfOk, IfErr};
ghost use Rattle.srt_config.specs.Size.{is_within_limits};
ghost use Rattle.srt_config.specs.Files.{IsConfigLimit};

use crate::config::is_within_limits;
use crate::files::{Unread, read_file};
use srt_types::product_limits::{MAX_CONFIG, MAX_CONFIG_WITH_DEFAULTS};
use std::rt::Files;

/// Reads a configuration's file: at most 65,536 bytes, or 1,048,576 if its text is a table that has defaults. Allocates the
/// bytes, and those of more than 65,536 once more as a table.
pub fn read_configuration(rt: &(impl Files + AllocGlobal), path: &str) -> Result<Vec<u8>, Unread>
    ensures within { IfOk result (λ read. is_within_limits read.items ≡ true) }
    ensures reported { IfErr result IsConfigLimit }
{
    let bytes = read_file(rt, path, MAX_CONFIG_WITH_DEFAULTS)?;
    match is_within_limits(rt.alloc(), bytes.as_slice()) {
        Ok(true) => Ok(bytes),
        Ok(false) => Err(Unread::Large(MAX_CONFIG)),
        Err(_) => Err(Unread::Memory),
    }
}
