//! The allocated name of a route to be added.

ghost use Rattle.std.specs.Prelude.{◌≡◌};

use srt_types::{Access, Entry};
use std::alloc::{AllocError, Global};

/// The name of a route to be added, with its access rules: all the memory that `Names::append` needs. One thread may
/// allocate it and another one append it.
#[derive(Drop)]
pub struct NewName {
    pub(crate) text: Vec<u8>,
    /// A copy of the text, for the table.
    pub(crate) key: Vec<u8>,
    pub(crate) access: Access,
    pub(crate) ghost same: { key.items ≡ text.items },
}

impl NewName {
    ghost use Rattle.std.specs.Prelude.{IfOk};
    ghost use Rattle.srt_types.specs.Terms.{terms_of};
    ghost use Rattle.srt_lobby.specs.Names.{as_hidden, name_of, new_name};

    /// Returns the name of a route with this entry. Allocates two copies of the name, and one of the access rules. The
    /// form of the name and the entry's numbers aren't checked (`Names::fault` does).
    pub fn of(alloc: Global, entry: &Entry) -> Result<NewName, AllocError>
        ensures { IfOk result (λ name. new_name name ≡ as_hidden (name_of (terms_of entry.now))) }
    {
        let access = entry.access.copy(alloc)?;
        let text = Vec::from_slice(alloc, entry.name.as_bytes())?;
        let key = Vec::from_slice(alloc, entry.name.as_bytes())?;
        Ok(NewName { text, key, access })
    }
}
