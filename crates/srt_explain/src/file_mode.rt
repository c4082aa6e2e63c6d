//! The warning about the mode of a configuration's file.

ghost use Rattle.std.specs.Prelude.{◌≡◌, ◌++◌, map, OnOk};
ghost use Rattle.std.specs.List.{list_any};
ghost use Rattle.srt_types.specs.declared.shared.Entry.{Entry as TheEntry};
ghost use Rattle.srt_types.specs.Access.{role_access_of};
ghost use Rattle.srt_types.specs.Terms.{terms_of};
ghost use Rattle.srt_explain.specs.FileMode.{is_public, has_secret, keeps_secret, file_warnings};

use crate::explaining::Explained;
use crate::warnings::{Warning, push_if};
use srt_types::{Entry, RoleAccess};
use std::alloc::AllocError;

/// The bits of a mode that are about users who neither own the file nor are in its group.
const OTHERS: u32 = 0o007;

/// Whether a mode lets users who neither own the file nor are in its group read it, write it or run it.
fn is_public(mode: u32) -> bool
    ensures { result ≡ is_public mode }
{
    mode & OTHERS != 0
}

/// Whether a role has a key or a passphrase.
fn has_secret(access: &RoleAccess) -> bool
    ensures { result ≡ has_secret (role_access_of access.now) }
{
    access.key.is_some() || access.passphrase.is_some()
}

/// Whether a role of a route has a key or a passphrase.
fn keeps_secret(entry: &Entry) -> bool
    ensures { result ≡ keeps_secret (terms_of entry.now) }
{
    has_secret(&entry.access.publish) || has_secret(&entry.access.request)
}

/// Whether one of these routes does.
fn one_keeps_secret(entries: &[Entry]) -> bool
    ensures { result ≡ list_any (λ (entry : TheEntry). keeps_secret (terms_of entry)) entries.now }
{
    entries.iter().any(|entry| keeps_secret(entry))
}

/// Whether a role of one of these routes has a key or a passphrase.
fn keep_secrets(entries: &[Entry]) -> bool
    ensures { result ≡ list_any keeps_secret (map terms_of entries.now) }
{
    one_keeps_secret(entries)
}

impl Explained {
    /// Adds the warning about the mode of the configuration's file, if it is one of a file that has keys of roles or passphrases, and
    /// lets users use it who neither own it nor are in its group. The configuration's secret counts for neither. The only error is
    /// that memory was refused.
    pub fn warn_of_mode(&mut self, mode: u32) -> Result<(), AllocError>
        ensures config { self.new.config ≡ self.old.config }
        ensures warnings { OnOk result (self.new.warnings.items ≡ self.old.warnings.items
            ++ file_warnings mode (map terms_of self.old.config.entries.items)) }
    {
        let some = is_public(mode) && keep_secrets(self.config.entries.as_slice());
        push_if(&mut self.warnings, some, Warning::PublicFile)
    }
}
