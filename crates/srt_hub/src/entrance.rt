//! The real lobby, as a part of the hub.

ghost use Rattle.std.specs.Prelude.{◌≡◌};
ghost use Rattle.srt_cookie.specs.Cookie.{secret_bytes};
ghost use Rattle.srt_lobby.specs.Names.{names_of};
ghost use Rattle.srt_lobby.specs.Lobby.{class_of};
ghost use Rattle.srt_lobby.proofs.Kept.{inside};

use crate::parts::{Doors, Lobby};
use srt_cookie::Secret;
use srt_lobby::{Class, Names, classify};
use srt_types::{Entry, OpenFault, Peer};
use std::alloc::Global;

/// The lobby's state: the secret of the cookies, and the names of the routes.
#[derive(Drop)]
pub struct Entrance {
    secret: Secret,
    names: Names,
}

impl Lobby for Entrance {
    ghost class = { class_of };

    ghost knows = { λ entrance secret names. (secret_bytes entrance.secret ≡ secret) × (names_of entrance.names ≡ names) };

    ghost named = { inside };

    fn open(alloc: Global, secret: Secret, entries: &[Entry]) -> Result<Self, OpenFault> {
        let names = Names::open(alloc, entries)?;
        Ok(Entrance { secret, names })
    }

    fn classify(&self, peer: Peer, bytes: &[u8], moment: u64) -> Class {
        classify(&self.secret, &self.names, peer, bytes, moment)
    }
}

impl Doors for Entrance {
    fn shows(&self, r: usize) -> bool {
        self.names.shows(r)
    }

    fn fault(&self, name: &[u8], within: bool) -> Option<OpenFault> {
        self.names.fault(name, within)
    }

    fn add(&mut self, alloc: Global, entry: &Entry) -> Result<(), OpenFault> {
        self.names.add(alloc, entry)?;
        Ok(())
    }

    fn hide(&mut self, r: usize) {
        if self.names.shows(r) {
            self.names.hide(r);
        }
    }
}
