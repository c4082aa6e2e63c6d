//! The names of the routes.

ghost use Rattle.std.specs.Prelude.{◌≡◌, ◌+◌, ◌<◌, ◌≤◌, length, map, vec_capacity};
ghost use Rattle.std.specs.Map.{set_value};
ghost use Rattle.indexmap.specs.IndexMap.{spare};
ghost use Rattle.std.specs.Str.{bytes_eq};
ghost use Rattle.srt_hs.specs.KeyRequest.{key_request_in};
ghost use Rattle.srt_lobby.specs.Tables.{name_in, index_in, Enters, HasShown, HasNamed, HasTexts};

use crate::access_lists::is_admitted;
use crate::encryption_refusals::has_keys_in;
use crate::entry_faults::fault;
use crate::new_access::{NewAccess, ReplacedAccess, replace_rules};
use crate::new_name::NewName;
use indexmap::IndexMap;
use srt_types::product_limits::MAX_ROUTES;
use srt_types::{Access, Entry, OpenFault, Peer, Role, is_name};
use std::alloc::{AllocError, Global};

/// A role that a Stream ID requests, of a visible route.
#[derive(Clone, Copy)]
pub(crate) struct RequestedRole {
    pub(crate) role: Role,
    /// The route's index.
    pub(crate) route: usize,
}

/// The name of a route, whether the route is visible, and its access rules. Only visible routes receive datagrams.
#[derive(Drop)]
pub(crate) struct NamedRoute {
    pub(crate) text: Vec<u8>,
    pub(crate) is_shown: bool,
    pub(crate) access: Access,
}

/// The names of the routes, each with the route's index and access rules. Routes are added, hidden and made visible
/// while a gateway runs. An index is never reused; the name of a hidden route may be. There is space for 511 routes
/// from the start.
#[derive(Drop)]
pub struct Names {
    /// The routes, in the order of their indexes.
    pub(crate) routes: Vec<NamedRoute>,
    /// A hash table from each name to the index of the route that was last made visible under it; if none was, to that
    /// of the first route with this name.
    pub(crate) latest: IndexMap<Vec<u8>, usize>,
    // space for 511 routes, and for as many names in the table
    pub(crate) ghost places: { 511 ≤ vec_capacity routes },
    pub(crate) ghost room: { 511 ≤ length routes.items + spare latest },
    pub(crate) ghost few: { length routes.items ≤ 511 },
    // the content of the table
    pub(crate) ghost shown: { HasShown (map name_in routes.items) (index_in (λ key. key.items) latest.entries) },
    pub(crate) ghost named: { HasNamed (map name_in routes.items) (index_in (λ key. key.items) latest.entries) },
    pub(crate) ghost texts: { HasTexts (map name_in routes.items) (index_in (λ key. key.items) latest.entries) },
}

/// Maps a name to this index, if the table contains the name.
fn turn(latest: &mut IndexMap<Vec<u8>, usize>, name: &[u8], r: usize)
    ensures entries { latest.new.entries ≡ set_value (λ key. bytes_eq name.now key.items) latest.old.entries r }
    ensures room { spare latest.new ≡ spare latest.old }
{
    if let Some(place) = latest.get_mut(name) {
        *place = r;
    }
}

/// Inserts a name with this index, unless the table contains the name. Doesn't allocate.
fn enter(latest: &mut IndexMap<Vec<u8>, usize>, name: Vec<u8>, r: usize)
    requires { 0 < spare latest.old }
    ensures table { Enters (λ key. key.items) latest.old.entries name.items r latest.new.entries }
    ensures room { spare latest.old ≤ spare latest.new + 1 }
{
    if latest.get(name.as_slice()).is_none() {
        latest.insert(name, r).unwrap();
    }
}

impl Names {
    ghost use Rattle.std.specs.Prelude.{◌↔◌, ◌++◌, ◌∷◌, [], true, None, Some, Err, IsTrue, IfOk, IfErr, OnOk, OnErr, slice_get};
    ghost use Rattle.std.specs.Option.{option_map};
    ghost use Rattle.srt_types.specs.declared.shared.OpenFault.{OpenFault as TheFault};
    ghost use Rattle.srt_types.specs.Terms.{terms_of};
    ghost use Rattle.srt_lobby.specs.Opening.{are_names, fault_of};
    ghost use Rattle.srt_lobby.specs.Names.{as_shown, name_of, names_of, new_name, index_of, is_shown_at};
    ghost use Rattle.srt_lobby.specs.Names.{knows_caller_at, admits_caller, secures};
    ghost use Rattle.srt_lobby.specs.Keys.{has_keys};
    ghost use Rattle.srt_streamid.specs.Reading.{key_of};
    ghost use Rattle.srt_lobby.specs.Changing.{fault_of_name, fault_of_adding, added, hidden_at, shown_at, IsUnused};
    ghost use Rattle.srt_lobby.specs.ListsAndKeys.{lists_and_keys, replaced_at, new_access, replaced_access};

    /// Returns an empty table. Allocates space for 511 routes.
    fn empty(alloc: Global) -> Result<Names, AllocError>
        ensures { IfOk result (λ names. names_of names ≡ []) }
    {
        let routes = Vec::with_capacity(alloc, MAX_ROUTES)?;
        let latest = IndexMap::with_capacity(alloc, MAX_ROUTES)?;
        Ok(Names { routes, latest })
    }

    /// Appends a route, hidden, with the next index: it receives no datagrams until it is made visible. Doesn't
    /// allocate; if another route has the same name, one copy of it is freed. One hash lookup.
    pub fn append(&mut self, name: NewName)
        requires { length (names_of self.old) < 511 }
        ensures { names_of self.new ≡ names_of self.old ++ new_name name ∷ [] }
    {
        let NewName { text, key, access } = name;
        let r = self.len();
        enter(&mut self.latest, key, r);
        let route = NamedRoute {
            text,
            is_shown: false,
            access,
        };
        self.routes.push(route).unwrap();
    }

    /// Appends a route whose name no visible route has, and makes it visible. Doesn't allocate.
    fn append_shown(&mut self, name: NewName)
        requires few { length (names_of self.old) < 511 }
        requires unused { index_of (names_of self.old) (new_name name).text ≡ None }
        ensures { names_of self.new ≡ names_of self.old ++ as_shown (new_name name) ∷ [] }
    {
        let r = self.len();
        self.append(name);
        self.show(r);
    }

    fn copied(alloc: Global, entries: &[Entry]) -> Result<Names, AllocError>
        requires names { are_names (map terms_of entries.now) ≡ true }
        requires few { length entries.now ≤ 511 }
        ensures { IfOk result (λ names. names_of names ≡ map name_of (map terms_of entries.now)) }
    {
        let mut names = Names::empty(alloc)?;
        for entry in entries {
            let name = NewName::of(alloc, entry)?;
            names.append_shown(name);
        }
        Ok(names)
    }

    /// Returns the names of these entries, 1 to 511. Allocates copies of each name and of the access rules, and space
    /// for 511 routes. Errors: `Names` if a name is invalid or appears twice, else `Limits` if the number of entries or
    /// a number of an entry is outside its limits, else `OutOfMemory`. After an error all memory is freed.
    pub fn open(alloc: Global, entries: &[Entry]) -> Result<Names, OpenFault>
        ensures opened { IfOk result (λ names. names_of names ≡ map name_of (map terms_of entries.now)) }
        ensures sound { IfOk result (λ _. fault_of (map terms_of entries.now) ≡ None) }
        ensures fault { (fault : TheFault) → fault_of (map terms_of entries.now) ≡ Some fault → result ≡ Err fault }
        ensures memory { fault_of (map terms_of entries.now) ≡ None → IfErr result (λ fault. fault ≡ OpenFault.OutOfMemory) }
    {
        if let Some(fault) = fault(entries) {
            return Err(fault);
        }
        match Names::copied(alloc, entries) {
            Ok(names) => Ok(names),
            Err(_) => Err(OpenFault::OutOfMemory),
        }
    }

    /// Returns the number of routes, visible or hidden: at most 511.
    pub fn len(&self) -> usize
        ensures count { result ≡ length (names_of self.now) }
        ensures few { result ≤ 511 }
    {
        self.routes.len()
    }

    /// Whether there is a route with this index, and it is visible. Doesn't allocate.
    #[inline(always)]
    pub fn shows(&self, r: usize) -> bool
        ensures { result ≡ is_shown_at (names_of self.now) r }
    {
        match self.routes.get(r) {
            Some(route) => route.is_shown,
            None => false,
        }
    }

    /// Whether there is a route with this index, and one of its lists contains the caller's address. Linear in the
    /// number of networks. Doesn't allocate.
    pub(crate) fn knows(&self, r: usize, peer: Peer) -> bool
        ensures { result ≡ knows_caller_at (names_of self.now) r peer }
    {
        match self.routes.get(r) {
            Some(route) => route.access.knows(peer),
            None => false,
        }
    }

    /// Whether there is a route with this index that admits the caller in this role with this Stream ID. Linear in the
    /// number of networks, and in the length of the Stream ID if the role has a key. Doesn't allocate.
    pub(crate) fn admits(&self, requested: RequestedRole, peer: Peer, bytes: &[u8]) -> bool
        ensures { result ≡ admits_caller peer requested.role (key_of bytes.now) (slice_get (names_of self.now) requested.route) }
    {
        match self.routes.get(requested.route) {
            Some(route) => is_admitted(route.access.in_role(requested.role), peer, bytes),
            None => false,
        }
    }

    /// Whether there is a route with this index, and the role is secured. Doesn't allocate.
    pub(crate) fn is_secured(&self, requested: RequestedRole) -> bool
        ensures { result ≡ secures requested.role (slice_get (names_of self.now) requested.route) }
    {
        match self.routes.get(requested.route) {
            Some(route) => route.access.in_role(requested.role).is_secured(),
            None => false,
        }
    }

    /// Whether there is a route with this index, and the KMREQ blocks of a conclusion are right for the role. `info` is
    /// the handshake, the bytes after the packet's header. Linear in the number of blocks. Doesn't allocate.
    pub(crate) fn has_keys(&self, requested: RequestedRole, info: &[u8]) -> bool
        ensures { result ≡ has_keys requested.role (key_request_in info.now) (slice_get (names_of self.now) requested.route) }
    {
        match self.routes.get(requested.route) {
            Some(route) => has_keys_in(&route.access, requested.role, info),
            None => false,
        }
    }

    /// Returns the index of the visible route with this name, if there is one. One hash lookup, for any number of
    /// routes.
    pub(crate) fn find(&self, name: &[u8]) -> Option<usize>
        ensures { result ≡ index_of (names_of self.now) name.now }
    {
        match self.latest.get(name) {
            Some(r) => {
                let r = *r;
                if self.shows(r) { Some(r) } else { None }
            }
            None => None,
        }
    }

    /// Returns the first reason, except memory, why a route of this name can't be added: `Names` if the name is invalid
    /// or that of a visible route, else `Limits` if there are 511 routes, visible or hidden, or if the numbers of its
    /// entry aren't `within` their limits. One hash lookup. Doesn't allocate.
    pub fn fault(&self, name: &[u8], within: bool) -> Option<OpenFault>
        ensures { result ≡ fault_of_name (names_of self.now) name.now within }
    {
        if !is_name(name) || self.find(name).is_some() {
            return Some(OpenFault::Names);
        }
        if self.len() >= MAX_ROUTES || !within {
            return Some(OpenFault::Limits);
        }
        None
    }

    /// Adds a visible route, and returns its index. Allocates two copies of the name, and one of the access rules.
    /// Errors: those of `fault`, else `OutOfMemory`. After an error nothing has changed.
    pub fn add(&mut self, alloc: Global, entry: &Entry) -> Result<usize, OpenFault>
        ensures sound { IfOk result (λ _. fault_of_adding (names_of self.old) (terms_of entry.now) ≡ None) }
        ensures index { IfOk result (λ r. r ≡ length (names_of self.old)) }
        ensures added { OnOk result (names_of self.new ≡ added (terms_of entry.now) (names_of self.old)) }
        ensures fault { (fault : TheFault) → fault_of_adding (names_of self.old) (terms_of entry.now) ≡ Some fault → result ≡ Err fault }
        ensures memory { fault_of_adding (names_of self.old) (terms_of entry.now) ≡ None → IfErr result (λ fault. fault ≡ OpenFault.OutOfMemory) }
        ensures err { OnErr result (names_of self.new ≡ names_of self.old) }
    {
        if let Some(fault) = self.fault(entry.name.as_bytes(), entry.in_limits()) {
            return Err(fault);
        }
        let Ok(name) = NewName::of(alloc, entry) else {
            return Err(OpenFault::OutOfMemory);
        };
        let r = self.len();
        self.append_shown(name);
        Ok(r)
    }

    /// Hides a route: it receives no more datagrams, and its name may be reused. Doesn't allocate.
    pub fn hide(&mut self, r: usize)
        requires { r < length (names_of self.old) }
        ensures { names_of self.new ≡ hidden_at r (names_of self.old) }
    {
        self.routes[r].is_shown = false;
    }

    /// Whether no other visible route has the name of the route with this index; also `true` if there is no such route.
    /// One hash lookup. Doesn't allocate.
    pub fn is_unused(&self, r: usize) -> bool
        ensures { IsTrue result ↔ IsUnused r (names_of self.now) }
    {
        match self.routes.get(r) {
            Some(route) => match self.find(&route.text) {
                Some(shown) => shown == r,
                None => true,
            },
            None => true,
        }
    }

    /// Makes a route visible whose name no other visible route has (`is_unused`). Doesn't allocate.
    pub fn show(&mut self, r: usize)
        requires index { r < length (names_of self.old) }
        requires unused { IsUnused r (names_of self.old) }
        ensures { names_of self.new ≡ shown_at r (names_of self.old) }
    {
        turn(&mut self.latest, &self.routes[r].text, r);
        self.routes[r].is_shown = true;
    }

    /// Replaces the lists and keys of a route, visible or hidden, and returns those that it had. They decide from the
    /// next datagram on, also for packets to sessions. Its passphrases and the length of its keys stay, and so do its
    /// name and visibility and all other routes. Neither allocates nor frees memory.
    pub fn replace_access(&mut self, r: usize, new: NewAccess) -> ReplacedAccess
        requires { r < length (names_of self.old) }
        ensures names { names_of self.new ≡ replaced_at (new_access new) r (names_of self.old) }
        ensures replaced { Some (replaced_access result) ≡ option_map (λ name. lists_and_keys name.access) (slice_get (names_of self.old) r) }
    {
        replace_rules(&mut self.routes[r].access, new)
    }
}
