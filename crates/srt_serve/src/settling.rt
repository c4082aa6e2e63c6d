//! Settles all routes at the end of a run.

ghost use Rattle.std.specs.Prelude.{◌≡◌, ◌⊎◌, ◌<◌, ◌≤◌, true, List, [], ◌++◌, IfOk, IfErr, OnOk, length, map, take};
ghost use Rattle.std.specs.Vec.{vec_capacity};
ghost use Rattle.srt_mailbox.specs.Cells.{CellIdentity};
ghost use Rattle.srt_mailbox.specs.Identities.{identity_in};
ghost use Rattle.srt_mailbox.specs.Places.{arrived, locks_of};
ghost use Rattle.srt_serve.specs.Settled.{AreJoined, AreSettled, AreLastShown};

use crate::watching::Viewer;
use srt_mailbox::{Account, Attachment, ClockEnd, Seat, SeatReader, TakenElsewhere};
use srt_poller::Ends;
use srt_supervision::Watch;
use srt_types::product_limits::MAX_ROUTES;
use std::sync::{OnceToken, Wait};

/// The routes can't be settled, since a reader hasn't reached all of them.
#[derive(Clone, Copy)]
pub struct Busy;

/// Checks that the reader first reached the routes that were put into these places before any thread ran. It may have
/// reached more. If it hasn't reached all of these, or more than 511, the routes can't be settled.
pub fn began_with<'a, X: Attachment + Drop>(
    routes: &SeatReader<'a, X>,
    put: &Vec<OnceToken<'a, Seat<X>>>,
) -> Result<(), Busy>
    requires { map (λ t. t.of) put.now.items ≡ take (length put.now.items) (locks_of routes.now) }
    ensures began { OnOk result ((more : List CellIdentity) × (arrived routes.now ≡ map (λ t. identity_in t.value.cell) put.now.items ++ more)) }
    ensures few { OnOk result (length (arrived routes.now) ≤ 511) }
    ensures busy { IfErr result (λ _. (length (arrived routes.now) < length put.now.items) ⊎ (511 < length (arrived routes.now))) }
{
    if routes.routes() < put.len() {
        return Err(Busy);
    }
    if routes.routes() > MAX_ROUTES {
        return Err(Busy);
    }
    for r in 0..put.len() {
        routes.reached(r, &put[r]);
    }
    Ok(())
}

/// Checks that the ticking thread's reader reached all routes that the polling thread's did, the same at each index. It
/// may have reached more. If it hasn't reached all, the routes can't be settled.
pub fn reached_all<'a, X: Attachment + Drop>(
    routes: &SeatReader<'a, X>,
    arrivals: &SeatReader<'a, X>,
) -> Result<(), Busy>
    requires { locks_of arrivals.now ≡ locks_of routes.now }
    ensures all { OnOk result ((more : List CellIdentity) × (arrived arrivals.now ≡ arrived routes.now ++ more)) }
    ensures busy { IfErr result (λ _. length (arrived arrivals.now) < length (arrived routes.now)) }
{
    if arrivals.routes() < routes.routes() {
        return Err(Busy);
    }
    for r in 0..routes.routes() {
        routes.agree(arrivals, r);
    }
    Ok(())
}

/// Settles all routes that this reader reached and returns their final counters, in the order of their indexes. The lists
/// must be in that order too; there may be more clock's ends. `accounts` must be empty and have room for all of them, so
/// that nothing allocates. Each route is shown to the viewer, under its index, after its last turn. The error is evidence
/// that another call has a route.
pub fn settle_routes<R: Wait, X: Attachment + Drop, T: Watch>(
    rt: &R,
    routes: &SeatReader<'_, X>,
    ends: Vec<Ends>,
    clocks: Vec<ClockEnd>,
    mut accounts: Vec<Account>,
    viewer: &mut Viewer<'_, T>,
) -> Result<Vec<Account>, TakenElsewhere>
    requires joined { AreJoined (arrived routes.now) ends.items clocks.items }
    requires room { (accounts.items ≡ []) × (length (arrived routes.now) ≤ vec_capacity accounts) }
    ensures settled { IfOk result (λ done. AreSettled done.items (arrived routes.now) ends.items clocks.items) }
    ensures shown { IfOk result (λ done. viewer.old.looks ≡ true → AreLastShown T.shown 0 done.items) }
{
    let mut ends = ends.into_iter();
    let mut clocks = clocks.into_iter();
    for r in 0..routes.routes() {
        let (Some(end), Some(clock)) = (ends.next(), clocks.next()) else {
            unreachable!();
        };
        viewer.index = r;
        let account = routes
            .seat(r)
            .close_out(rt, end.ingress, clock, end.drain, viewer)?;
        let Ok(()) = accounts.push(account) else {
            unreachable!();
        };
    }
    Ok(accounts)
}
