//! The hub with the real lobby and the real routes.

ghost use Rattle.srt_route.specs.Route.{reply as route_reply};
ghost use Rattle.srt_route.specs.Stands.{stands as route_stands, waiting as route_waiting};

use crate::entrance::Entrance;
use crate::hubs::Hub;
use crate::parts::RouteStep;
use srt_route::{Reply, Route};
use srt_types::{Entry, Item, OpenFault};
use std::alloc::Global;

/// The gateway: routes of `srt_route`, under the rules of `srt_lobby`.
pub type SrtGateway = Hub<Route, Entrance>;

impl RouteStep for Route {
    ghost reply = { route_reply };

    ghost stands = { route_stands };

    ghost waiting = { route_waiting };

    fn open(alloc: Global, entry: &Entry, index: usize) -> Result<Self, OpenFault> {
        Route::open(alloc, entry, index)
    }

    fn step(&mut self, item: Item) -> usize {
        Route::step(self, &item)
    }

    fn waits(&self) -> bool {
        Route::waits(self)
    }

    fn next_reply(&mut self, place: &mut Box<Reply>) -> bool {
        Route::next_reply(self, place)
    }
}
