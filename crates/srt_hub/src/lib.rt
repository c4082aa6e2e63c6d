//! The whole gateway without threads: the lobby, and the routes with their queues. Each call is one step of the model
//! in `specs/World.antt`.
//!
//! It has no socket, no clock and no threads: datagrams, ticks, turns and sends are calls. The same routes with threads
//! are in `srt_mailbox`, `srt_poller` and `srt_serve`. `srt_lobby` decides what a datagram means, and `srt_route` what
//! a route replies.
//!
//! Types: `Hub`, the gateway, over any `Lobby` and any `RouteStep` (traits in `parts.rt`); `SrtGateway`, the hub with
//! the real ones (`Entrance` in `entrance.rt`, `srt_route::Route` in `gateways.rt`). A lane (`lanes.rt`) is a route
//! with its inbox and outbox; `Arrived`, `Ticked` and `OutOfMemory` (`answers.rt`) are results.
//!
//! Calls: `Hub::open`; then in any order `arrive` for each datagram, `tick` for a route's clock, `turn`, which moves a
//! waiting reply to the outbox or processes one item of the inbox, and `send`, which removes a reply from the outbox.
//! If the lobby implements `Doors` (`parts.rt`), routes can be added and closed at run time: `open_route` adds a route
//! with the next index, `close_route` hides a route and ends its sessions.
//!
//! Laws: `laws.rt` states that routes don't affect each other (`specs/Laws.antt`), when something is refused, and what
//! openings and closings change (`specs/Refusals.antt`).
#![tactic(auto)]

mod answers;
mod entrance;
mod gateways;
mod hubs;
mod items;
mod lanes;
pub mod laws;
mod parts;

pub use answers::{Arrived, Closing, OutOfMemory, Ticked};
pub use entrance::Entrance;
pub use gateways::SrtGateway;
pub use hubs::{Gateway, Hub};
pub use parts::{Doors, Lobby, RouteStep};
pub use srt_lobby::{Cause, Class};
pub use srt_route::Reply;

#[cfg(test)]
mod caller_tests;
#[cfg(test)]
mod opening_tests;
#[cfg(test)]
mod tests;
