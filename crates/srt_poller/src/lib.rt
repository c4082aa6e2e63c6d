//! The poller: reads datagrams, answers each or offers it to its route, and sends the routes' replies.
//!
//! It runs in the thread of its caller and starts none (`srt_serve` does). It doesn't decide where a datagram belongs
//! (`srt_lobby` does) nor what a route replies (`srt_route`), and it serves no route (`srt_mailbox`).
//!
//! Types: a `Source` returns datagrams and a `Wire` takes them; `Ends` are the poller's ends of one route's queues; a
//! `Report` has the counts. `Signals` are four traits: `Orders` before a round (`Order`), `Hints` that save checks of empty
//! outboxes, a `PollerObserver`, and the `InlineService` of the polling thread. `Report` and `Order` are
//! `srt_supervision`'s. Devices in memory are `SourceScript`, `WireScript` and `ClockScript`; `MioSource` and `MioWire`
//! share one UDP socket; why they weren't opened is an `Unopened`, by evidence of what was refused (`SystemRefusal`,
//! `MemoryRefused`), and the line that the program prints of it a `BindFault`.
//!
//! Calls: open the routes (`srt_mailbox::open_route`), hide those that open later (`srt_lobby::Names::hide`), bind or
//! make the devices, then `pump` once for n rounds; or `pump_under` with a `PollerTask`, until the order is to end. Routes
//! open and close at the beginning of the rounds that their `srt_types::Schedule` has. With `pump_changing` routes are added
//! and removed too, as its `Openings` report.
//!
//! Files: `rounds.rt` has a poller between two rounds, what happens in one, and the loop over them. The beginning of a
//! round is in `changing.rt`, with the plans of all routes; the plan of one is in `plans.rt`, the ends of all routes with
//! their changes in `tables.rt`, openings in `openings.rt`. The other steps are in `poller.rt`
//! (the reply that is kept), which outboxes a round has drained in `visits.rt`, the inputs in `context.rt`,
//! the memory of copies in `buffers.rt`, evidence that memory was refused in `memory.rt`, the calls in `pumping.rt` and
//! `changing_rounds.rt`, the counts in `report.rt`, the greatest timestamp in `latest.rt`, a socket's source and wire in
//! `sockets.rt`, the calls of the system that they note in `sockets/system.rt`, and make in `sockets/called.rt`, how a
//! source waits in `pace.rt` and `density.rt`, tuned constants in `tuning.rt`, laws of the definitions in `laws.rt`.
//! `specs/History.antt` has the events of a poller, `specs/Plans.antt` what becomes of schedules
//! while routes are added and removed, `specs/Takings.antt` which changes are taken, `specs/Told.antt` what an observer is told.
#![tactic(auto)]

mod buffers;
mod changing;
mod changing_rounds;
mod context;
mod density;
mod devices;
mod ends;
mod latest;
pub mod laws;
mod memory;
mod openings;
mod pace;
mod plans;
mod poller;
mod pumping;
mod report;
mod rounds;
mod scripts;
mod signals;
mod sockets;
mod tables;
mod tuning;
mod visits;

pub use changing_rounds::pump_changing;
pub use context::PollerTask;
pub use devices::{Clock, Devices, DevicesOf, Polled, Read, Sent, Source, Wire};
pub use ends::Ends;
pub use memory::MemoryRefused;
pub use openings::{AddedRoute, Openings};
pub use pumping::{Pumping, pump, pump_under};
pub use scripts::{
    ClockScript, ScriptDatagram, SentDatagram, SourceScript, SourceStep, WireScript,
};
pub use signals::{Hints, InlineService, Orders, PollerObserver, Signals, Unsignalled};
pub use sockets::{BindFault, MioSource, MioWire, SystemRefusal, Unopened};
pub use srt_mailbox::{Gate, Ungated};
pub use srt_supervision::{Order, Report};

#[cfg(test)]
mod tests;
