//! The log of a gateway that runs: one line of plain text for each event, a limit of lines in a second, and the events
//! between two snapshots of a route's sessions.
//!
//! It reads nothing of the gateway: its caller passes in the events and snapshots. A line has no control characters, and no
//! more than 1,024 bytes with its line feed. It is written by one call of its writer, so that lines of several threads don't
//! mix. Only a JSON object allocates.
//!
//! Types: [`LogEvent`] (`events.rt`) is the content of a line, [`ConfigEvent`] (`config_events.rt`) that of a line about a
//! changed configuration. [`LineShares`] (`line_limits.rt`) is the limit of lines in a second, with
//! a share for each kind. [`RouteSnapshot`] (`snapshots.rt`) has the sessions of a route at one time, each with its
//! `srt_route::SessionView`; the event of an end has the session's `srt_route::Traffic`, of which `counts.rt` reads what a line
//! shows. [`RefusalRepeats`] (`repeats.rt`) counts refusals of one caller. [`Change`] (`changes.rt`) is what changed between two
//! snapshots.
//!
//! Calls: [`write_line`] (`writing.rt`, `config_lines.rt`) writes an event's line, [`event_line`] returns it, [`put_object`] (`objects.rt`,
//! `config_objects.rt`) puts it as a JSON object, [`LineShares::line`] returns whether a line may be written,
//! [`change_at`] compares two snapshots, step by step, and [`event_of`] (`telling.rt`) returns the event of a change.
//! [`utc_text`] (`times.rt`) is the text of a time. `srt_watch` makes these calls.
#![tactic(auto)]

mod changes;
mod config_events;
mod config_lines;
mod config_objects;
mod counts;
mod dates;
mod events;
pub mod laws;
mod line;
mod line_limits;
mod members;
mod objects;
mod peers;
mod repeats;
mod snapshots;
mod telling;
mod times;
mod writing;

pub use changes::{Change, STEPS, change_at};
pub use config_events::{ChangeSummary, CloseCause, ConfigEvent};
pub use events::{Caller, ClockDrift, EndReason, LogEvent, StopCause, Trouble};
pub use line_limits::{LineAllowance, LineKind, LineShares};
pub use objects::put_object;
pub use repeats::{MAX_REPEATS, Refusal, RefusalRepeats, Repeat, Telling};
pub use snapshots::{RouteSnapshot, SlotSession, slot_of};
pub use telling::{end_between, event_of};
pub use times::utc_text;
pub use writing::{event_line, write_line};

#[cfg(test)]
mod object_tests;
#[cfg(test)]
mod repeat_tests;
#[cfg(test)]
mod tests;
#[cfg(test)]
mod time_tests;
