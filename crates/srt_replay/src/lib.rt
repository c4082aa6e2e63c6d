//! The replay of tapes: texts of events, one a line, run over a gateway without threads.
//!
//! It opens no file and no socket: reader and writer are arguments. The program is `srtgw`; the gateway with a socket and
//! threads is in `srt_poller` and `srt_serve`. What an event does is decided by `srt_hub`, and the configuration is read
//! by `srt_config`.
//!
//! Types: `CountedReader` and `CountedWriter`, a reader and a writer with a bound on the number of calls; `ReplayFault`,
//! why a replay ended early; `TapeEvent`, the event of a line.
//!
//! Calls: `replay` on a configuration and a tape, or `replay_over` with a separate hub. For other programs that read tapes
//! (`srt_transcript`): `next_line` reads a line, `read_event` its event, `read_address` and `read_bytes` its hexadecimal
//! digits.
//!
//! Files: `events.rt`, `fields.rt` and `hexadecimal.rt` have the grammar of a line (docs/PROTOCOL.md, "Tapes");
//! `reader.rt` takes lines up to the limits of a tape; `texts.rt` and `writer.rt` write the answers; `replaying.rt` joins them.
//! `laws.rt` states that tapes of one route don't depend on the others.
#![tactic(auto)]

mod events;
mod fields;
mod hexadecimal;
pub mod laws;
mod reader;
mod replaying;
mod texts;
mod writer;

pub use events::{NewRoute, TapeEvent, read_event};
pub use hexadecimal::{read_address, read_bytes};
pub use reader::{Brought, CountedReader, ReadFailed, Taken, next_line};
pub use replaying::{ReplayFault, replay, replay_over};
pub use writer::{CountedWriter, Tried, WriteFailed};

#[cfg(test)]
mod tests;
