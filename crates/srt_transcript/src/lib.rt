//! Transcripts of tapes: each line of a tape in words for people, with the result of its replay.
//!
//! It opens no file: the tape, the output of its replay and the writer are arguments. Lines and events are read by
//! `srt_replay`, so a line is an event here exactly if `srtgw replay` takes it for one on a gateway with 511 routes. Packets
//! are read by `srt_packet`, and `srt_hs` names the reasons for a refusal. A handshake and a loss list are shown word by word,
//! since a transcript also shows those that the gateway refuses.
//!
//! Types: [`TranscriptFault`], why a transcript ended early.
//!
//! Calls: [`transcribe`] writes the transcript of a tape and of an output.
//!
//! Files: `transcribing.rt` reads both line by line and writes, `lines.rt` has the line of an explanation, `events.rt` the
//! words of an event and `answers.rt` those of an output's line. `packets.rt`, `handshakes.rt`, `blocks.rt` and `losses.rt`
//! have the words of a datagram, `addresses.rt` those of an address, `text.rt` a text while it is made.
//! `laws.rt` relates the events of transcripts to those of replays.
#![tactic(auto)]

mod addresses;
mod answers;
mod blocks;
mod events;
mod handshakes;
pub mod laws;
mod lines;
mod losses;
mod packets;
mod text;
mod transcribing;

pub use transcribing::{TranscriptFault, transcribe};

#[cfg(test)]
mod tests;
