//! Sessions turn by turn: payloads, packets from the caller, and each packet that is written, with what the call tells of it.

ghost use Rattle.std.specs.Prelude.{◌^◌, ◌<◌};

use super::{Trial, hears, opening, sends, unstarted};
use crate::{Emitted, Opening};
use srt_samples::Sample;
use srt_types::{MOMENT_END, Mode};
use std::alloc::Global;
use std::test::Fail;

#[derive(Clone, Copy)]
pub enum Turn<'a> {
    /// Opened now in this mode, with this initial number, a delay of 120 ms and a flow window of 8192.
    Start(Mode, u32),
    /// A payload of this byte is queued.
    Feed(u8),
    /// A datagram arrives that isn't answered.
    Hear(Sample<'a>),
    Expire,
    /// The next packet is this one.
    Wrote(Emitted, Sample<'a>),
    /// No packet remains.
    Ends,
    /// The session is held below this bound, and its flow window was 8192.
    Hold(u64),
    Release,
    /// The number of payloads that were queued so far.
    Queued(u64),
    /// The number of payloads that can still be queued.
    Room(u32),
    /// The number of packets that were given up so far.
    GivenUp(u64),
    /// The caller's flow window.
    FlowWindow(u32),
}

/// Whether the next packet of an event's end is this one, and the call tells that.
fn wrote(trial: &mut Trial, now: u64, told: Emitted, sample: Sample<'_>) -> Result<bool, Fail>
    requires { now < 2 ^ 62 }
{
    let wrote = trial.session.emit_indexed(now, true, &mut trial.place);
    if wrote != Some(told) {
        return Ok(false);
    }
    sends(trial, sample)
}

fn agrees(trial: &mut Trial, window: &mut u32, now: u64, turn: Turn<'_>) -> Result<bool, Fail>
    requires { now < 2 ^ 62 }
{
    match turn {
        Turn::Start(mode, initial) => {
            let live = opening(now, initial)?;
            trial.session.start(Opening { mode, ..live });
            Ok(true)
        }
        Turn::Feed(byte) => Ok(trial.session.feed(&[byte], now)),
        Turn::Hear(sample) => hears(trial, sample, now),
        Turn::Expire => {
            trial.session.expire(now);
            Ok(true)
        }
        Turn::Wrote(told, sample) => wrote(trial, now, told, sample),
        Turn::Ends => {
            let told = trial.session.emit_indexed(now, true, &mut trial.place);
            Ok(told.is_none())
        }
        Turn::Hold(bound) => {
            *window = trial.session.hold(bound);
            Ok(*window == 8192)
        }
        Turn::Release => {
            trial.session.release(*window);
            Ok(true)
        }
        Turn::Queued(count) => Ok(trial.session.queued_payloads() == count),
        Turn::Room(room) => Ok(trial.session.room() == room),
        Turn::GivenUp(count) => Ok(trial.session.statistics().counts.given_up == count),
        Turn::FlowWindow(width) => Ok(trial.session.statistics().flow_window == width),
    }
}

/// Returns the index of the first turn in which a session of width 128 does something else.
pub fn other(alloc: Global, turns: &[(u64, Turn<'_>)]) -> Result<Option<usize>, Fail> {
    let mut trial = unstarted(alloc)?;
    let mut window = 0;
    for at in 0..turns.len() {
        let (now, turn) = turns[at];
        if now >= MOMENT_END || !agrees(&mut trial, &mut window, now, turn)? {
            return Ok(Some(at));
        }
    }
    Ok(None)
}
