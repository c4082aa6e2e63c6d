//! `srtgw replay`: runs a tape's events, and prints the result of each.

ghost use Rattle.std.specs.Prelude.{◌≡◌, ◌⊎◌, Result, IfErr};
ghost use Rattle.srt_replay.specs.Replay.{WasRefused};
ghost use Rattle.srt_replay.specs.ReplayOver.{ReplaysOf};
ghost use Rattle.srt_offline.specs.Ends.{IsReplayFault, command_end};

use crate::checking::config_at;
use crate::faults::OfflineFault;
use srt_config::{Config, read_file};
use srt_replay::{CountedReader, CountedWriter, replay};
use srt_types::product_limits::MAX_TAPE;
use std::alloc::Global;
use std::io::{self, BufRead, BufWriter, Write};
use std::rt::Files;

/// Replays a tape: a replay of it, whose fault becomes the command's.
fn answer<B: BufRead, W: Write>(
    alloc: Global,
    config: &Config,
    reader: &mut CountedReader<B>,
    writer: &mut CountedWriter<W>,
) -> Result<(), OfflineFault>
    ensures faults { IfErr result IsReplayFault }
    ensures ends { (ended : _) × (result ≡ command_end ended) × (WasRefused reader.old reader.new writer.old writer.new ended
        ⊎ ReplaysOf config.now B.remaining reader.old W.contents writer.old writer.new ended) }
{
    match replay(alloc, config, reader, writer) {
        Ok(()) => Ok(()),
        Err(fault) => Err(OfflineFault::of_replay(fault)),
    }
}

/// Replays the bytes of a tape, and prints the result of each event.
fn print_answers(
    rt: &(impl Print + AllocGlobal),
    config: &Config,
    tape: &[u8],
) -> Result<(), OfflineFault>
    ensures { IfErr result IsReplayFault }
{
    match BufWriter::new(rt.alloc(), io::writer(rt)) {
        Ok(writer) => {
            let mut reader = CountedReader::new(tape);
            let mut writer = CountedWriter::new(writer);
            answer(rt.alloc(), config, &mut reader, &mut writer)
        }
        Err(_) => Err(OfflineFault::Memory),
    }
}

/// `srtgw replay CONFIG TAPE`: runs a tape's events over the gateway of a configuration, and prints the result of each.
/// The configuration is read first, then the tape, at most 67,108,864 bytes. Allocates both, and the gateway's routes.
pub fn replay_file(
    rt: &(impl Print + Files + AllocGlobal),
    config: &str,
    tape: &str,
) -> Result<(), OfflineFault>
    ensures { IfErr result IsReplayFault }
{
    let config = config_at(rt, config)?;
    match read_file(rt, tape, MAX_TAPE) {
        Ok(bytes) => print_answers(rt, &config, &bytes),
        Err(unread) => Err(OfflineFault::of_unread(&unread)),
    }
}
