//! Tapes replayed over a hub: the event of each line is run, and its answer is written as a line.

ghost use Rattle.std.specs.Prelude.{◌≡◌, ◌≤◌, ◌<◌, ◌^◌, ◌⊎◌, false, IfOk, IfSome, take, string_bytes};
ghost use Rattle.srt_hub.specs.World.{Ticks, Turns, Sends, Opens, Closes};
ghost use Rattle.srt_hub.specs.Calls.{wants_memory, Happened, FaultAnswers};
ghost use Rattle.srt_types.specs.Terms.{terms_of};
ghost use Rattle.srt_types.specs.Entries.{in_limits};
ghost use Rattle.srt_config.specs.Routes.{terms_with};
ghost use Rattle.srt_config.specs.RouteNumbers.{numbers_of};
ghost use Rattle.srt_replay.specs.EventRead.{arrival, terms_read, event_read, IsSound};
ghost use Rattle.srt_replay.specs.Replay.{WasRefused};
ghost use Rattle.srt_replay.specs.Counted.{source, reads_left, last_brought, TurnRead, ReplayRead};
ghost use Rattle.srt_replay.specs.Tries.{sink, HasWriteCause, ReplayWritten};
ghost use Rattle.srt_replay.specs.inside.Step.{Answers, Tries, TriesLine, TriesNext};
ghost use Rattle.srt_replay.specs.ReplayOver.{ReplaysOver, ReplaysOf};

use crate::events::{NewRoute, TapeEvent, read_event};
use crate::reader::{CountedReader, TapeLine, next_tape_line};
use crate::texts::{
    MAX_TEXT, write_arrived, write_closed, write_none, write_opened, write_sent, write_ticked,
    write_turned,
};
use crate::writer::CountedWriter;
use srt_config::Config;
use srt_hub::{Doors, Gateway, Hub, Lobby, OutOfMemory, RouteStep, SrtGateway};
use srt_types::product_limits::{MAX_TAPE_DATAGRAM, MAX_TAPE_LINE, MAX_TAPE_LINES};
use srt_types::protocol_limits::MAX_DATAGRAM;
use srt_types::{Access, Entry, OpenFault, Peer, Rules};
use std::alloc::Global;
use std::io::{BufRead, Write};
use thiserror::Error;

/// Why a replay ended early. What was written before stays written. Its text is the line that the program prints,
/// which prints none for `Write`.
#[derive(Clone, Copy, Debug, Error, PartialEq, Eq)]
pub enum ReplayFault {
    /// The line with this number, counted from 1, isn't an event, is longer than 4096 bytes, or comes after 1,000,000
    /// lines.
    #[error("tape fault {0}")]
    Tape(u32),
    /// Memory was refused: for the gateway's routes, for the copy of a datagram to a route, or for a route that a line
    /// opens, and that has no fault.
    #[error("memory")]
    OutOfMemory,
    /// The reader failed, or its reads were used up before the end of the tape.
    #[error("file fault")]
    Read,
    /// The writer failed, took none of the bytes that it was given, or was interrupted too often.
    #[error("output fault")]
    Write,
}

/// Runs an arrival, and writes its answer as a line to the front of `out`. Returns the line's length. The error is that
/// the memory for the datagram's copy was refused.
#[tactic(auto, unfolding(crate::specs::Texts::event_text))]
fn answer_arrival<R: RouteStep, L: Lobby>(
    alloc: Global,
    hub: &mut Hub<R, L>,
    peer: Peer,
    moment: u64,
    bytes: &[u8],
    out: &mut [u8; MAX_TEXT],
) -> Result<usize, OutOfMemory>
    requires { moment < 2 ^ 62 }
    ensures within { IfOk result (λ n. n ≤ 4096) }
    ensures answered { Tries ⟦<Hub<R, L> as Gateway>⟧.stands hub.old hub.new L.class R.reply (arrival peer bytes.now moment) out.new result }
{
    match hub.arrive(alloc, peer, bytes, moment) {
        Ok(answer) => Ok(write_arrived(&answer, out)),
        Err(fault) => Err(fault),
    }
}

/// Runs a tick, and writes its answer as a line to the front of `out`. Returns the line's length.
#[tactic(auto, unfolding(crate::specs::Texts::event_text))]
fn answer_tick<R: RouteStep, L: Lobby>(
    hub: &mut Hub<R, L>,
    route: usize,
    moment: u64,
    out: &mut [u8; MAX_TEXT],
) -> usize
    requires route { route < ⟦<Hub<R, L> as Gateway>⟧.routes hub.old }
    requires moment { moment < 2 ^ 62 }
    ensures within { result ≤ 4096 }
    ensures answered { Answers ⟦<Hub<R, L> as Gateway>⟧.stands hub.old hub.new L.class R.reply (Ticks route moment) (take result out.new) }
{
    let answer = hub.tick(route, moment);
    write_ticked(route, answer, out)
}

/// Runs a turn, and writes its answer as a line to the front of `out`. Returns the line's length.
#[tactic(auto, unfolding(crate::specs::Texts::event_text))]
fn answer_turn<R: RouteStep, L: Lobby>(
    hub: &mut Hub<R, L>,
    route: usize,
    out: &mut [u8; MAX_TEXT],
) -> usize
    requires { route < ⟦<Hub<R, L> as Gateway>⟧.routes hub.old }
    ensures within { result ≤ 4096 }
    ensures answered { Answers ⟦<Hub<R, L> as Gateway>⟧.stands hub.old hub.new L.class R.reply (Turns route) (take result out.new) }
{
    let answer = hub.turn(route);
    write_turned(answer, out)
}

/// Runs a send, and writes the datagram that was sent, or `none`, as a line to the front of `out`. Returns the line's
/// length.
#[tactic(auto, unfolding(crate::specs::Texts::event_text))]
fn answer_send<R: RouteStep, L: Lobby>(
    hub: &mut Hub<R, L>,
    route: usize,
    packet: &mut [u8; MAX_DATAGRAM],
    out: &mut [u8; MAX_TEXT],
) -> usize
    requires { route < ⟦<Hub<R, L> as Gateway>⟧.routes hub.old }
    ensures within { result ≤ 4096 }
    ensures answered { Answers ⟦<Hub<R, L> as Gateway>⟧.stands hub.old hub.new L.class R.reply (Sends route) (take result out.new) }
{
    match hub.send(route, packet) {
        Some((peer, len)) => write_sent(peer, &packet[..len], out),
        None => write_none(out),
    }
}

/// The entry of a line, with this name. Anyone may call the route.
fn entry_with(name: String, opening: NewRoute<'_>) -> Entry
    ensures { terms_of result ≡ terms_with (string_bytes name) opening.entry.mode (numbers_of opening.entry.numbers) }
{
    opening
        .numbers
        .entry(name, opening.mode, Access::anyone(), Rules::DRAFT)
}

/// The entry of a line. Allocates a copy of the name.
fn entry_of(alloc: Global, opening: NewRoute<'_>) -> Result<Entry, OutOfMemory>
    ensures { IfOk result (λ entry. terms_of entry ≡ terms_read opening.entry) }
{
    match String::from_str(alloc, opening.name) {
        Ok(name) => Ok(entry_with(name, opening)),
        Err(_) => Err(OutOfMemory),
    }
}

/// Whether each number of a line is within its limits. Doesn't allocate.
fn has_right_numbers(alloc: Global, opening: NewRoute<'_>) -> bool
    ensures { result ≡ in_limits (terms_read opening.entry) }
{
    entry_with(String::new(alloc), opening).in_limits()
}

/// The first reason why the route of a line can't be opened, memory aside. Doesn't allocate.
fn opening_fault<R: RouteStep, L: Doors>(
    alloc: Global,
    hub: &Hub<R, L>,
    opening: NewRoute<'_>,
) -> Option<OpenFault>
    ensures fault { FaultAnswers ⟦<Hub<R, L> as Gateway>⟧.stands hub.now L.class R.reply (terms_read opening.entry).name
        (in_limits (terms_read opening.entry)) result }
    // An opening that has a fault changes nothing.
    ensures stands { IfSome result (λ _. Happened ⟦<Hub<R, L> as Gateway>⟧.stands hub.now hub.now (Opens (terms_read opening.entry) false)) }
{
    hub.opening_fault(opening.name.as_bytes(), has_right_numbers(alloc, opening))
}

fn is_refused(opened: Result<usize, OpenFault>) -> bool
    ensures { result ≡ wants_memory opened }
{
    match opened {
        Ok(_) => false,
        Err(OpenFault::Names) => false,
        Err(OpenFault::Limits) => false,
        Err(OpenFault::OutOfMemory) => true,
    }
}

/// Opens a route, and writes the answer as a line to the front of `out`. Returns the line's length. The error is that
/// memory was refused, for the entry's name or for the route; an opening that has a fault allocates nothing.
fn answer_opening<R: RouteStep, L: Doors>(
    alloc: Global,
    hub: &mut Hub<R, L>,
    opening: NewRoute<'_>,
    out: &mut [u8; MAX_TEXT],
) -> Result<usize, OutOfMemory>
    ensures within { IfOk result (λ n. n ≤ 4096) }
    ensures answered { Tries ⟦<Hub<R, L> as Gateway>⟧.stands hub.old hub.new L.class R.reply (Opens (terms_read opening.entry) false) out.new result }
{
    if let Some(fault) = opening_fault(alloc, hub, opening) {
        return Ok(write_opened(Err(fault), out));
    }
    let entry = match entry_of(alloc, opening) {
        Ok(entry) => entry,
        Err(fault) => return Err(fault),
    };
    let opened = hub.open_route(alloc, &entry);
    if is_refused(opened) {
        return Err(OutOfMemory);
    }
    Ok(write_opened(opened, out))
}

/// Closes a route, and writes the answer as a line to the front of `out`. Returns the line's length.
fn answer_closing<R: RouteStep, L: Doors>(
    hub: &mut Hub<R, L>,
    route: usize,
    moment: u64,
    out: &mut [u8; MAX_TEXT],
) -> usize
    requires route { route < ⟦<Hub<R, L> as Gateway>⟧.routes hub.old }
    requires moment { moment < 2 ^ 62 }
    ensures within { result ≤ 4096 }
    ensures answered { Answers ⟦<Hub<R, L> as Gateway>⟧.stands hub.old hub.new L.class R.reply (Closes route moment) (take result out.new) }
{
    let answer = hub.close_route(route, moment);
    write_closed(route, answer, out)
}

/// What a line's answer is made with: the memory for a datagram's copy, and buffers for the line's datagram, a packet to
/// send, and the answer.
#[derive(Drop)]
struct Desk {
    alloc: Global,
    datagram: [u8; MAX_TAPE_DATAGRAM],
    packet: [u8; MAX_DATAGRAM],
    text: [u8; MAX_TEXT],
}

/// What a replay works with, made once: a buffer for a line, and what its answer is made with.
#[derive(Drop)]
struct Workspace {
    line: [u8; MAX_TAPE_LINE],
    desk: Desk,
}

/// Runs an event, and writes its answer as a line to the front of the desk's text. Returns the line's length.
fn answer_event<R: RouteStep, L: Doors>(
    hub: &mut Hub<R, L>,
    event: TapeEvent<'_>,
    desk: &mut Desk,
) -> Result<usize, OutOfMemory>
    requires { IsSound (⟦<Hub<R, L> as Gateway>⟧.routes hub.old) event }
    ensures within { IfOk result (λ n. n ≤ 4096) }
    ensures answered { Tries ⟦<Hub<R, L> as Gateway>⟧.stands hub.old hub.new L.class R.reply (event_read desk.old.datagram event.entry) desk.new.text result }
{
    match event {
        TapeEvent::Arrival { peer, moment, len } => {
            answer_arrival(
                desk.alloc,
                hub,
                peer,
                moment,
                &desk.datagram[..len],
                &mut desk.text,
            )
        }
        TapeEvent::Tick { route, moment } => Ok(answer_tick(hub, route, moment, &mut desk.text)),
        TapeEvent::Turn { route } => Ok(answer_turn(hub, route, &mut desk.text)),
        TapeEvent::Send { route } => Ok(answer_send(hub, route, &mut desk.packet, &mut desk.text)),
        TapeEvent::Opens(opening) => answer_opening(desk.alloc, hub, opening, &mut desk.text),
        TapeEvent::Closes { route, moment } => Ok(answer_closing(
            hub,
            route,
            moment,
            &mut desk.text,
        )),
    }
}

/// Runs the event of a line, and writes its answer as a line to the front of the desk's text. Returns the line's length;
/// None if the line isn't an event.
fn answer_line<R: RouteStep, L: Doors>(
    hub: &mut Hub<R, L>,
    line: &[u8],
    desk: &mut Desk,
) -> Result<Option<usize>, OutOfMemory>
    ensures within { IfOk result (λ answer. IfSome answer (λ n. n ≤ 4096)) }
    ensures answered { TriesLine ⟦<Hub<R, L> as Gateway>⟧.stands hub.old hub.new L.class R.reply line.now desk.new.text result }
{
    let Some(event) = read_event(line, hub.routes(), &mut desk.datagram) else {
        return Ok(None);
    };
    match answer_event(hub, event, desk) {
        Ok(end) => Ok(Some(end)),
        Err(fault) => Err(fault),
    }
}

/// Takes the next line, which has this number, and writes its answer. Returns false if there is no further line.
#[tactic(auto, unfolding(crate::specs::Replay::event_at))]
fn answer_next<R: RouteStep, L: Doors, B: BufRead, W: Write>(
    hub: &mut Hub<R, L>,
    reader: &mut CountedReader<B>,
    writer: &mut CountedWriter<W>,
    work: &mut Workspace,
    number: u32,
) -> Result<bool, ReplayFault>
    ensures fewer { reads_left reader.new ≤ reads_left reader.old }
    ensures reads { TurnRead number (reads_left reader.new) (last_brought reader.new) result }
    ensures writes { HasWriteCause writer.new result }
    ensures answered { TriesNext ⟦<Hub<R, L> as Gateway>⟧.stands hub.old hub.new L.class R.reply
        (B.remaining (source reader.old)) (B.remaining (source reader.new)) (W.contents (sink writer.old)) (W.contents (sink writer.new)) number result }
{
    let len = match next_tape_line(reader, &mut work.line, number) {
        Ok(TapeLine::Line(len)) => len,
        Ok(TapeLine::Beyond) => return Err(ReplayFault::Tape(number)),
        Ok(TapeLine::End) => return Ok(false),
        Err(_) => return Err(ReplayFault::Read),
    };
    let end = match answer_line(hub, &work.line[..len], &mut work.desk) {
        Ok(Some(end)) => end,
        Ok(None) => return Err(ReplayFault::Tape(number)),
        Err(_) => return Err(ReplayFault::OutOfMemory),
    };
    match writer.write_bytes(&work.desk.text[..end]) {
        Ok(()) => Ok(true),
        Err(_) => Err(ReplayFault::Write),
    }
}

/// Runs the lines of a tape one after the other.
fn answer_lines<R: RouteStep, L: Doors, B: BufRead, W: Write>(
    hub: &mut Hub<R, L>,
    reader: &mut CountedReader<B>,
    writer: &mut CountedWriter<W>,
    work: &mut Workspace,
) -> Result<(), ReplayFault>
    ensures fewer { reads_left reader.new ≤ reads_left reader.old }
    ensures reads { ReplayRead (reads_left reader.new) (last_brought reader.new) result }
    ensures writes { HasWriteCause writer.new result }
    ensures replays { ReplaysOver ⟦<Hub<R, L> as Gateway>⟧.stands hub.old L.class R.reply B.remaining reader.old W.contents writer.old writer.new result }
{
    for before in 0..MAX_TAPE_LINES + 1 {
        match answer_next(hub, reader, writer, work, before + 1) {
            Ok(true) => {}
            Ok(false) => return Ok(()),
            Err(fault) => return Err(fault),
        }
    }
    // The line after the 1,000,000th is a fault.
    unreachable!()
}

/// Replays a tape over a hub without events so far: runs the event of each line, and writes its answer as a line. Reads
/// and writes are as large as the reader's and the writer's buffers, so pass ones with buffers. Each call of the reader
/// counts as a read, also an interrupted one. The writer is flushed at the end, unless it failed. Only copies of
/// datagrams to routes, and routes that are opened, are allocated. Errors: see `ReplayFault`. What was written by then is
/// the answers to the lines before it: all of them, but after `Read` those to some first lines, and after `Write` a part
/// of the text from its front.
pub fn replay_over<R: RouteStep, L: Doors, B: BufRead, W: Write>(
    alloc: Global,
    hub: &mut Hub<R, L>,
    reader: &mut CountedReader<B>,
    writer: &mut CountedWriter<W>,
) -> Result<(), ReplayFault>
    ensures fewer { reads_left reader.new ≤ reads_left reader.old }
    ensures reads { ReplayRead (reads_left reader.new) (last_brought reader.new) result }
    ensures writes { ReplayWritten writer.new result }
    ensures replays { ReplaysOver ⟦<Hub<R, L> as Gateway>⟧.stands hub.old L.class R.reply B.remaining reader.old W.contents writer.old writer.new result }
{
    let mut work = Workspace {
        line: [0; MAX_TAPE_LINE],
        desk: Desk {
            alloc,
            datagram: [0; MAX_TAPE_DATAGRAM],
            packet: [0; MAX_DATAGRAM],
            text: [0; MAX_TEXT],
        },
    };
    let answered = answer_lines(hub, reader, writer, &mut work);
    if answered == Err(ReplayFault::Write) {
        return answered;
    }
    match writer.flush() {
        Ok(()) => answered,
        Err(_) => Err(ReplayFault::Write),
    }
}

/// Replays a tape over the gateway of a configuration, without events so far. Allocates the routes first; if memory
/// is refused, nothing is read or written, and the error is `OutOfMemory`. Else as `replay_over`.
pub fn replay<B: BufRead, W: Write>(
    alloc: Global,
    config: &Config,
    reader: &mut CountedReader<B>,
    writer: &mut CountedWriter<W>,
) -> Result<(), ReplayFault>
    ensures fewer { reads_left reader.new ≤ reads_left reader.old }
    ensures reads { WasRefused reader.old reader.new writer.old writer.new result ⊎ ReplayRead (reads_left reader.new) (last_brought reader.new) result }
    ensures writes { WasRefused reader.old reader.new writer.old writer.new result ⊎ ReplayWritten writer.new result }
    ensures replays { WasRefused reader.old reader.new writer.old writer.new result
        ⊎ ReplaysOf config.now B.remaining reader.old W.contents writer.old writer.new result }
{
    match SrtGateway::open(alloc, config.secret, config.entries.as_slice()) {
        Ok(mut hub) => replay_over(alloc, &mut hub, reader, writer),
        Err(OpenFault::OutOfMemory) => Err(ReplayFault::OutOfMemory),
        // A configuration has only names and numbers that a gateway can be opened with.
        Err(OpenFault::Names | OpenFault::Limits) => unreachable!(),
    }
}
