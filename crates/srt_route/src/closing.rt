//! SHUTDOWNs to peers: of every open session when a route is closed; on a route for libsrt callers, also of a session
//! that ends by silence or by a lost window.

ghost use Rattle.std.specs.Prelude.{◌≡◌, None, [], ◌∷◌, map};
ghost use Rattle.srt_packet.specs.Encoded.{bytes_of};
ghost use Rattle.srt_packet.specs.Text.{text};
ghost use Rattle.srt_route.specs.Route.{ended, shutdown_to};
ghost use Rattle.srt_route.specs.Sessions.{by_slot};
ghost use Rattle.srt_route.specs.Tables.{with_stored};
ghost use Rattle.srt_route.specs.Buffers.{datagrams_to};
ghost use Rattle.srt_route.specs.inside.Reports.{Queues};
ghost use Rattle.srt_types.specs.Given.{given};
ghost use Rattle.srt_route.specs.Tables.{written_of};
ghost use Rattle.srt_route.specs.inside.OneSession.{is_lost, shutdown_of, shutdowns_if, shutdowns_to};
ghost use Rattle.srt_route.specs.inside.Calls.{TableBecomes, Transmits};

use crate::replies::Reply;
use crate::reply_queue::ReplyQueue;
use crate::seat::{Seat, Session, recounted};
use crate::table::Table;
use srt_packet::{Body, EncodedPacket, Packet};
use srt_pub::PubEnd;
use srt_types::Callers;

/// Writes a session's SHUTDOWN (section 3.2.7), with the session's time as its timestamp.
fn write_shutdown(session: &Session, clock: u64, packet: &mut EncodedPacket)
    ensures { bytes_of packet.new ≡ text (shutdown_of clock session.now) }
{
    let time = clock.saturating_sub(session.opened);
    packet.write(&Packet {
        stamp: (time % (1 << 32)) as u32,
        dest: session.caller,
        body: Body::Shutdown,
    });
}

/// Queues a session's SHUTDOWN.
fn queue_shutdown(session: &Session, clock: u64, hand: &mut Box<Reply>, waiting: &mut ReplyQueue)
    ensures { Queues waiting.old waiting.new (datagrams_to session.now.peer (text (shutdown_of clock session.now) ∷ [])) }
{
    write_shutdown(session, clock, &mut hand.packet);
    waiting.put_to(session.peer, hand);
}

/// Queues the SHUTDOWN of the session in this seat, if one is open, it `ends`, and the route is for libsrt callers.
pub fn tell_end(
    seat: &Seat,
    callers: Callers,
    ends: bool,
    clock: u64,
    hand: &mut Box<Reply>,
    waiting: &mut ReplyQueue,
)
    ensures { Queues waiting.old waiting.new (shutdowns_if callers ends clock seat.now.session) }
{
    match callers {
        Callers::Draft => {}
        Callers::Libsrt => {
            if ends {
                queue_shutdown_of(seat, clock, hand, waiting);
            }
        }
    }
}

/// Queues the SHUTDOWN of the session in this seat, if one is open.
fn queue_shutdown_of(seat: &Seat, clock: u64, hand: &mut Box<Reply>, waiting: &mut ReplyQueue)
    ensures { Queues waiting.old waiting.new (shutdowns_to clock seat.now.session) }
{
    if let Some(session) = &seat.session {
        queue_shutdown(session, clock, hand, waiting);
    }
}

fn is_lost(end: Option<PubEnd>) -> bool
    ensures { result ≡ is_lost end }
{
    match end {
        Some(PubEnd::WindowLost) => true,
        Some(PubEnd::Shutdown) => false,
        None => false,
    }
}

/// Writes the SHUTDOWN of the session in this seat into `reply`. Returns false if none is open.
fn write_shutdown_of(seat: &Seat, clock: u64, reply: &mut Reply) -> bool
    ensures { written_of (given result reply.new) ≡ shutdowns_to clock seat.now.session }
{
    match &seat.session {
        Some(session) => {
            write_shutdown(session, clock, &mut reply.packet);
            reply.peer = session.peer;
            true
        }
        None => false,
    }
}

/// Writes the SHUTDOWN of the session in this seat into `reply`, if the session ends by a lost window and the route is
/// for libsrt callers. Returns false if none is sent.
pub fn tell_lost(
    seat: &Seat,
    callers: Callers,
    end: Option<PubEnd>,
    clock: u64,
    reply: &mut Reply,
) -> bool
    ensures { written_of (given result reply.new) ≡ shutdowns_if callers (is_lost end) clock seat.now.session }
{
    match callers {
        Callers::Draft => false,
        Callers::Libsrt => {
            if is_lost(end) {
                write_shutdown_of(seat, clock, reply)
            } else {
                false
            }
        }
    }
}

/// Ends the session in this seat, if one is open, and queues its SHUTDOWN.
pub fn close_seat(seat: &mut Seat, clock: u64, hand: &mut Box<Reply>, waiting: &mut ReplyQueue)
    ensures seat { seat.new ≡ with_stored None seat.old }
    ensures said { Queues waiting.old waiting.new (shutdowns_to clock seat.old.session) }
{
    queue_shutdown_of(seat, clock, hand, waiting);
    seat.session = None;
}

/// Ends every open session and queues its SHUTDOWN, in ascending order of slots.
pub fn close_seats(table: &mut Table, clock: u64, hand: &mut Box<Reply>, waiting: &mut ReplyQueue)
    ensures table { TableBecomes clock table.old table.new (λ e. map ended) }
    ensures said { Transmits clock table.old waiting.old waiting.new (λ e sessions. map (shutdown_to clock) (by_slot e sessions)) }
{
    for at in 0..table.seats.len() {
        let before = table.seats[at].has_publisher();
        close_seat(&mut table.seats[at], clock, hand, waiting);
        table.open_publishers = recounted(table.open_publishers, before, false);
    }
}
