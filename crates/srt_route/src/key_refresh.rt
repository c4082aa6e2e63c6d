//! Step 3 of an event on a route with a secured role, a KMREQ during a publisher's session: the session takes its keys, and
//! a KMRSP answers it (section 3.2.2; the answers to faulty ones are our choice).

ghost use Rattle.std.specs.Prelude.{◌≡◌, ◌≤◌, ◌++◌, ◌-◌, length, option_map, IfSome};
ghost use Rattle.srt_packet.specs.View.{packet_of};
ghost use Rattle.srt_route.specs.KeyRefresh.{request_in};
ghost use Rattle.srt_route.specs.inside.Secured.{AnswersRequest};

use crate::arrival::Arrival;
use crate::replies::Reply;
use crate::route_keys::RouteKeys;
use crate::seat::Session;
use crate::socket_ids::slot_in;
use crate::table::Table;
use srt_packet::{KeyPacketKind, KeyPacketRef, PacketRef, decode_key_parts};
use srt_session_keys::KeyAnswer;
use srt_types::Peer;

/// A KMREQ, borrowed from its datagram.
#[derive(Clone, Copy)]
pub(crate) struct KeyRequestRef<'a> {
    /// The packet, as the sessions process it.
    pub packet: PacketRef<'a>,
    /// Its contents: all bytes after the header.
    pub contents: &'a [u8],
}

/// A KMRSP to a session's peer.
#[derive(Clone, Copy)]
pub(crate) struct KeyResponse {
    /// The peer's address.
    pub peer: Peer,
    /// The peer's socket ID.
    pub caller: u32,
    /// The session's time, in microseconds since its opening.
    pub time: u64,
    /// What the KMREQ is answered.
    pub answer: KeyAnswer,
}

impl KeyResponse {
    ghost use Rattle.srt_route.specs.Route.{sent};
    ghost use Rattle.srt_route.specs.Written.{written};
    ghost use Rattle.srt_route.specs.inside.Secured.{response_of};

    /// Writes the KMRSP to a KMREQ with these contents into `reply`, with the session's time as its timestamp.
    pub fn write(&self, contents: &[u8], reply: &mut Reply)
        requires { length contents.now ≤ 1456 }
        ensures { written reply.new ≡ sent (response_of self.now contents.now) }
    {
        reply.peer = self.peer;
        reply.packet.write_key_packet(&KeyPacketRef {
            stamp: (self.time % (1 << 32)) as u32,
            dest: self.caller,
            kind: KeyPacketKind::Response,
            info: self.answer.response(contents),
        });
    }
}

/// Returns the contents of the KMREQ that a datagram is, if it is one: all bytes after its header.
pub(crate) fn request_in<'a>(head: &[u8; 16], body: &'a [u8]) -> Option<&'a [u8]>
    ensures contents { option_map (λ contents. contents.now) result ≡ request_in (head.now ++ body.now) }
    ensures fits { IfSome result (λ contents. length contents.now ≤ 1456) }
{
    let packet = decode_key_parts(head, body)?;
    match packet.kind {
        KeyPacketKind::Request => Some(packet.info),
        KeyPacketKind::Response => None,
    }
}

/// Returns a session's time: microseconds since its opening.
fn time_of(session: &Session, clock: u64) -> u64
    ensures { result ≡ clock - session.now.opened }
{
    clock.saturating_sub(session.opened)
}

/// Takes the keys of a KMREQ for an open publisher's session with keys, and returns its KMRSP. None for any other session:
/// then nothing changes.
pub(crate) fn answer_request(
    table: &Table,
    keys: &mut RouteKeys,
    arrival: Arrival,
    request: &KeyRequestRef<'_>,
) -> Option<KeyResponse>
    requires places { length keys.old.slots.items ≡ length table.now.seats.items }
    ensures answered { AnswersRequest arrival request.now.contents.now (packet_of request.now.packet) table.now keys.old keys.new result }
    ensures places { length keys.new.slots.items ≡ length keys.old.slots.items }
{
    if request.packet.dest == 0 {
        return None;
    }
    let at = slot_in(request.packet.dest);
    if at >= table.seats.len() {
        return None;
    }
    let seat = &table.seats[at];
    if !seat.is_for(arrival.peer, request.packet.dest) {
        return None;
    }
    match &seat.session {
        Some(session) => match keys.refresh(at, request.contents) {
            Some(answer) => Some(KeyResponse {
                peer: session.peer,
                caller: session.caller,
                time: time_of(session, arrival.clock),
                answer,
            }),
            None => None,
        },
        None => None,
    }
}
