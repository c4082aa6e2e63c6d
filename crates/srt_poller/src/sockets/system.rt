//! The calls of the system at a socket, each noted with its arguments and its answer for contracts alone. `called.rt` makes the
//! calls, and each gives evidence that has to be noted. Nothing else can note a call, so that all else is proved to call with
//! these values, so often, and to use each answer.

ghost use Rattle.std.specs.Prelude.{◌≡◌, ◌≢◌, ℕ, ◌≤◌, ◌∷◌, ◌++◌, [], IfOk, IfErr, OnOk, slice_index};
ghost use Rattle.std.specs.Duration.{as_nanos};
ghost use Rattle.mio.specs.Events.{capacity as events_capacity};
ghost use Rattle.std.specs.IoError.{error_kind};
ghost use Rattle.std.specs.declared.net.socket_addr.SocketAddr.{SocketAddr as TheAddress};
ghost use Rattle.std.specs.declared.io.ErrorKind.TheVariants.{WouldBlock};
ghost use Rattle.std.specs.Net.Socket.{socket_port, socket_flowinfo, socket_scope_id};
ghost use Rattle.srt_poller.specs.SystemCalls.{end_of_send, count_of_send, end_of_poll, end_of_opening, end_of_reading, count_of_reading};
ghost use Rattle.srt_poller.specs.declared.devices.Polled.TheVariants as ThePolled;
ghost use Rattle.srt_poller.specs.declared.sockets.system.Handed.TheVariants as TheHanded;
ghost use Rattle.srt_poller.specs.declared.sockets.system.Received.TheVariants as TheReceived;

use crate::devices::Polled;
use crate::sockets::called::{
    self, CallNotes, Called, Marks, RegisteredPoll, Socket, SocketPoll, SystemRefusal,
};
use crate::tuning::NAP_NS;
use mio::Events;
use srt_types::protocol_limits::READ_ROOM;
use std::alloc::Global;
use std::io::{self, ErrorKind};
use std::net::{IpAddr, Net, SocketAddr};
use std::time::Duration;

/// The numbers of the calls in the notes.
pub(super) const SEND: u64 = 0;

pub(super) const READ: u64 = 1;

pub(super) const POLL: u64 = 2;

pub(super) const NAP: u64 = 3;

pub(super) const TAKE_PUT_OFF: u64 = 4;

pub(super) const TAKE_SENT: u64 = 5;

pub(super) const MARK_PUT_OFF: u64 = 6;

pub(super) const COUNT_SENT: u64 = 7;

pub(super) const BIND: u64 = 8;

pub(super) const OPEN_IPV6: u64 = 9;

pub(super) const LET_IPV4_IN: u64 = 10;

pub(super) const BIND_IPV6: u64 = 11;

pub(super) const ASK_FOR_ROOM: u64 = 12;

pub(super) const REGISTER: u64 = 13;

pub(super) const OPEN_POLL: u64 = 14;

pub(super) const READ_ROOM_SIZE: u64 = 15;

pub(super) const READ_ADDRESS: u64 = 16;

/// The kind of a socket over IPv6, as its note has it: one of datagrams that doesn't block and isn't inherited.
const IPV6_SOCKET: u64 = 526_338;

/// How a call ended: it did what it does.
pub(super) const DONE: u64 = 0;

/// There is no room, or nothing to read.
pub(super) const NONE_NOW: u64 = 1;

pub(super) const FAILED: u64 = 2;

/// The answer to a send.
#[derive(Clone, Copy)]
pub(super) enum Handed {
    /// The socket took this many bytes.
    Took(usize),
    /// There is no room now.
    NoRoom,
    /// It failed.
    Failed,
}

/// The answer to a read.
#[derive(Clone, Copy)]
pub(super) enum Received {
    /// The number of bytes at the front of the buffer, and the sender.
    Datagram(usize, SocketAddr),
    /// There is none now.
    Nothing,
    /// It failed.
    Failed,
}

/// The calls so far. It has no bytes.
#[derive(Drop)]
pub(super) struct SystemCalls {
    notes: CallNotes,
}

/// The answer to a send.
pub(super) fn answer_to_send(answer: io::Result<usize>) -> Handed
    ensures took { IfOk answer (λ n. result ≡ TheHanded.Took n) }
    ensures later { IfErr answer (λ e. error_kind e ≡ WouldBlock → result ≡ TheHanded.NoRoom) }
    ensures failed { IfErr answer (λ e. error_kind e ≢ WouldBlock → result ≡ TheHanded.Failed) }
{
    match answer {
        Ok(taken) => Handed::Took(taken),
        Err(error) => {
            if error.kind() == ErrorKind::WouldBlock {
                Handed::NoRoom
            } else {
                Handed::Failed
            }
        }
    }
}

/// The answer to a read.
pub(super) fn answer_to_read(answer: io::Result<(usize, SocketAddr)>) -> Received
    ensures datagram { IfOk answer (λ a. result ≡ TheReceived.Datagram a.0 a.1) }
    ensures nothing { IfErr answer (λ e. error_kind e ≡ WouldBlock → result ≡ TheReceived.Nothing) }
    ensures failed { IfErr answer (λ e. error_kind e ≢ WouldBlock → result ≡ TheReceived.Failed) }
{
    match answer {
        Ok((len, from)) => Received::Datagram(len, from),
        Err(error) => {
            if error.kind() == ErrorKind::WouldBlock {
                Received::Nothing
            } else {
                Received::Failed
            }
        }
    }
}

/// The answer to a wait.
pub(super) fn answer_to_poll(answer: io::Result<()>) -> Polled
    ensures ready { OnOk answer (result ≡ ThePolled.Ready) }
    ensures failed { IfErr answer (λ _. result ≡ ThePolled.Failed) }
{
    match answer {
        Ok(()) => Polled::Ready,
        Err(_) => Polled::Failed,
    }
}

/// How a send ended and the number of its bytes, as its note has them.
pub(super) fn noted_send(answer: Handed) -> [u64; 2]
    ensures { result ≡ end_of_send answer ∷ count_of_send answer ∷ [] }
{
    match answer {
        Handed::Took(len) => [DONE, len as u64],
        Handed::NoRoom => [NONE_NOW, 0],
        Handed::Failed => [FAILED, 0],
    }
}

/// How a wait ended, as its note has it.
pub(super) fn noted_poll(answer: Polled) -> u64
    ensures { result ≡ end_of_poll answer }
{
    match answer {
        Polled::Ready => DONE,
        Polled::Failed => FAILED,
    }
}

/// How a call that opens a socket ended, as its note has it.
pub(super) fn noted_opening<T, E>(answer: &Result<T, E>) -> u64
    ensures { result ≡ end_of_opening answer.now }
{
    match answer {
        Ok(_) => DONE,
        Err(_) => FAILED,
    }
}

/// How a read of the receive buffer's size ended, and the size, as its note has them.
pub(super) fn noted_room(answer: Option<u32>) -> [u64; 2]
    ensures { result ≡ end_of_reading answer ∷ count_of_reading answer ∷ [] }
{
    match answer {
        Some(room) => [DONE, u64::from(room)],
        None => [FAILED, 0],
    }
}

/// The numbers of a note with an address: the call's own, how it ended with which number, and those of the address.
pub(super) fn numbers_at(of: [u64; 3], address: SocketAddr) -> [u64; 6]
    ensures { result ≡ slice_index of 0 ∷ slice_index of 1 ∷ slice_index of 2 ∷
        socket_port address ∷ socket_flowinfo address ∷ socket_scope_id address ∷ [] }
{
    let [call, end, number] = of;
    match address {
        SocketAddr::V4(it) => [call, end, number, u64::from(it.port()), 0, 0],
        SocketAddr::V6(it) => {
            let label = u64::from(it.flowinfo());
            let zone = u64::from(it.scope_id());
            [call, end, number, u64::from(it.port()), label, zone]
        }
    }
}

impl SystemCalls {
    ghost use Rattle.srt_poller.specs.SystemCalls.{IsEvidence, notes_of, note_at, send_note, receive_note, poll_note, nap_note};
    ghost use Rattle.srt_poller.specs.SystemCalls.{put_off_note, sent_note, mark_note, count_note};
    ghost use Rattle.srt_poller.specs.SystemCalls.{bind_note, open_note, callers_note, name_note, room_note, register_note};
    ghost use Rattle.srt_poller.specs.SystemCalls.{open_poll_note, read_room_note, read_address_note};

    /// None yet, as `CallNotes::new`.
    pub(super) fn new(alloc: Global) -> SystemCalls
        ensures { notes_of result ≡ [] }
    {
        SystemCalls {
            notes: CallNotes::new(alloc),
        }
    }

    // Notes a call by numbers alone.
    fn note(&mut self, called: Called, numbers: &[u64])
        requires { IsEvidence (numbers.now, [], []) called }
        ensures { notes_of self.new ≡ notes_of self.old ++ (numbers.now, [], []) ∷ [] }
    {
        self.notes.note(called, numbers, &[], &[]);
    }

    // Notes a call by its own number, and how it ended with which number, with an address and bytes.
    fn note_at(&mut self, called: Called, of: [u64; 3], address: SocketAddr, bytes: &[u8])
        requires { IsEvidence (note_at (slice_index of 0) (slice_index of 1) (slice_index of 2) address bytes.now) called }
        ensures { notes_of self.new ≡ notes_of self.old ++ note_at (slice_index of 0) (slice_index of 1) (slice_index of 2) address bytes.now ∷ [] }
    {
        let numbers = numbers_at(of, address);
        match address.ip() {
            IpAddr::V4(ip) => self.notes.note(called, &numbers, &ip.octets(), bytes),
            IpAddr::V6(ip) => self.notes.note(called, &numbers, &ip.octets(), bytes),
        }
    }

    /// Sends these bytes to this address.
    pub(super) fn send(&mut self, socket: &Socket, to: SocketAddr, bytes: &[u8]) -> Handed
        ensures { notes_of self.new ≡ notes_of self.old ++ send_note to bytes.now result ∷ [] }
    {
        let (answer, called) = socket.send_to(bytes, to);
        let [end, count] = noted_send(answer);
        self.note_at(called, [SEND, end, count], to, bytes);
        answer
    }

    /// Reads a datagram to the front of the buffer.
    pub(super) fn receive(&mut self, socket: &Socket, buffer: &mut [u8; READ_ROOM]) -> Received
        ensures noted { notes_of self.new ≡ notes_of self.old ++ receive_note buffer.new result ∷ [] }
        ensures within { (n : ℕ) (from : TheAddress) → result ≡ TheReceived.Datagram n from → n ≤ 2048 }
    {
        let (answer, called) = socket.recv_from(buffer);
        match answer {
            Received::Datagram(len, from) => {
                self.note_at(called, [READ, DONE, len as u64], from, buffer)
            }
            Received::Nothing => self.notes.note(called, &[READ, NONE_NOW], &[], buffer),
            Received::Failed => self.notes.note(called, &[READ, FAILED], &[], buffer),
        }
        answer
    }

    /// Waits until the socket has a datagram, for at most this time.
    pub(super) fn poll(
        &mut self,
        poll: &mut RegisteredPoll,
        events: &mut Events<Global>,
        most: Duration,
    ) -> Polled
        ensures noted { notes_of self.new ≡ notes_of self.old ++ poll_note (as_nanos most) result ∷ [] }
        ensures room { events_capacity events.new ≡ events_capacity events.old }
    {
        let (answer, called) = poll.poll(events, most);
        let end = noted_poll(answer);
        self.note(
            called,
            &[POLL, end, most.as_secs(), u64::from(most.subsec_nanos())],
        );
        answer
    }

    /// Sleeps for a tenth of a millisecond, or until a signal.
    pub(super) fn nap(&mut self)
        ensures { notes_of self.new ≡ notes_of self.old ++ nap_note 100_000 ∷ [] }
    {
        let called = called::nap(NAP_NS);
        self.note(called, &[NAP, u64::from(NAP_NS)]);
    }

    /// Takes the mark that a send was put off.
    pub(super) fn take_put_off(&mut self, marks: &Marks) -> bool
        ensures { notes_of self.new ≡ notes_of self.old ++ put_off_note result ∷ [] }
    {
        let (put_off, called) = marks.take_put_off();
        self.note(called, &[TAKE_PUT_OFF, u64::from(put_off)]);
        put_off
    }

    /// Takes the number of the sends since this was called last, modulo 2^32.
    pub(super) fn take_sent(&mut self, marks: &Marks) -> u32
        ensures { notes_of self.new ≡ notes_of self.old ++ sent_note result ∷ [] }
    {
        let (sent, called) = marks.take_sent();
        self.note(called, &[TAKE_SENT, u64::from(sent)]);
        sent
    }

    /// Marks that a send was put off.
    pub(super) fn mark_put_off(&mut self, marks: &Marks)
        ensures { notes_of self.new ≡ notes_of self.old ++ mark_note ∷ [] }
    {
        let called = marks.mark_put_off();
        self.note(called, &[MARK_PUT_OFF]);
    }

    /// Counts a send.
    pub(super) fn count_sent(&mut self, marks: &Marks)
        ensures { notes_of self.new ≡ notes_of self.old ++ count_note ∷ [] }
    {
        let called = marks.count_sent();
        self.note(called, &[COUNT_SENT]);
    }

    /// Binds a socket at an address of IPv4.
    pub(super) fn bind<N: Net>(
        &mut self,
        net: &N,
        address: SocketAddr,
    ) -> Result<Socket, SystemRefusal>
        ensures { notes_of self.new ≡ notes_of self.old ++ bind_note (end_of_opening result) address ∷ [] }
    {
        let (answer, called) = Socket::bind(net, address);
        self.note_at(called, [BIND, noted_opening(&answer), 0], address, &[]);
        answer
    }

    /// Opens a socket of IPv6 that isn't bound.
    pub(super) fn open_ipv6(&mut self) -> Result<Socket, SystemRefusal>
        ensures { notes_of self.new ≡ notes_of self.old ++ open_note (end_of_opening result) ∷ [] }
    {
        let (answer, called) = Socket::open_ipv6();
        self.note(called, &[OPEN_IPV6, noted_opening(&answer), IPV6_SOCKET]);
        answer
    }

    /// Lets a socket of IPv6 that isn't bound also have callers over IPv4: IPV6_V6ONLY is off.
    pub(super) fn let_ipv4_in(&mut self, socket: &Socket) -> Result<(), SystemRefusal>
        ensures { notes_of self.new ≡ notes_of self.old ++ callers_note (end_of_opening result) ∷ [] }
    {
        let (answer, called) = socket.let_ipv4_in();
        let end = noted_opening(&answer);
        self.notes.note(called, &[LET_IPV4_IN, end], &[], &[0; 16]);
        answer
    }

    /// Binds a socket of IPv6 at this C name of an address.
    pub(super) fn bind_at(&mut self, socket: &Socket, name: &[u8; 128]) -> Result<(), SystemRefusal>
        ensures { notes_of self.new ≡ notes_of self.old ++ name_note (end_of_opening result) name.now ∷ [] }
    {
        let (answer, called) = socket.bind_at(name);
        let end = noted_opening(&answer);
        self.notes.note(called, &[BIND_IPV6, end], name, &[]);
        answer
    }

    /// Asks for a receive buffer of this many bytes. The system may give less; that isn't checked.
    pub(super) fn ask_for_room(&mut self, socket: &Socket, size: u32)
        ensures { notes_of self.new ≡ notes_of self.old ++ room_note size ∷ [] }
    {
        let (_, called) = socket.ask_for_room(size);
        self.note(called, &[ASK_FOR_ROOM, u64::from(size)]);
    }

    /// Opens a poll, which has no socket yet.
    pub(super) fn open_poll<N: Net>(&mut self, net: &N) -> Result<SocketPoll, SystemRefusal>
        ensures { notes_of self.new ≡ notes_of self.old ++ open_poll_note (end_of_opening result) ∷ [] }
    {
        let (answer, called) = SocketPoll::new(net);
        self.note(called, &[OPEN_POLL, noted_opening(&answer)]);
        answer
    }

    /// Has the socket polled for datagrams that may be read.
    pub(super) fn register(
        &mut self,
        poll: SocketPoll,
        socket: &mut Socket,
    ) -> Result<RegisteredPoll, SystemRefusal>
        ensures noted { notes_of self.new ≡ notes_of self.old ++ register_note (end_of_opening result) ∷ [] }
        ensures same { socket.new ≡ socket.old }
    {
        let (answer, called) = poll.register(socket);
        self.note(called, &[REGISTER, noted_opening(&answer)]);
        answer
    }

    /// Reads the size of the socket's receive buffer. `None` if the system doesn't give it.
    pub(super) fn read_room(&mut self, socket: &Socket) -> Option<u32>
        ensures { notes_of self.new ≡ notes_of self.old ++ read_room_note result ∷ [] }
    {
        let (answer, called) = socket.room();
        let [end, count] = noted_room(answer);
        self.note(called, &[READ_ROOM_SIZE, end, count]);
        answer
    }

    /// Reads the socket's own address. `None` if the system doesn't give it.
    pub(super) fn read_address(&mut self, socket: &Socket) -> Option<SocketAddr>
        ensures { notes_of self.new ≡ notes_of self.old ++ read_address_note result ∷ [] }
    {
        let (answer, called) = socket.address();
        match answer {
            Some(address) => self.note_at(called, [READ_ADDRESS, DONE, 0], address, &[]),
            None => self.note(called, &[READ_ADDRESS, FAILED]),
        }
        answer
    }
}
