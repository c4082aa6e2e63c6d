//! The calls of the system at a UDP socket, each by a function of a line or two, whose effect is trusted. Nothing else has the
//! system's socket, nor what a wire marks for its source. A call returns evidence of its note: which call was made, with which
//! values, and how it ended. The evidence can't be dropped, and can only be noted, as that note. So a call is noted as often as
//! it is made, with the values that it had, and as the system answered it. What the system refused is a value that nothing else
//! makes, and so is a poll with a registered socket.

ghost use Rattle.std.specs.Prelude.{◌≡◌, ℕ, ◌≤◌, ◌∷◌, [], pos, ◌≤ℤ◌, ◌<ℤ◌, IfOk, IfErr, OnOk, Some, IfSome, IfNone, slice_index};
ghost use Rattle.srt_poller.specs.SystemCalls.{word_in};
ghost use Rattle.std.specs.Duration.{as_nanos};
ghost use Rattle.std.specs.IoError.{raw_os_error};
ghost use Rattle.mio.specs.Events.{capacity as events_capacity};
ghost use Rattle.std.specs.declared.net.socket_addr.SocketAddr.{SocketAddr as TheAddress};
ghost use Rattle.srt_poller.specs.SystemCalls.{IsEvidence, end_of_opening, note_at, send_note, receive_note, poll_note, nap_note};
ghost use Rattle.srt_poller.specs.SystemCalls.{put_off_note, sent_note, mark_note, count_note};
ghost use Rattle.srt_poller.specs.SystemCalls.{bind_note, open_note, callers_note, name_note, room_note, open_poll_note, register_note};
ghost use Rattle.srt_poller.specs.SystemCalls.{read_room_note, read_address_note};
ghost use Rattle.srt_poller.specs.declared.sockets.system.Received.TheVariants as TheReceived;

use crate::devices::Polled;
use crate::sockets::system::{
    ASK_FOR_ROOM, BIND, BIND_IPV6, COUNT_SENT, DONE, FAILED, Handed, LET_IPV4_IN, MARK_PUT_OFF,
    NAP, NONE_NOW, OPEN_IPV6, OPEN_POLL, POLL, READ, READ_ADDRESS, READ_ROOM_SIZE, REGISTER,
    Received, SEND, TAKE_PUT_OFF, TAKE_SENT, answer_to_poll, answer_to_read, answer_to_send,
    noted_opening, noted_poll, noted_room, noted_send, numbers_at,
};
use libc::net;
use libc::types::timespec;
use mio::net::UdpSocket;
use mio::{Events, Interest, Poll, Token};
use os::{FromRawFd, errno};
use srt_journal::Journal;
use srt_types::protocol_limits::READ_ROOM;
use std::alloc::Global;
use std::io;
use std::net::{IpAddr, Net, SocketAddr};
use std::os::fd::AsRawFd;
use std::sync::atomic::{AtomicBool, AtomicU32, Ordering};
use std::time::Duration;

/// The size of C's `sockaddr_in6`, in bytes.
const NAME_SIZE: u32 = 28;

/// Evidence that a call was made, with what its note has. It has no bytes, and no `Drop`: whoever makes a call has to note it.
pub(super) struct Called {
    // Private, so that nothing else makes any, or changes one: the note of the call, for contracts alone.
    journal: Journal,
}

/// The calls so far. It has no bytes. Only the opening of a socket can make any, so that a later call can't be noted elsewhere.
#[derive(Drop)]
pub(super) struct CallNotes {
    journal: Journal,
}

/// A UDP socket of the system.
#[derive(Drop)]
pub(super) struct Socket {
    socket: UdpSocket,
}

/// What the system refused: the number of its error, if it gave one. Only the calls of this file make any.
#[derive(Drop)]
pub struct SystemRefusal {
    number: Option<i32>,
}

/// A poll without a socket.
#[derive(Drop)]
pub(super) struct SocketPoll {
    poll: Poll,
}

/// A poll with which a socket is registered: it waits for the datagrams of that socket. Only a registration that the system
/// made gives one.
#[derive(Drop)]
pub(super) struct RegisteredPoll {
    poll: Poll,
}

/// What a wire tells its source. Hints.
#[derive(Drop)]
pub(super) struct Marks {
    // A send returned Later since the source last waited.
    put_off: AtomicBool,
    // The number of datagrams sent since the source last waited, modulo 2^32. Sends by another thread than the source's may
    // be counted short.
    sent: AtomicU32,
}

// Evidence of a call that has just been made: its number and further ones, the bytes of an address, and bytes.
#[inline(always)]
fn evidence(numbers: &[u64], address: &[u8], bytes: &[u8]) -> Called
    ensures { IsEvidence (numbers.now, address.now, bytes.now) result }
{
    let mut journal = Journal::new();
    journal.note(numbers, address, bytes);
    Called { journal }
}

// Evidence of a call by numbers alone.
#[inline(always)]
fn evidence_of(numbers: &[u64]) -> Called
    ensures { IsEvidence (numbers.now, [], []) result }
{
    evidence(numbers, &[], &[])
}

// Evidence of a call by its own number, and how it ended with which number, with an address and bytes.
#[inline(always)]
fn evidence_at(of: [u64; 3], address: SocketAddr, bytes: &[u8]) -> Called
    ensures { IsEvidence (note_at (slice_index of 0) (slice_index of 1) (slice_index of 2) address bytes.now) result }
{
    let numbers = numbers_at(of, address);
    match address.ip() {
        IpAddr::V4(ip) => evidence(&numbers, &ip.octets(), bytes),
        IpAddr::V6(ip) => evidence(&numbers, &ip.octets(), bytes),
    }
}

impl CallNotes {
    /// None yet. It takes an allocator, which it doesn't use, since the functions that call the system at an open socket have none.
    pub(super) fn new(_alloc: Global) -> CallNotes
        ensures { result.journal.notes ≡ [] }
    {
        CallNotes {
            journal: Journal::new(),
        }
    }

    /// Notes a call, as its evidence has it: its own number and further ones, the bytes of an address, and bytes.
    pub(super) fn note(&mut self, called: Called, numbers: &[u64], address: &[u8], bytes: &[u8])
        requires { IsEvidence (numbers.now, address.now, bytes.now) called }
        ensures { self.new.journal.notes ≡ (numbers.now, address.now, bytes.now) ∷ self.old.journal.notes }
    {
        let Called { journal: _ } = called;
        self.journal.note(numbers, address, bytes);
    }
}

// What the system refused with this error.
fn refusal_of(error: io::Error) -> SystemRefusal
    ensures { result.number ≡ raw_os_error error }
{
    SystemRefusal {
        number: error.raw_os_error(),
    }
}

/// The number of the error of the last call of C. Only `errno_now` makes any.
#[derive(Drop)]
struct Errno {
    number: i32,
}

// The number of the error of the last call of C, in this thread.
fn errno_now() -> Errno {
    Errno { number: errno() }
}

// What the system refused by the last call of C, with this error.
fn last_refusal(errno: Errno) -> SystemRefusal
    ensures { result.number ≡ Some errno.number }
{
    SystemRefusal {
        number: Some(errno.number),
    }
}

// The socket that was bound, if it was.
fn bound(socket: io::Result<UdpSocket>) -> Result<Socket, SystemRefusal>
    ensures end { end_of_opening result ≡ end_of_opening socket }
    ensures number { IfErr socket (λ error. IfErr result (λ refusal. refusal.number ≡ raw_os_error error)) }
{
    match socket {
        Ok(socket) => Ok(Socket { socket }),
        Err(error) => Err(refusal_of(error)),
    }
}

// The socket with this descriptor, if there is one.
fn opened(descriptor: i32) -> Result<Socket, SystemRefusal>
    ensures opened { IfOk result (λ _. pos 0 ≤ℤ descriptor) }
    ensures refused { IfErr result (λ _. descriptor <ℤ pos 0) }
{
    if descriptor < 0 {
        return Err(last_refusal(errno_now()));
    }
    let socket = unsafe { UdpSocket::from_raw_fd(descriptor) };
    Ok(Socket { socket })
}

// Whether a call of C succeeded.
fn status_of(status: i32) -> Result<(), SystemRefusal>
    ensures done { OnOk result (pos 0 ≤ℤ status) }
    ensures refused { IfErr result (λ _. status <ℤ pos 0) }
{
    if status < 0 {
        Err(last_refusal(errno_now()))
    } else {
        Ok(())
    }
}

// The poll that was opened, if it was.
fn unregistered(poll: io::Result<Poll>) -> Result<SocketPoll, SystemRefusal>
    ensures end { end_of_opening result ≡ end_of_opening poll }
    ensures number { IfErr poll (λ error. IfErr result (λ refusal. refusal.number ≡ raw_os_error error)) }
{
    match poll {
        Ok(poll) => Ok(SocketPoll { poll }),
        Err(error) => Err(refusal_of(error)),
    }
}

// The poll, once the registration of a socket with it has ended so.
fn registered(poll: Poll, registration: io::Result<()>) -> Result<RegisteredPoll, SystemRefusal>
    ensures end { end_of_opening result ≡ end_of_opening registration }
    ensures number { IfErr registration (λ error. IfErr result (λ refusal. refusal.number ≡ raw_os_error error)) }
{
    match registration {
        Ok(()) => Ok(RegisteredPoll { poll }),
        Err(error) => Err(refusal_of(error)),
    }
}

// The number of C's type int at the front of these bytes.
fn number_in(value: [u8; 16]) -> u32
    ensures { result ≡ word_in value }
{
    u32::from_ne_bytes([value[0], value[1], value[2], value[3]])
}

// The bytes of C's type int with this number, and zeros after them.
fn int_value(number: u32) -> [u8; 16]
    ensures { word_in result ≡ number }
{
    let [a, b, c, d] = number.to_ne_bytes();
    [a, b, c, d, 0, 0, 0, 0, 0, 0, 0, 0, 0, 0, 0, 0]
}

// The size of the receive buffer in what a call of C with this status returned.
fn room_in(status: i32, value: [u8; 16]) -> Option<u32>
    ensures some { IfSome result (λ room. (pos 0 ≤ℤ status) × (room ≡ word_in value)) }
    ensures none { IfNone result (status <ℤ pos 0) }
{
    match status_of(status) {
        Ok(()) => Some(number_in(value)),
        Err(_) => None,
    }
}

impl SystemRefusal {
    /// The number of the system's error, if it gave one. `std::io::Error::from_raw_os_error` has its words.
    pub fn number(&self) -> Option<i32>
        ensures { result ≡ self.now.number }
    {
        self.number
    }
}

impl Socket {
    /// As `UdpSocket::bind`.
    pub(super) fn bind<N: Net>(
        net: &N,
        address: SocketAddr,
    ) -> (Result<Socket, SystemRefusal>, Called)
        ensures { IsEvidence (bind_note (end_of_opening result.0) address) result.1 }
    {
        let answer = bound(UdpSocket::bind(net, address));
        let end = noted_opening(&answer);
        (answer, evidence_at([BIND, end, 0], address, &[]))
    }

    /// C's `socket`, for a socket of IPv6.
    pub(super) fn open_ipv6() -> (Result<Socket, SystemRefusal>, Called)
        ensures { IsEvidence (open_note (end_of_opening result.0)) result.1 }
    {
        let kind = net::SOCK_DGRAM | net::SOCK_NONBLOCK | net::SOCK_CLOEXEC;
        let descriptor = unsafe { net::socket(net::AF_INET6, kind, 0) };
        let answer = opened(descriptor);
        let end = noted_opening(&answer);
        (answer, evidence_of(&[OPEN_IPV6, end, kind as u64]))
    }

    /// C's `setsockopt`: IPV6_V6ONLY is off. Its answer by `status_of`.
    pub(super) fn let_ipv4_in(&self) -> (Result<(), SystemRefusal>, Called)
        ensures { IsEvidence (callers_note (end_of_opening result.0)) result.1 }
    {
        let fd = self.socket.as_raw_fd();
        let only = [0; 16];
        let status = unsafe { net::setsockopt(fd, net::IPPROTO_IPV6, net::IPV6_V6ONLY, &only, 4) };
        let answer = status_of(status);
        let end = noted_opening(&answer);
        (answer, evidence(&[LET_IPV4_IN, end], &[], &only))
    }

    /// C's `bind`, at this C name of an address of IPv6. Its answer by `status_of`.
    pub(super) fn bind_at(&self, name: &[u8; 128]) -> (Result<(), SystemRefusal>, Called)
        ensures { IsEvidence (name_note (end_of_opening result.0) name.now) result.1 }
    {
        let status = unsafe { net::bind(self.socket.as_raw_fd(), name, NAME_SIZE) };
        let answer = status_of(status);
        let end = noted_opening(&answer);
        (answer, evidence(&[BIND_IPV6, end], name, &[]))
    }

    /// C's `setsockopt`: SO_RCVBUF has this size. The evidence has the number in the bytes that the call was given.
    pub(super) fn ask_for_room(&self, size: u32) -> (i32, Called)
        ensures { IsEvidence (room_note size) result.1 }
    {
        let value = int_value(size);
        let fd = self.socket.as_raw_fd();
        let status = unsafe { net::setsockopt(fd, net::SOL_SOCKET, net::SO_RCVBUF, &value, 4) };
        let given = number_in(value);
        (status, evidence_of(&[ASK_FOR_ROOM, u64::from(given)]))
    }

    /// C's `getsockopt`: SO_RCVBUF, if the system gives it, by `room_in`.
    pub(super) fn room(&self) -> (Option<u32>, Called)
        ensures { IsEvidence (read_room_note result.0) result.1 }
    {
        let mut value = [0; 16];
        let mut len = 16;
        let fd = self.socket.as_raw_fd();
        let status = unsafe {
            net::getsockopt(fd, net::SOL_SOCKET, net::SO_RCVBUF, &mut value, &mut len)
        };
        let room = room_in(status, value);
        let [end, count] = noted_room(room);
        (room, evidence_of(&[READ_ROOM_SIZE, end, count]))
    }

    /// As `UdpSocket::send_to`, with its answer by `answer_to_send`.
    #[inline(always)]
    pub(super) fn send_to(&self, bytes: &[u8], to: SocketAddr) -> (Handed, Called)
        ensures { IsEvidence (send_note to bytes.now result.0) result.1 }
    {
        let handed = answer_to_send(self.socket.send_to(bytes, to));
        let [end, count] = noted_send(handed);
        (handed, evidence_at([SEND, end, count], to, bytes))
    }

    /// As `UdpSocket::recv_from`, with its answer by `answer_to_read`.
    #[inline(always)]
    pub(super) fn recv_from(&self, buffer: &mut [u8; READ_ROOM]) -> (Received, Called)
        ensures call { IsEvidence (receive_note buffer.new result.0) result.1 }
        ensures within { (n : ℕ) (from : TheAddress) → result.0 ≡ TheReceived.Datagram n from → n ≤ 2048 }
    {
        let received = answer_to_read(self.socket.recv_from(buffer.as_mut_slice()));
        let called = match received {
            Received::Datagram(len, from) => evidence_at([READ, DONE, len as u64], from, buffer),
            Received::Nothing => evidence(&[READ, NONE_NOW], &[], buffer),
            Received::Failed => evidence(&[READ, FAILED], &[], buffer),
        };
        (received, called)
    }

    /// As `UdpSocket::local_addr`. `None` if the system doesn't give it.
    pub(super) fn address(&self) -> (Option<SocketAddr>, Called)
        ensures { IsEvidence (read_address_note result.0) result.1 }
    {
        let address = self.socket.local_addr().ok();
        let called = match address {
            Some(address) => evidence_at([READ_ADDRESS, DONE, 0], address, &[]),
            None => evidence_of(&[READ_ADDRESS, FAILED]),
        };
        (address, called)
    }

    /// As `UdpSocket::connect`.
    #[cfg(test)]
    pub(super) fn connect(&self, peer: SocketAddr) -> io::Result<()> {
        self.socket.connect(peer)
    }
}

impl SocketPoll {
    /// As `Poll::new`.
    pub(super) fn new<N: Net>(net: &N) -> (Result<SocketPoll, SystemRefusal>, Called)
        ensures { IsEvidence (open_poll_note (end_of_opening result.0)) result.1 }
    {
        let answer = unregistered(Poll::new(net));
        let end = noted_opening(&answer);
        (answer, evidence_of(&[OPEN_POLL, end]))
    }

    /// As `Registry::register`, for datagrams that may be read.
    pub(super) fn register(
        self,
        socket: &mut Socket,
    ) -> (Result<RegisteredPoll, SystemRefusal>, Called)
        ensures call { IsEvidence (register_note (end_of_opening result.0)) result.1 }
        ensures same { socket.new ≡ socket.old }
    {
        let SocketPoll { poll } = self;
        let registry = poll.registry();
        let registration = registry.register(&mut socket.socket, Token(0), Interest::READABLE);
        let answer = registered(poll, registration);
        let end = noted_opening(&answer);
        (answer, evidence_of(&[REGISTER, end]))
    }
}

impl RegisteredPoll {
    /// As `Poll::poll`, with its answer by `answer_to_poll`.
    #[inline(always)]
    pub(super) fn poll(&mut self, events: &mut Events<Global>, most: Duration) -> (Polled, Called)
        ensures call { IsEvidence (poll_note (as_nanos most) result.0) result.1 }
        ensures room { events_capacity events.new ≡ events_capacity events.old }
    {
        let polled = answer_to_poll(self.poll.poll(events, Some(most)));
        let end = noted_poll(polled);
        let nanos = u64::from(most.subsec_nanos());
        (polled, evidence_of(&[POLL, end, most.as_secs(), nanos]))
    }
}

/// As C's `nanosleep`, for this many nanoseconds. What is left of the time, if a signal ends it, isn't used.
#[inline(always)]
pub(super) fn nap(nanos: u32) -> Called
    ensures { IsEvidence (nap_note nanos) result }
{
    let requested = timespec {
        tv_sec: 0,
        tv_nsec: i64::from(nanos),
    };
    let mut left = timespec {
        tv_sec: 0,
        tv_nsec: 0,
    };
    let _ = libc::nanosleep(&requested, &mut left);
    evidence_of(&[NAP, u64::from(nanos)])
}

impl Marks {
    /// No mark, and no send.
    pub(super) fn new() -> Marks {
        Marks {
            put_off: AtomicBool::new(false),
            sent: AtomicU32::new(0),
        }
    }

    /// Marks that a send was put off.
    #[inline(always)]
    pub(super) fn mark_put_off(&self) -> Called
        ensures { IsEvidence mark_note result }
    {
        self.put_off.store(true, Ordering::SeqCst);
        evidence_of(&[MARK_PUT_OFF])
    }

    /// Takes the mark that a send was put off.
    #[inline(always)]
    pub(super) fn take_put_off(&self) -> (bool, Called)
        ensures { IsEvidence (put_off_note result.0) result.1 }
    {
        let put_off = self.put_off.swap(false, Ordering::SeqCst);
        (put_off, evidence_of(&[TAKE_PUT_OFF, u64::from(put_off)]))
    }

    /// Counts a send.
    #[inline(always)]
    pub(super) fn count_sent(&self) -> Called
        ensures { IsEvidence count_note result }
    {
        let sent = self.sent.load(Ordering::Relaxed);
        self.sent.store(sent.wrapping_add(1), Ordering::Relaxed);
        evidence_of(&[COUNT_SENT])
    }

    /// Takes the number of datagrams sent since the last call, modulo 2^32.
    #[inline(always)]
    pub(super) fn take_sent(&self) -> (u32, Called)
        ensures { IsEvidence (sent_note result.0) result.1 }
    {
        let sent = self.sent.load(Ordering::Relaxed);
        self.sent.store(0, Ordering::Relaxed);
        (sent, evidence_of(&[TAKE_SENT, u64::from(sent)]))
    }
}
