//! A source and a wire over one UDP socket: of IPv4, or of IPv6 and then with the callers over IPv4 too.

ghost use Rattle.std.specs.Prelude.{◌≡◌, ◌++◌, ◌∷◌, ◌==◌, [], ℕ, IfOk, IfErr, OnOk, OnErr, IfSome, IfNone, length};
ghost use Rattle.std.specs.Prelude.{option_map};
ghost use Rattle.std.specs.Duration.{as_nanos};
ghost use Rattle.std.specs.Net.Addr.{ipv4_octets};
ghost use Rattle.srt_types.specs.declared.shared.Peer.{Peer as ThePeer};
ghost use Rattle.srt_poller.specs.declared.devices.Read.TheVariants.{Datagram};
ghost use Rattle.srt_poller.specs.declared.sockets.Family.TheVariants.{V4 as OfIpv4};
ghost use Rattle.srt_poller.specs.Addresses.{mapped, family_of, HasAddress, HasIpv4, HasIpv6, IsTarget};
ghost use Rattle.srt_poller.specs.Pauses.{limit};
ghost use Rattle.srt_poller.specs.SystemCalls.{notes_of, binding_notes, opening_notes, IsRefusedBinding, IsRefusedOpening};
ghost use Rattle.mio.specs.Events.{capacity as events_capacity};
ghost use Rattle.srt_poller.specs.Sockets.{fault_of};

use crate::devices::{Clock, Polled, Read, Sent, Source, Wire};
use crate::memory::{MemoryRefused, events_with_room, shared};
use crate::pace::{Pace, Pause};
use crate::tuning::RECEIVE_BUFFER;
use called::{Marks, RegisteredPoll, Socket};
use mio::Events;
use srt_types::Peer;
use srt_types::protocol_limits::READ_ROOM;
use std::alloc::Global;
use std::net::{IpAddr, Ipv4Addr, Ipv6Addr, Net, SocketAddr, SocketAddrV4, SocketAddrV6};
use std::sync::Arc;
use std::time::Duration;
use system::{Handed, Received, SystemCalls};
use thiserror::Error;

mod called;
mod ipv6;
#[cfg(test)]
mod refused;
mod system;

pub use called::SystemRefusal;

/// What was refused while a source was opened, by evidence.
#[derive(Drop)]
pub(crate) enum OpeningRefusal {
    /// The system refused a socket at this address, or refused to poll it.
    Socket(SystemRefusal),
    /// An allocation was refused.
    Memory(MemoryRefused),
}

/// Why a source wasn't opened, by evidence. Nothing is kept then.
#[derive(Drop)]
pub struct Unopened {
    refusal: OpeningRefusal,
    // for contracts alone
    calls: SystemCalls,
}

/// Why a socket could not be bound. Nothing is kept then. Its text is the line that the program prints.
#[derive(Clone, Copy, Debug, Error, PartialEq, Eq)]
pub enum BindFault {
    /// The system refused a socket at this address, or refused to poll it: the number of its error, if it gave one.
    /// `std::io::Error::from_raw_os_error` has its words.
    #[error("socket fault")]
    Socket(Option<i32>),
    /// Out of memory.
    #[error("memory")]
    OutOfMemory,
}

/// The family of a socket's own address.
#[derive(Clone, Copy, Debug, PartialEq, Eq)]
pub(crate) enum Family {
    /// IPv4: it has callers over IPv4 alone.
    V4,
    /// IPv6: at `::` it has callers over both, and an IPv4 address has the form `::ffff:a.b.c.d`.
    V6,
}

#[derive(Drop)]
struct Shared {
    socket: Socket,
    marks: Marks,
}

/// What the system says of a socket once it is bound. It stays so.
#[derive(Drop)]
pub(crate) struct SocketFacts {
    // the size of its receive buffer, if the system gives it
    room: Option<u32>,
    // its own address, if the system gives it
    address: Option<SocketAddr>,
    // for contracts alone
    calls: SystemCalls,
}

/// A source over a UDP socket. It doesn't record its datagrams and calls, so `gave` and `calls` are `None`.
#[derive(Drop)]
pub struct MioSource<C: Clock> {
    poll: RegisteredPoll,
    events: Events<Global>,
    shared: Arc<Shared>,
    clock: C,
    pace: Pace,
    failures: u64,
    facts: SocketFacts,
    // for contracts alone
    calls: SystemCalls,
}

/// A wire over a UDP socket. It doesn't record its datagrams and sends, so `handed` and `attempts` are `None`.
#[derive(Drop)]
pub struct MioWire {
    shared: Arc<Shared>,
    // at which the socket was bound
    bound: SocketAddr,
    failures: u64,
    // for contracts alone
    calls: SystemCalls,
}

/// The peer with this IPv4 address, which becomes `::ffff:a.b.c.d`.
fn peer_at(ip: Ipv4Addr, port: u16) -> Peer
    ensures ip { result.ip ≡ mapped (ipv4_octets ip) }
    ensures port { result.port ≡ port }
{
    let [a, b, c, d] = ip.octets();
    Peer {
        ip: [0, 0, 0, 0, 0, 0, 0, 0, 0, 0, 255, 255, a, b, c, d],
        port,
    }
}

/// The peer that a datagram came from.
fn peer_of(from: SocketAddr) -> Peer
    ensures { HasAddress result from }
{
    match from.ip() {
        IpAddr::V4(ip) => peer_at(ip, from.port()),
        IpAddr::V6(ip) => Peer {
            ip: ip.octets(),
            port: from.port(),
        },
    }
}

/// The IPv4 socket address of this peer. `None` if it isn't of the form `::ffff:a.b.c.d`.
fn ipv4_address_of(peer: Peer) -> Option<SocketAddr>
    ensures address { IfSome result (λ address. HasIpv4 peer address) }
    ensures none { IfNone result ((a b c d : ℕ) → peer.ip ≡ mapped (a ∷ b ∷ c ∷ d ∷ []) → ⊥) }
{
    let [0, 0, 0, 0, 0, 0, 0, 0, 0, 0, 255, 255, a, b, c, d] = peer.ip else {
        return None;
    };
    let ip = Ipv4Addr::new(a, b, c, d);
    Some(SocketAddr::V4(SocketAddrV4::new(ip, peer.port)))
}

/// The IPv6 socket address of this peer, without a zone.
fn ipv6_address_of(peer: Peer) -> SocketAddr
    ensures { HasIpv6 peer result }
{
    let ip = Ipv6Addr::from_octets(peer.ip);
    SocketAddr::V6(SocketAddrV6::new(ip, peer.port, 0, 0))
}

/// The address of this peer for a socket of this family. `None` if the peer has none of it.
fn address_of(family: Family, peer: Peer) -> Option<SocketAddr>
    ensures address { IfSome result (λ address. IsTarget family peer address) }
    ensures none { IfNone result ((family ≡ OfIpv4) × ((a b c d : ℕ) → peer.ip ≡ mapped (a ∷ b ∷ c ∷ d ∷ []) → ⊥)) }
{
    match family {
        Family::V4 => ipv4_address_of(peer),
        Family::V6 => Some(ipv6_address_of(peer)),
    }
}

/// A datagram that the socket gave, with its length and its sender.
fn datagram_read(received: (usize, SocketAddr), moment: u64) -> Read
    ensures { (peer : ThePeer) × HasAddress peer received.1 × (result ≡ Datagram peer received.0 moment) }
{
    let (len, from) = received;
    Read::Datagram(peer_of(from), len, moment)
}

/// What a socket of this family gets to send: the address and the bytes. `None` if the peer has no address of it.
fn outgoing<'a>(family: Family, to: Peer, bytes: &'a [u8]) -> Option<(SocketAddr, &'a [u8])>
    ensures address { IfSome result (λ sent. IsTarget family to sent.0) }
    ensures bytes { IfSome result (λ sent. sent.1.now ≡ bytes.now) }
    ensures none { IfNone result ((family ≡ OfIpv4) × ((a b c d : ℕ) → to.ip ≡ mapped (a ∷ b ∷ c ∷ d ∷ []) → ⊥)) }
{
    let target = address_of(family, to)?;
    Some((target, bytes))
}

/// Whether the socket took these bytes whole.
fn is_whole(taken: usize, bytes: &[u8]) -> bool
    ensures { result ≡ (taken == length bytes.now) }
{
    taken == bytes.len()
}

impl Unopened {
    /// The fault without its evidence, whose text is the line that the program prints.
    pub fn fault(&self) -> BindFault
        ensures { result ≡ fault_of self.now }
    {
        match &self.refusal {
            OpeningRefusal::Socket(refusal) => BindFault::Socket(refusal.number()),
            OpeningRefusal::Memory(_) => BindFault::OutOfMemory,
        }
    }
}

impl Shared {
    ghost use Rattle.std.specs.Arc.{arc_value};

    // What a source and a wire over this socket share, and the source's room for events.
    fn share(
        alloc: Global,
        socket: Socket,
    ) -> Result<(Events<Global>, Arc<Shared>, Arc<Shared>), MemoryRefused>
        ensures socket { IfOk result (λ r. ((arc_value r.1).socket ≡ socket) × ((arc_value r.2).socket ≡ socket)) }
        ensures room { IfOk result (λ r. events_capacity r.0 ≡ 4) }
    {
        let events = events_with_room(alloc, 4)?;
        let marks = Marks::new();
        let (ours, theirs) = shared(alloc, Shared { socket, marks })?;
        Ok((events, ours, theirs))
    }
}

impl SocketFacts {
    ghost use Rattle.srt_poller.specs.Sockets.{AreNoted};

    // What the system says of this socket, asked now.
    fn read(alloc: Global, socket: &Socket) -> SocketFacts
        ensures { AreNoted result }
    {
        let mut calls = SystemCalls::new(alloc);
        let room = calls.read_room(socket);
        let address = calls.read_address(socket);
        SocketFacts {
            room,
            address,
            calls,
        }
    }
}

/// The family of an address.
fn family_of(addr: SocketAddr) -> Family
    ensures { result ≡ family_of addr }
{
    match addr {
        SocketAddr::V4(_) => Family::V4,
        SocketAddr::V6(_) => Family::V6,
    }
}

/// Binds a UDP socket at this address.
fn socket_at<N: Net>(
    calls: &mut SystemCalls,
    net: &N,
    addr: SocketAddr,
) -> Result<Socket, SystemRefusal>
    ensures bound { OnOk result (notes_of calls.new ≡ notes_of calls.old ++ binding_notes addr) }
    ensures refused { OnErr result (IsRefusedBinding addr (notes_of calls.old) (notes_of calls.new)) }
{
    match addr {
        SocketAddr::V4(_) => calls.bind(net, addr),
        SocketAddr::V6(addr) => ipv6::bind(calls, addr),
    }
}

/// Binds a UDP socket at this address, asks for its receive buffer, and has it polled.
fn polled_at<N: Net>(
    calls: &mut SystemCalls,
    net: &N,
    addr: SocketAddr,
) -> Result<(RegisteredPoll, Socket), SystemRefusal>
    ensures opened { OnOk result (notes_of calls.new ≡ notes_of calls.old ++ opening_notes addr) }
    ensures refused { OnErr result (IsRefusedOpening addr (notes_of calls.old) (notes_of calls.new)) }
{
    let mut socket = socket_at(calls, net, addr)?;
    calls.ask_for_room(&socket, RECEIVE_BUFFER);
    let unregistered = calls.open_poll(net)?;
    let poll = calls.register(unregistered, &mut socket)?;
    Ok((poll, socket))
}

/// How long a wait lasts at most. `None` for a nap.
fn limit_of(pause: Pause) -> Option<Duration>
    ensures { option_map as_nanos result ≡ limit pause }
{
    match pause {
        Pause::Nap => None,
        Pause::Poll(millis) => Some(Duration::from_millis(millis)),
    }
}

impl<C: Clock> MioSource<C> {
    ghost use Rattle.srt_mailbox.specs.Counts.{Grew};
    ghost use Rattle.srt_poller.specs.declared.devices.Polled.TheVariants.{Failed as PollFailed};
    ghost use Rattle.srt_poller.specs.Sockets.{bound_at, AreOpened, IsUnopened, receive_buffer_of, address_of};

    /// Binds a UDP socket at this address and returns a source and a wire over it. With port 0 the system chooses the
    /// port. A socket at `::` also has callers over IPv4, whose addresses are `::ffff:a.b.c.d`, whatever the system's
    /// default is; of an IPv6 address the port and the 16 bytes alone count. The clock gives the moment of each datagram
    /// as it is read. The system is asked for a receive buffer of 4 MiB; what it gave is `receive_buffer`. Allocates. The error
    /// is evidence of what the system, or the allocator, refused, after the calls that come before it.
    pub fn open<N: Net>(
        net: &N,
        alloc: Global,
        addr: SocketAddr,
        clock: C,
    ) -> Result<(MioSource<C>, MioWire), Unopened>
    where
        C: Drop,
        ensures bound { IfOk result (λ r. bound_at r.1 ≡ addr) }
        ensures opened { IfOk result (λ r. (notes_of r.0.calls ≡ opening_notes addr) × (notes_of r.1.calls ≡ [])) }
        ensures pair { IfOk result (λ r. AreOpened clock r.0 r.1) }
        ensures refused { IfErr result (λ unopened. IsUnopened addr unopened) }
    {
        let mut calls = SystemCalls::new(alloc);
        let (poll, socket) = match polled_at(&mut calls, net, addr) {
            Ok(polled) => polled,
            Err(refusal) => {
                let refusal = OpeningRefusal::Socket(refusal);
                return Err(Unopened { refusal, calls });
            }
        };
        let facts = SocketFacts::read(alloc, &socket);
        let (events, ours, theirs) = match Shared::share(alloc, socket) {
            Ok(shared) => shared,
            Err(refused) => {
                let refusal = OpeningRefusal::Memory(refused);
                return Err(Unopened { refusal, calls });
            }
        };
        let source = MioSource {
            poll,
            events,
            shared: ours,
            clock,
            pace: Pace::new(),
            failures: 0,
            facts,
            calls,
        };
        let wire = MioWire {
            shared: theirs,
            bound: addr,
            failures: 0,
            calls: SystemCalls::new(alloc),
        };
        Ok((source, wire))
    }

    /// As `open`. The error is the fault without its evidence.
    pub fn bind<N: Net>(
        net: &N,
        alloc: Global,
        addr: SocketAddr,
        clock: C,
    ) -> Result<(MioSource<C>, MioWire), BindFault>
    where
        C: Drop,
        ensures bound { IfOk result (λ r. bound_at r.1 ≡ addr) }
        ensures opened { IfOk result (λ r. (notes_of r.0.calls ≡ opening_notes addr) × (notes_of r.1.calls ≡ [])) }
        ensures pair { IfOk result (λ r. AreOpened clock r.0 r.1) }
    {
        match MioSource::open(net, alloc, addr, clock) {
            Ok(devices) => Ok(devices),
            Err(unopened) => Err(unopened.fault()),
        }
    }

    /// The size in bytes of the receive buffer that the system gave the socket at its opening, as it counts it (SO_RCVBUF; on
    /// Linux twice what was requested, where no limit is below that). `None` if the system doesn't give it.
    pub fn receive_buffer(&self) -> Option<u32>
        ensures { result ≡ receive_buffer_of self.now }
    {
        self.facts.room
    }

    /// The socket's own address, with the port that the system chose. `None` if the system doesn't give it.
    pub fn address(&self) -> Option<SocketAddr>
        ensures { result ≡ address_of self.now }
    {
        self.facts.address
    }
}

impl<C: Clock> Source for MioSource<C> {
    ghost use Rattle.std.specs.Prelude.{None};
    ghost use Rattle.srt_mailbox.specs.Counts.{Grew};
    ghost use Rattle.srt_poller.specs.declared.devices.Polled.TheVariants.{Failed as PollFailed};
    ghost use Rattle.srt_poller.specs.Devices.{ReadsWell, IsTimed, given_by_read, call_of_wait, call_of_read, joined};
    ghost use Rattle.srt_poller.specs.SystemCalls.{IsWait, IsRead, after_read};
    ghost use Rattle.srt_poller.specs.Failures.{failures_after_wait, failures_after_read};

    ghost failures = { λ s. s.failures };

    ghost gave = { λ s. None };

    ghost calls = { λ s. None };

    /// Waits for a datagram, at most 0, 1 or 10 ms, or sleeps for a tenth of a millisecond, as `Pace` decides.
    fn wait(&mut self) -> Polled
        ensures failed { result ≡ PollFailed → Grew (⟦<MioSource<C> as Source>⟧.failures self.old) (⟦<MioSource<C> as Source>⟧.failures self.new) }
        ensures records { ⟦<MioSource<C> as Source>⟧.gave self.new ≡ ⟦<MioSource<C> as Source>⟧.gave self.old }
        ensures called { ⟦<MioSource<C> as Source>⟧.calls self.new ≡
            joined (⟦<MioSource<C> as Source>⟧.calls self.old) (call_of_wait result ∷ []) }
        ensures waits { IsWait self.old.pace self.new.pace (notes_of self.old.calls) (notes_of self.new.calls) result }
        ensures counts { self.new.failures ≡ failures_after_wait result self.old.failures }
        ensures stays { (self.new.shared ≡ self.old.shared) × (self.new.clock ≡ self.old.clock) × (self.new.facts ≡ self.old.facts) }
        ensures room { events_capacity self.new.events ≡ events_capacity self.old.events }
    {
        if self.calls.take_put_off(&self.shared.marks) {
            self.pace.put_off();
        }
        let sent = self.calls.take_sent(&self.shared.marks);
        let polled = match limit_of(self.pace.wait(sent)) {
            None => {
                self.calls.nap();
                Polled::Ready
            }
            Some(most) => self.calls.poll(&mut self.poll, &mut self.events, most),
        };
        if polled == Polled::Failed {
            self.failures = self.failures.saturating_add(1);
        }
        polled
    }

    fn next(&mut self, buffer: &mut [u8; READ_ROOM]) -> Read
        ensures well { ReadsWell result (⟦<MioSource<C> as Source>⟧.failures self.old) (⟦<MioSource<C> as Source>⟧.failures self.new) }
        ensures records { ⟦<MioSource<C> as Source>⟧.gave self.new ≡
            joined (⟦<MioSource<C> as Source>⟧.gave self.old) (given_by_read result buffer.new) }
        ensures called { ⟦<MioSource<C> as Source>⟧.calls self.new ≡
            joined (⟦<MioSource<C> as Source>⟧.calls self.old) (call_of_read result buffer.new ∷ []) }
        ensures timed { IsTimed (C.returned self.old.clock self.new.clock) result }
        ensures reads { IsRead (notes_of self.old.calls) (notes_of self.new.calls) buffer.new result }
        ensures counts { self.new.failures ≡ failures_after_read result self.old.failures }
        ensures paced { self.new.pace ≡ after_read result self.old.pace }
        ensures stays { (self.new.shared ≡ self.old.shared) × (self.new.facts ≡ self.old.facts) × (self.new.events ≡ self.old.events) }
    {
        match self.calls.receive(&self.shared.socket, buffer) {
            Received::Datagram(len, from) => {
                let moment = self.clock.next();
                self.pace.arrived(moment);
                datagram_read((len, from), moment)
            }
            Received::Nothing => {
                self.pace.ended();
                Read::Empty
            }
            Received::Failed => {
                self.pace.ended();
                self.failures = self.failures.saturating_add(1);
                Read::Failed
            }
        }
    }

    fn failures(&self) -> u64 {
        self.failures
    }
}

impl MioWire {
    ghost use Rattle.srt_poller.specs.Reports.{one_more};
    ghost use Rattle.srt_mailbox.specs.Counts.{Grew};
    ghost use Rattle.srt_poller.specs.declared.devices.Sent.TheVariants.{Failed as SendFailed};

    fn fail(&mut self) -> Sent
        ensures sent { result ≡ SendFailed }
        ensures grew { Grew self.old.failures self.new.failures }
        ensures counts { self.new.failures ≡ one_more self.old.failures }
        ensures stays { (self.new.shared ≡ self.old.shared) × (self.new.bound ≡ self.old.bound) × (self.new.calls ≡ self.old.calls) }
    {
        self.failures = self.failures.saturating_add(1);
        Sent::Failed
    }
}

impl Wire for MioWire {
    ghost use Rattle.std.specs.Prelude.{None};
    ghost use Rattle.srt_mailbox.specs.Counts.{Grew};
    ghost use Rattle.srt_poller.specs.Devices.{datagram, handed_by_send, attempt, joined};
    ghost use Rattle.srt_poller.specs.declared.devices.Sent.TheVariants.{Failed as SendFailed};
    ghost use Rattle.srt_poller.specs.SystemCalls.{IsSend};
    ghost use Rattle.srt_poller.specs.Failures.{failures_after_send};

    ghost failures = { λ w. w.failures };

    ghost handed = { λ w. None };

    ghost attempts = { λ w. None };

    /// Also fails if the peer has no address of the socket's family, or if the socket took fewer bytes.
    fn send(&mut self, to: Peer, bytes: &[u8]) -> Sent
        ensures failed { result ≡ SendFailed → Grew self.old.failures self.new.failures }
        ensures records { ⟦<MioWire as Wire>⟧.handed self.new ≡
            joined (⟦<MioWire as Wire>⟧.handed self.old) (handed_by_send result (datagram to bytes.now)) }
        ensures attempted { ⟦<MioWire as Wire>⟧.attempts self.new ≡
            joined (⟦<MioWire as Wire>⟧.attempts self.old) (attempt (datagram to bytes.now) result ∷ []) }
        ensures sends { IsSend (family_of self.old.bound) to bytes.now (notes_of self.old.calls) (notes_of self.new.calls) result }
        ensures counts { self.new.failures ≡ failures_after_send result self.old.failures }
        ensures stays { (self.new.shared ≡ self.old.shared) × (self.new.bound ≡ self.old.bound) }
    {
        let Some((target, whole)) = outgoing(family_of(self.bound), to, bytes) else {
            return self.fail();
        };
        match self.calls.send(&self.shared.socket, target, whole) {
            Handed::Took(taken) => {
                if !is_whole(taken, bytes) {
                    return self.fail();
                }
                self.calls.count_sent(&self.shared.marks);
                Sent::Taken
            }
            Handed::NoRoom => {
                self.calls.mark_put_off(&self.shared.marks);
                Sent::Later
            }
            Handed::Failed => self.fail(),
        }
    }

    fn failures(&self) -> u64 {
        self.failures
    }
}
