//! The lobby's classes of datagrams, and the causes for which one is dropped.

ghost use Rattle.std.specs.Prelude.{◌≡◌};
ghost use Rattle.srt_lobby.specs.Numbers.{number_of};

/// The size of an answer of the lobby, in bytes: the 16 of a packet's header and the 48 of a handshake without extension blocks
/// (sections 3 and 3.2.1).
pub const LOBBY_ANSWER: usize = 64;

/// Why a datagram is dropped.
#[derive(Clone, Copy, Debug, PartialEq, Eq)]
pub enum Cause {
    /// It isn't an SRT packet: shorter than 16 bytes or longer than 1472, a data packet without a payload, or a control
    /// packet of an unknown type or too short for its type (section 3).
    Packet,
    /// Its destination isn't 0, and the index in its upper bits is no visible route's.
    UnknownId,
    /// Its destination is 0, and it isn't a handshake packet.
    NotHandshake,
    /// It is a handshake packet, but its handshake has a fault (section 3.2.1).
    Handshake,
    /// Its handshake is neither an INDUCTION nor a CONCLUSION: a listener accepts no other type (section 4.3.1).
    WrongKind,
    /// It is a conclusion whose cookie is neither that of this minute nor that of the minute before (section 4.3.1.1).
    WrongCookie,
    /// Its destination isn't 0 and identifies a route, but none of the route's lists contains the sender's address.
    NotAllowed,
}

impl Cause {
    /// Returns the number of the cause in the output of a replay: 1 to 7, in the order above.
    pub fn number(self) -> u8
        ensures { result ≡ number_of self }
    {
        match self {
            Cause::Packet => 1,
            Cause::UnknownId => 2,
            Cause::NotHandshake => 3,
            Cause::Handshake => 4,
            Cause::WrongKind => 5,
            Cause::WrongCookie => 6,
            Cause::NotAllowed => 7,
        }
    }
}

/// What the lobby does with a datagram.
#[derive(Clone, Copy, Debug, PartialEq, Eq)]
pub enum Class {
    /// It is answered with this handshake packet, which is sent to its sender; no state is stored.
    Answer([u8; LOBBY_ANSWER]),
    /// It is for the route with this index, below the number of routes.
    Route(usize),
    /// It is dropped for this cause.
    Dropped(Cause),
}
