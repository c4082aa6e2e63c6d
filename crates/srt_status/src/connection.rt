//! The state of one connection, without its socket.

ghost use Rattle.std.specs.Prelude.{◌≡◌, ◌≤◌, ◌++◌, [], true, false, length, take, drop, vec_len, OnOk, OnErr};
ghost use Rattle.srt_status.specs.Connections.{ConnectionState, is_over};

use srt_types::product_limits::{MAX_REQUEST, REQUEST_TIMEOUT};
use std::alloc::{AllocError, Global};
use std::marker::Model;

/// One connection, which serves one request: the bytes received, and the rest of the response. The owner of its socket
/// passes in the bytes read ([`receive`](Connection::receive)), reads the request in them
/// ([`request_in`](crate::request_in) of [`received`](Connection::received)), passes in the response
/// ([`answer`](Connection::answer)), writes the rest of it ([`left`](Connection::left)), notes how many bytes were sent
/// ([`sent`](Connection::sent)), and closes the connection once it has expired ([`is_over`](Connection::is_over)).
#[derive(Drop)]
pub struct Connection {
    received: Vec<u8>,
    response: Response,
    since: u64,
}

/// A response of which a part was sent.
#[derive(Drop)]
struct Response {
    bytes: Vec<u8>,
    sent: usize,
    begun: bool,
}

impl Model for Connection {
    ghost Value = { ConnectionState };

    ghost view = { λ c. record {
      received = c.received.items;
      left = drop c.response.sent c.response.bytes.items;
      answered = c.response.begun;
      since = c.since;
    } };

    ghost invariant = { λ c. (vec_len c.received ≤ 4096) × (c.response.sent ≤ vec_len c.response.bytes) };
}

impl Connection {
    /// Returns a connection that was accepted at this time, in microseconds. Doesn't allocate.
    pub fn new(alloc: Global, moment: u64) -> Connection
        ensures { result ≡ record { received = []; left = []; answered = false; since = moment } }
    {
        Connection {
            received: Vec::new(alloc),
            response: Response {
                bytes: Vec::new(alloc),
                sent: 0,
                begun: false,
            },
            since: moment,
        }
    }

    /// Appends bytes that were read from the socket. Bytes after the first [`MAX_REQUEST`] are ignored. The only error is
    /// out of memory; then nothing has changed.
    #[tactic(auto, using(crate::proofs::Pieces::taken_whole, crate::proofs::Pieces::taken_front))]
    pub fn receive(&mut self, bytes: &[u8]) -> Result<(), AllocError>
        ensures ok { OnOk result (self.new ≡ record self.old { received = take 4096 (self.old.received ++ bytes.now) }) }
        ensures err { OnErr result (self.new ≡ self.old) }
    {
        let room = MAX_REQUEST - self.received.len();
        if bytes.len() <= room {
            self.received.extend_from_slice(bytes)
        } else {
            self.received.extend_from_slice(&bytes[..room])
        }
    }

    /// What was received so far: at most [`MAX_REQUEST`] bytes.
    pub fn received(&self) -> &[u8]
        ensures { result.now ≡ self.now.received }
    {
        self.received.as_slice()
    }

    /// Whether there is a response.
    pub fn is_answered(&self) -> bool
        ensures { result ≡ self.now.answered }
    {
        self.response.begun
    }

    /// Begins to send a response, at this moment, in microseconds.
    pub fn answer(&mut self, moment: u64, response: Vec<u8>)
        ensures { self.new ≡ record self.old { left = response.items; answered = true; since = moment } }
    {
        self.response = Response {
            bytes: response,
            sent: 0,
            begun: true,
        };
        self.since = moment;
    }

    /// What is left to be sent; empty before there is a response.
    pub fn left(&self) -> &[u8]
        ensures { result.now ≡ self.now.left }
    {
        let response = &self.response;
        &response.bytes[response.sent..]
    }

    /// Notes that the socket took the first `count` of the bytes that are left.
    #[tactic(auto, using(crate::proofs::Pieces::dropped_twice))]
    pub fn sent(&mut self, count: usize)
        requires { count ≤ length self.old.left }
        ensures { self.new ≡ record self.old { left = drop count self.old.left } }
    {
        self.response.sent += count;
    }

    /// Whether the connection is to be closed at this moment, in microseconds: its whole response was sent, or
    /// [`REQUEST_TIMEOUT`] went by since it was accepted or, with a response, since that was begun.
    pub fn is_over(&self, moment: u64) -> bool
        ensures { result ≡ is_over self.now moment }
    {
        if self.is_answered() && self.left().is_empty() {
            return true;
        }
        moment.saturating_sub(self.since) >= REQUEST_TIMEOUT
    }
}
