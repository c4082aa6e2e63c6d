//! Signals that ask what they are told to ask, and note what they are told.

use super::peer;
use crate::{Hints, InlineService, Order, Orders, PollerObserver, Report, Signals};
use srt_lobby::Names;
use srt_samples::{Difference, first_difference};
use srt_types::Peer;
use std::alloc::Global;
use std::cell::Cell;

/// What a poller told in one call: the route's index for a reply, and what it told of a peer with port 5000.
#[derive(Drop)]
pub struct Reported {
    pub route: usize,
    pub datagram: Vec<u8>,
    pub answer: Vec<u8>,
}

/// Asks for these, in turn, and then to go on. All outboxes have hints.
#[derive(Drop)]
pub struct Asking<'a> {
    requested: &'a [Order],
    at: Cell<usize>,
    /// What is to be told, in this order: replies have no datagram, and answers no route.
    expected: Vec<Reported>,
    /// The number of calls of `answered` and `replied`, and of those that told just what was expected.
    pub reported: Cell<usize>,
    pub right: Cell<usize>,
    /// Where the first datagram or answer that was not as expected differs from what was.
    pub difference: Cell<Option<Difference>>,
    /// The number of calls of `failed`.
    pub failed: Cell<u64>,
    /// The number of calls of `reported`, and the counts that the last one told.
    pub reports: Cell<u64>,
    pub counts: Cell<Report>,
}

impl<'a> Asking<'a> {
    pub fn new(requested: &'a [Order], expected: Vec<Reported>) -> Asking<'a> {
        Asking {
            requested,
            at: Cell::new(0),
            expected,
            reported: Cell::new(0),
            right: Cell::new(0),
            difference: Cell::new(None),
            failed: Cell::new(0),
            reports: Cell::new(0),
            counts: Cell::new(Report::NOTHING),
        }
    }

    /// Asks so, and expects to be told nothing of answers and replies.
    pub fn of(alloc: Global, requested: &'a [Order]) -> Asking<'a> {
        Asking::new(requested, Vec::new(alloc))
    }

    fn compare(&self, actual: &[u8], wanted: &[u8]) {
        if self.difference.get().is_none() {
            self.difference.set(first_difference(actual, wanted));
        }
    }

    fn note(&self, route: usize, to: Peer, datagram: &[u8], answer: &[u8]) {
        let at = self.reported.get();
        self.reported.set(at.wrapping_add(1));
        let Some(reported) = self.expected.get(at) else {
            return;
        };
        self.compare(datagram, &reported.datagram);
        self.compare(answer, &reported.answer);
        let is_right = reported.route == route
            && to == peer(5000)
            && reported.datagram.as_slice() == datagram
            && reported.answer.as_slice() == answer;
        if is_right {
            self.right.set(self.right.get().wrapping_add(1));
        }
    }
}

impl Orders for Asking<'_> {
    ghost goes = { λ s. Unit {0} };

    ghost closes = { λ s. Unit {0} };

    ghost stops = { λ s. Unit {0} };

    fn order(&self) -> Order {
        let at = self.at.get();
        self.at.set(at.wrapping_add(1));
        self.requested.get(at).copied().unwrap_or(Order::GoOn)
    }
}

impl Hints for Asking<'_> {
    fn polled(&self, _route: usize) {}

    fn take_outbox_ready(&self, _route: usize) -> bool {
        true
    }

    fn next_outbox_ready(&self, route: usize) -> usize {
        route
    }
}

impl PollerObserver for Asking<'_> {
    fn reported(&self, report: &Report) {
        self.reports.set(self.reports.get().wrapping_add(1));
        self.counts.set(*report);
    }

    fn answered(&self, _names: &Names, peer: Peer, datagram: &[u8], answer: &[u8]) {
        self.note(0, peer, datagram, answer);
    }

    fn replied(&self, route: usize, peer: Peer, handshake: &[u8]) {
        self.note(route, peer, &[], handshake);
    }

    fn failed(&self) {
        self.failed.set(self.failed.get().wrapping_add(1));
    }
}

impl InlineService for Asking<'_> {
    fn serve_inline(&self, _datagrams: u32) {}
}

impl Signals for Asking<'_> {}
