//! Orders to a poller.

/// An order to a poller, read before each round.
#[derive(Clone, Copy, Debug, PartialEq, Eq)]
pub enum Order {
    /// Make the round.
    GoOn,
    /// Make the round and close all routes in it: nothing opens, and Close is offered to each visible route.
    CloseAll,
    /// End now, without the round.
    End,
}
