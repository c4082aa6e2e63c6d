//! The reasons why a packet ends a publisher's session.

/// The reason why a packet ends a publisher's session. A session also ends if nothing is received for five seconds;
/// that is in `srt_route`.
#[derive(Clone, Copy, Debug, PartialEq, Eq)]
pub enum PubEnd {
    /// The publisher sent a SHUTDOWN (section 3.2.7).
    Shutdown,
    /// Live mode only: a data packet's number is past the window, by fewer than 2^30, while no received packet waits
    /// for delivery. The sender has moved on, and the window can't follow it (our choice).
    WindowLost,
}
