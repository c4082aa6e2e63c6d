//! The packets that a publisher's session sends at the end of an event.

/// Which of the buffers passed to `Publisher::transmit` have a packet. Send these in the order of the fields; the
/// other buffers are unchanged.
#[derive(Clone, Copy)]
pub struct Reports {
    /// A Full ACK or a Light ACK (section 3.2.4).
    pub ack: bool,
    /// A NAK (section 3.2.5).
    pub nak: bool,
    /// A KEEPALIVE (section 3.2.3). Only if neither an ACK nor a NAK is sent.
    pub keep_alive: bool,
}
