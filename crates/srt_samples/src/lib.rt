//! Datagrams for tests, defined field by field (draft-sharabayko-srt-01, sections 3 and 3.2, appendix A).
//!
//! It uses no other crate of the gateway, so that a test with these datagrams can reveal an error in the gateway's
//! decoding or encoding. Its tests compare every kind of packet with bytes of real callers, or with the diagrams of the
//! draft.
//!
//! A [`Sample`] is a datagram with its fields. `samples.rt` has a constructor for each kind, such as [`data_packet`] or
//! [`nak`], with timestamp 0 and destination 0; methods such as [`Sample::stamp`] and [`Sample::to`] return it with one
//! field changed. `handshakes.rt` has the handshakes. [`Sample::bytes`], in `writing.rt`, returns its bytes.
//! [`first_difference`], in `differences.rt`, returns where received bytes differ from the expected ones. A [`Dice`], in
//! `dice.rt`, has the numbers of random tests.
//!
//! `specs/Samples.antt` defines the bytes of each sample, `specs/Dice.antt` the numbers.
#![tactic(auto)]

mod dice;
mod differences;
mod handshakes;
mod samples;
mod writing;

pub use dice::Dice;
pub use differences::{Difference, Field, Kind, Outline, first_difference};
pub use handshakes::{
    Block, Caller, HSREQ, HSREQ_WITH_STREAM, HSRSP, Handshake, Offer, Phase, conclusion,
    conclusion_answer, handshake_packet, induction, refusal,
};
pub use samples::{
    Acknowledged, Body, Loss, Sample, ack, ack_ack, data_packet, drop_request, full_ack,
    keep_alive, light_ack, nak, shutdown,
};

#[cfg(test)]
mod tests;
