//! An example of the gateway's core embedded in another program: one route, without a socket, a clock or threads.
//!
//! A caller sends an induction, which the lobby answers, and a conclusion, which opens a session of the route. Both
//! datagrams, and the replies, are those of `examples/induction.tape` and `examples/opening.tape`.
#![tactic(auto)]

use anyhow::bail;
use srt_cookie::Secret;
use srt_hub::{Arrived, SrtGateway};
use srt_types::protocol_limits::MAX_DATAGRAM;
use srt_types::{Access, Entry, Mode, Peer, Rules};

/// The secret of the cookies. A gateway in production must have a secret value that nobody else knows.
const SECRET: &str = "000102030405060708090a0b0c0d0e0f101112131415161718191a1b1c1d1e1f";

/// The caller: 127.0.0.1, port 5000.
const CALLER: Peer = Peer {
    ip: [0, 0, 0, 0, 0, 0, 0, 0, 0, 0, 0xff, 0xff, 127, 0, 0, 1],
    port: 5000,
};

/// The caller's first datagram, an induction.
const INDUCTION: &str = "\
80000000000000000000000000000000000000040000000200000005000005dc000020000000000100bc614e00000000\
00000000000000000000000000000000";

/// The caller's second datagram, a conclusion with the cookie of that answer: it requests to publish on `studio`.
const CONCLUSION: &str = "\
80000000000000000000000000000000000000050000000500000005000005dc00002000ffffffff00000001ecc958a6\
000000000000000000000000000000000001000300010500000000bf00780078000500063a3a212374733d726f696475\
703d6d2c696c627500006873";

fn main(rt: HostRuntime) -> anyhow::Result<()> {
    let alloc = rt.alloc();
    let mut secret = [0; 32];
    hex::decode_to_slice(SECRET, &mut secret)?;
    let studio = Entry {
        name: String::from_str(alloc, "studio")?,
        mode: Mode::Live,
        latency_ms: 120,
        buffer: 1024,
        sessions: 5,
        inbox: 16,
        outbox: 16,
        access: Access::anyone(),
        rules: Rules::DRAFT,
    };
    let Ok(mut hub) = SrtGateway::open(alloc, Secret::new(secret), &[studio]) else {
        bail!("the gateway can't be opened");
    };

    let induction = hex::decode(alloc, INDUCTION)?;
    match hub.arrive(alloc, CALLER, &induction, 0) {
        Ok(Arrived::Answer(answer)) => println!(rt; "answer {}", hex::encode(alloc, answer)?)?,
        other => bail!("the induction: {other:?}"),
    }

    let conclusion = hex::decode(alloc, CONCLUSION)?;
    match hub.arrive(alloc, CALLER, &conclusion, 1_000_000) {
        Ok(Arrived::Accepted(route)) => println!(rt; "accepted {route}")?,
        other => bail!("the conclusion: {other:?}"),
    }

    // The first turn processes the conclusion, the second one moves the route's reply to its outbox.
    let first = hub.turn(0);
    let second = hub.turn(0);
    println!(rt; "{first:?}, {second:?}")?;
    let mut packet = [0; MAX_DATAGRAM];
    match hub.send(0, &mut packet) {
        Some((peer, length)) => {
            let port = peer.port;
            println!(rt;
                "sent to port {port} {}",
                hex::encode(alloc, &packet[..length])?
            )?;
        }
        None => bail!("nothing is sent"),
    }
    Ok(())
}
