//! Starting the buffers of a session.

ghost use Rattle.std.specs.Prelude.{◌≡◌, ◌<◌, ◌^◌};
ghost use Rattle.srt_types.specs.Window.{word_of};
ghost use Rattle.srt_route.specs.Sessions.{resending_of};
ghost use Rattle.srt_route.specs.inside.OneSession.{BeginsUnder, PublisherBegins, SubscriberBegins};

use crate::agreement::Agreement;
use crate::arrival::Arrival;
use crate::conclusion_reading::Conclusion;
use crate::seat::Seat;
use srt_pub::Publisher;
use srt_sub::{Resending, Subscriber};
use srt_types::{Callers, Mode, Role, Seq31, Stamp32};

/// Starts a publisher's session, with the agreed delay and the route's rules.
fn start_publisher(
    publisher: &mut Publisher,
    arrival: Arrival,
    initial: Seq31,
    agreement: Agreement,
    caller: u32,
)
    ensures { PublisherBegins agreement arrival (word_of initial) caller publisher.old publisher.new }
{
    let delay = u32::from(agreement.receiver_ms) * 1000;
    publisher.start(srt_pub::Opening {
        now: arrival.clock,
        stamp: Stamp32::new(arrival.stamp),
        initial,
        caller,
        mode: agreement.mode,
        delay,
        callers: agreement.rules.callers,
    });
}

/// Returns when a subscriber's session sends again what is in flight without a NAK. On a route for libsrt callers: in
/// live mode once to a caller that sends periodic NAKs; ever more rarely to any other, and in buffer mode.
fn resending(callers: Callers, mode: Mode, periodic_nak: bool) -> Resending
    ensures { result ≡ resending_of callers mode periodic_nak }
{
    match callers {
        Callers::Draft => Resending::AtEachTimeout,
        Callers::Libsrt => match mode {
            Mode::Live => {
                if periodic_nak {
                    Resending::Once
                } else {
                    Resending::BackingOff
                }
            }
            Mode::Buffer => Resending::BackingOff,
        },
    }
}

/// Starts a subscriber's session, with the agreed parameters and the route's rules.
fn start_subscriber(
    subscriber: &mut Subscriber,
    clock: u64,
    initial: Seq31,
    agreement: Agreement,
    c: &Conclusion,
)
    ensures { SubscriberBegins agreement clock c.now (word_of initial) subscriber.old subscriber.new }
{
    let delay = u32::from(agreement.sender_ms) * 1000;
    subscriber.start(srt_sub::Opening {
        now: clock,
        initial,
        caller: c.caller,
        delay,
        mode: agreement.mode,
        mtu: agreement.mtu,
        window: c.window,
        resend_percent: agreement.rules.resend_percent,
        resending: resending(agreement.rules.callers, agreement.mode, c.periodic_nak),
    });
}

/// Starts the buffers of a session that opens in this seat: the publisher's, or the subscriber's of the seat.
pub fn start_buffers(
    seat: &mut Seat,
    publisher: &mut Publisher,
    arrival: Arrival,
    agreement: Agreement,
    c: &Conclusion,
)
    requires { c.now.initial < 2 ^ 31 }
    ensures { BeginsUnder agreement arrival c.now publisher.old publisher.new seat.old seat.new }
{
    let Some(initial) = Seq31::new(c.initial) else {
        return;
    };
    match c.role {
        Role::Publish => start_publisher(publisher, arrival, initial, agreement, c.caller),
        Role::Request => start_subscriber(
            &mut seat.subscriber,
            arrival.clock,
            initial,
            agreement,
            c,
        ),
    }
}
