//! Facts about the definitions. Each function has an empty body: its contract is the fact.

ghost use Rattle.srt_pub.specs.Laws.{DeliversOneByOne, IsSettled, OthersAreUncorrected, PacketsAreDueNear, SessionsAreSlow};
ghost use Rattle.srt_pub.specs.Changes.{HoldsOf};

use crate::Publisher;

/// Payloads can be delivered one by one: those that `next_due` returns before 64 calls of `note_delivered`, up to the
/// first call that returns false, are the payloads that an event delivers together.
pub fn deliveries(publisher: &Publisher)
    ensures { HoldsOf publisher.now (λ terms initial m. DeliversOneByOne terms m) }
{}

/// After each call the front isn't a dropped number, and no number past the window is received or dropped.
pub fn fronts(publisher: &Publisher)
    ensures { HoldsOf publisher.now (λ terms initial m. IsSettled terms m) }
{}

/// Only in live mode, and only with callers that use libsrt, due times are corrected by the sender's clock: by at most a
/// thousandth of the time since the opening, and so that each packet is due near its arrival.
pub fn corrections()
    ensures others { OthersAreUncorrected }
    ensures slow { SessionsAreSlow }
    ensures near { PacketsAreDueNear }
{}
