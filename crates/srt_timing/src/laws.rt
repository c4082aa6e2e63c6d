//! Laws of the definitions: a packet has exactly one deadline, a session may count its times from its opening, how far a
//! sender's clock can change deadlines, and how Full ACKs are confirmed.

ghost use Rattle.srt_timing.specs.Deadline.{DeadlineIsTheMoment, DeadlinesFromOpening, DueTimesAreNear, DueTimesUncorrected, ThresholdsFromOpening};
ghost use Rattle.srt_timing.specs.Clock.{CorrectionsAreSlow, LatenessIsNear, RightClocksStand};
ghost use Rattle.srt_timing.specs.Book.{ConfirmsOnce, PlacesCountBack, WaitsAtPlace};

/// A timestamp has exactly one deadline. A session may count from its opening and its conclusion's timestamp. A deadline
/// without a correction is the timestamp's time plus the delay, and with any correction it is near the packet's arrival.
pub fn deadlines()
    ensures moment { DeadlineIsTheMoment }
    ensures from_opening { DeadlinesFromOpening }
    ensures uncorrected { DueTimesUncorrected }
    ensures near { DueTimesAreNear }
{}

/// The threshold of too-late packets may be relative to a session's opening.
pub fn thresholds()
    ensures { ThresholdsFromOpening }
{}

/// A clock is followed by at most 1000 ppm since the opening, a timestamp is late or early by little more than 2^31
/// microseconds, and a clock without drift isn't corrected.
pub fn drift()
    ensures slow { CorrectionsAreSlow }
    ensures near { LatenessIsNear }
    ensures right { RightClocksStand }
{}

/// An ACKACK confirms the Full ACK at its place, and only once. A place is the number of Full ACKs that were sent after
/// it.
pub fn confirmations()
    ensures at_place { WaitsAtPlace }
    ensures once { ConfirmsOnce }
    ensures count_back { PlacesCountBack }
{}
