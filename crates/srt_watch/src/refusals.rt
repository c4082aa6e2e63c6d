//! The lines of refused callers: one of each, and every ten seconds how often it was refused again.

ghost use Rattle.std.specs.Prelude.{◌≡◌, ◌-◌, ◌^◌};
ghost use Rattle.srt_log.specs.Repeats.{due_of, taken};
ghost use Rattle.srt_watch.specs.Log.{Logged};
ghost use Rattle.srt_watch.specs.Repeating.{known_by, known_after, refused_calls, again_calls, taken_to, repeat_calls};

use crate::log::{LogWriter, When};
use srt_log::{LineKind, LogEvent, MAX_REPEATS, RefusalRepeats, Telling};
use srt_supervision::Refusal;
use std::io::Write;

/// Notes a refused conclusion, which requested this name. Writes its line if its second has room, unless it is counted as one more of
/// its caller.
#[tactic(auto, using(crate::proofs::Logging::logged_nothing))]
pub(crate) fn log_refused<W: Write + Drop>(
    repeats: &mut RefusalRepeats,
    log: &mut LogWriter<W>,
    when: When,
    name: &[u8],
    refusal: &Refusal,
)
    ensures known { known_by repeats.new ≡ known_after (known_by repeats.old) when name.now refusal.now }
    ensures logged { Logged (W.contents log.old.out.out) (W.contents log.new.out.out) log.old.pace log.new.pace
        (refused_calls (known_by repeats.old) when name.now refusal.now) }
{
    let attempt = srt_log::Refusal {
        code: refusal.code,
        peer: refusal.peer,
        name,
        by: refusal.cause,
    };
    match repeats.note(attempt, when.moment) {
        Telling::Counted => {}
        Telling::Line => log.append(
            when,
            LineKind::Refusal,
            LogEvent::Refused {
                code: refusal.code,
                peer: refusal.peer,
                name,
                by: refusal.cause,
            },
        ),
    }
}

// Writes how often a caller was refused again, if one is due at this moment.
fn log_again<W: Write + Drop>(
    repeats: &mut RefusalRepeats,
    log: &mut LogWriter<W>,
    when: When,
    moment: u64,
)
    ensures known { known_by repeats.new ≡ taken (known_by repeats.old) moment }
    ensures logged { Logged (W.contents log.old.out.out) (W.contents log.new.out.out) log.old.pace log.new.pace
        (again_calls when (due_of (known_by repeats.old) moment)) }
{
    let Some(caller) = repeats.take_due(moment) else {
        return;
    };
    log.append(
        when,
        LineKind::Refusal,
        LogEvent::RefusedAgain {
            ip: caller.ip,
            code: caller.code,
            name: caller.name.as_slice(),
            by: caller.by,
            count: caller.count,
        },
    );
}

/// Writes how often each caller was refused again of which that is due at this moment, in microseconds of the routes' clock.
#[tactic(auto, using(crate::proofs::Again::no_known, crate::proofs::Again::no_repeats, crate::proofs::Again::next_repeat, crate::proofs::Again::next_known))]
pub(crate) fn log_repeats<W: Write + Drop>(
    repeats: &mut RefusalRepeats,
    log: &mut LogWriter<W>,
    when: When,
    moment: u64,
)
    ensures known { known_by repeats.new ≡ taken_to (known_by repeats.old) moment 32 }
    ensures logged { Logged (W.contents log.old.out.out) (W.contents log.new.out.out) log.old.pace log.new.pace
        (repeat_calls when (known_by repeats.old) moment 32) }
{
    for _ in 0..MAX_REPEATS {
        log_again(repeats, log, when, moment);
    }
}
