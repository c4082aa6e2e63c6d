//! The steps of a stop.

use crate::stopping::{StopStep, stop_step};

#[test]
fn a_stop_ends_when_all_is_sent_or_after_a_second(rt: HostRuntime) {
    assert_eq!(rt; stop_step(None, u64::MAX, true), StopStep::GoOn);
    let asked = Some(7_000_000);
    assert_eq!(rt; stop_step(asked, 7_000_000, true), StopStep::Close);
    assert_eq!(rt; stop_step(asked, 7_049_999, true), StopStep::Close);
    assert_eq!(rt; stop_step(asked, 7_050_000, true), StopStep::End);
    assert_eq!(rt; stop_step(asked, 7_999_999, false), StopStep::Close);
    assert_eq!(rt; stop_step(asked, 8_000_000, false), StopStep::End);
    assert_eq!(rt; stop_step(Some(u64::MAX), u64::MAX, false), StopStep::Close);
}
