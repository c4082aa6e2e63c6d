//! Payloads that wait for a key.

use super::turns::{Turn, other};
use super::{LOST, media, media_again};
use crate::Emitted;
use srt_samples::{Loss, drop_request, keep_alive, light_ack, nak};
use srt_types::Mode;
use std::test::Fail;

/// The time of most calls: half a second after the opening.
const NOW: u64 = 4_500_000;

/// Loss list of the first two packets.
const BOTH: [Loss; 1] = [Loss::Range(9, 10)];

#[test]
fn payloads_wait_behind_the_bound(rt: HostRuntime) -> Result<(), Fail> {
    let turns = [
        (4_000_000, Turn::Start(Mode::Live, 9)),
        (NOW, Turn::Feed(b'a')),
        (NOW, Turn::Feed(b'a')),
        // no key is confirmed: both take room, and nothing is sent
        (NOW, Turn::Hold(0)),
        (NOW, Turn::Ends),
        (NOW, Turn::Release),
        (NOW, Turn::Room(126)),
        // the first one may be sent
        (NOW, Turn::Hold(1)),
        (NOW, Turn::Wrote(Emitted::Data(0), media(9, 1, 500_000))),
        (NOW, Turn::Ends),
        (NOW, Turn::Release),
        // it is sent again as always
        (NOW, Turn::Hear(nak(&LOST))),
        (NOW, Turn::Hold(1)),
        (
            NOW,
            Turn::Wrote(Emitted::Data(0), media_again(9, 1, 500_000)),
        ),
        (NOW, Turn::Ends),
        (NOW, Turn::Release),
        // and then the second
        (NOW, Turn::Hold(1 << 24)),
        (NOW, Turn::Wrote(Emitted::Data(1), media(10, 2, 500_000))),
        (NOW, Turn::Release),
        (NOW, Turn::FlowWindow(8192)),
    ];
    assert_eq!(rt; other(rt.alloc(), &turns)?, None);
    Ok(())
}

#[test]
fn no_acknowledgement_passes_what_waits(rt: HostRuntime) -> Result<(), Fail> {
    let turns = [
        (4_000_000, Turn::Start(Mode::Live, 9)),
        (NOW, Turn::Feed(b'a')),
        (NOW, Turn::Feed(b'a')),
        (NOW, Turn::Hold(1)),
        (NOW, Turn::Wrote(Emitted::Data(0), media(9, 1, 500_000))),
        (NOW, Turn::Ends),
        (NOW, Turn::Release),
        // the second one isn't sent, so its acknowledgement changes nothing
        (NOW, Turn::Hear(light_ack(11))),
        (NOW, Turn::Room(126)),
        (NOW, Turn::Hear(light_ack(10))),
        (NOW, Turn::Room(127)),
        // and neither does a loss list with it
        (NOW, Turn::Hear(nak(&BOTH))),
        (NOW, Turn::Hold(1)),
        (NOW, Turn::Ends),
        (NOW, Turn::Release),
        (NOW, Turn::Hold(2)),
        (NOW, Turn::Wrote(Emitted::Data(1), media(10, 2, 500_000))),
        (NOW, Turn::Ends),
        (NOW, Turn::Release),
        (NOW, Turn::Hear(light_ack(11))),
        (NOW, Turn::Room(128)),
    ];
    assert_eq!(rt; other(rt.alloc(), &turns)?, None);
    Ok(())
}

#[test]
fn what_waits_expires(rt: HostRuntime) -> Result<(), Fail> {
    // queued more than a second ago, and never sent
    let late = NOW + 1_000_001;
    let dropped = drop_request(1, 9, 10).stamp(1_500_001);
    let third = media(11, 3, 1_500_001);
    let turns = [
        (4_000_000, Turn::Start(Mode::Live, 9)),
        (NOW, Turn::Feed(b'a')),
        (NOW, Turn::Feed(b'a')),
        (late, Turn::Expire),
        (late, Turn::Room(128)),
        (late, Turn::GivenUp(2)),
        (late, Turn::Feed(b'a')),
        // a drop request for them is sent also while the session is held; the payload after them waits
        (late, Turn::Hear(nak(&BOTH))),
        (late, Turn::Hold(2)),
        (late, Turn::Wrote(Emitted::DropRequest, dropped)),
        (late, Turn::Ends),
        (late, Turn::Release),
        (late, Turn::Hold(3)),
        (late, Turn::Wrote(Emitted::Data(2), third)),
        (late, Turn::Ends),
        (late, Turn::Release),
    ];
    assert_eq!(rt; other(rt.alloc(), &turns)?, None);
    Ok(())
}

#[test]
fn in_buffer_mode_what_waits_takes_room(rt: HostRuntime) -> Result<(), Fail> {
    // an hour later, nothing has expired; a KEEPALIVE alone is sent
    let late = NOW + 3_600_000_000;
    let alive = keep_alive().stamp(3_600_500_000);
    let turns = [
        (4_000_000, Turn::Start(Mode::Buffer, 9)),
        (NOW, Turn::Feed(b'a')),
        (NOW, Turn::Feed(b'a')),
        (late, Turn::Expire),
        (late, Turn::Room(126)),
        (late, Turn::Hold(0)),
        (late, Turn::Wrote(Emitted::KeepAlive, alive)),
        (late, Turn::Ends),
        (late, Turn::Release),
        (late, Turn::Room(126)),
        (late, Turn::Hold(1)),
        (late, Turn::Wrote(Emitted::Data(0), media(9, 1, 500_000))),
        (late, Turn::Ends),
        (late, Turn::Release),
        (late, Turn::Hold(2)),
        (late, Turn::Wrote(Emitted::Data(1), media(10, 2, 500_000))),
        (late, Turn::Ends),
        (late, Turn::Release),
    ];
    assert_eq!(rt; other(rt.alloc(), &turns)?, None);
    Ok(())
}
