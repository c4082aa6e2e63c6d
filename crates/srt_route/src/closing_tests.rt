//! How much memory is left of a route that was closed, as the system counts it.

use crate::Route;
use crate::ledger_tests::{give, open};
use crate::tests::{PUBLISHES, REQUESTS, entry};
use srt_types::{Entry, Item, Mode};
use std::fs::File;
use std::io::Read;
use std::mem;
use std::process::Abort;
use std::rt::Files;
use std::test::Fail;

/// The file with the sizes of a process, in pages of 4 KiB; the second one is that of its memory that is present.
const SIZES: &str = "/proc/self/statm";

/// Returns the second of the numbers in this text, between which is a blank each.
fn second_number(text: &[u8]) -> u64 {
    let mut number = 0u64;
    let mut blanks = 0u32;
    for byte in text {
        if *byte == b' ' {
            blanks = blanks.saturating_add(1);
        } else if blanks == 1 {
            let digit = u64::from(byte.saturating_sub(b'0'));
            number = number.saturating_mul(10).saturating_add(digit);
        }
    }
    number
}

/// Returns how many KiB of this process's memory are present.
fn present_kib(rt: &impl Files) -> Result<u64, Fail> {
    let mut text = [0u8; 128];
    let Ok(mut file) = File::open(rt, SIZES) else {
        return Err(Fail::from("a file with the sizes"));
    };
    let Ok(_) = file.read(&mut text) else {
        return Err(Fail::from("a file that can be read"));
    };
    Ok(second_number(&text).saturating_mul(4))
}

/// An entry with windows of this size and this number of slots.
fn sized(rt: &(impl AllocGlobal + Abort), buffer: u32, sessions: u32) -> Result<Entry, Fail> {
    let mut entry = entry(rt.alloc(), "studio", Mode::Live)?;
    entry.buffer = buffer;
    entry.sessions = sessions;
    Ok(entry)
}

/// A route of this entry with a publisher's session in its first slot.
fn opened(rt: &(impl AllocGlobal + Abort), entry: &Entry) -> Result<Route, Fail> {
    let Ok(mut route) = Route::open(rt.alloc(), entry, 0) else {
        return Err(Fail::from("the route opens"));
    };
    open(rt, &mut route, 5000, &PUBLISHES)?;
    Ok(route)
}

/// Closes a route, and fetches its replies.
fn close(rt: &(impl AllocGlobal + Abort), route: &mut Route) -> Result<(), Fail> {
    give(rt, route, &Item::Close { moment: 2_000_000 })
}

/// Closes this many routes of this entry, and gives back nothing that they have then.
fn lose_closed(rt: &(impl AllocGlobal + Abort), entry: &Entry, count: u32) -> Result<(), Fail> {
    for _ in 0..count {
        let mut route = opened(rt, entry)?;
        close(rt, &mut route)?;
        mem::forget(route);
    }
    Ok(())
}

/// Returns by how many KiB this process grows if it keeps what this many closed routes have. As many are closed before,
/// since an allocator may keep blocks that were given back to it.
fn left_of_closed(
    rt: &(impl AllocGlobal + Files + Abort),
    entry: &Entry,
    count: u32,
) -> Result<u64, Fail> {
    lose_closed(rt, entry, count)?;
    let before = present_kib(rt)?;
    lose_closed(rt, entry, count)?;
    Ok(present_kib(rt)?.saturating_sub(before))
}

#[test]
fn closed_routes_keep_no_windows(rt: HostRuntime) -> Result<(), Fail> {
    let entry = sized(&rt, 8192, 17)?;
    let before = present_kib(&rt)?;
    let mut route = opened(&rt, &entry)?;
    for port in 5001..5017 {
        open(&rt, &mut route, port, &REQUESTS)?;
    }
    let taken = present_kib(&rt)?.saturating_sub(before);
    close(&rt, &mut route)?;
    assert_eq!(rt; route.opened(), 17);
    assert!(rt; route.ended(16).is_some());
    let left = left_of_closed(&rt, &entry, 2)?;
    assert!(rt; taken > 200_000);
    assert!(rt; left < 40_000);
    Ok(())
}

#[test]
fn closed_routes_have_at_most_some_hundred_bytes(rt: HostRuntime) -> Result<(), Fail> {
    let left = left_of_closed(&rt, &sized(&rt, 32, 5)?, 1000)?;
    assert!(rt; left < 500);
    Ok(())
}
