//! How much memory is left of a route that was closed, as the system counts it.

use crate::open_route;
use crate::tests::{APPLIED, IDLE, assert_served, entry};
use srt_types::{Entry, Item};
use std::fs::File;
use std::io::Read;
use std::mem;
use std::process::Abort;
use std::rt::Files;
use std::sync::Wait;
use std::test::Fail;

/// The file with the sizes of a process, in pages of 4 KiB; the second one is that of its memory that is present.
const SIZES: &str = "/proc/self/statm";

/// Returns the second of the numbers in this text, between which is a blank each.
fn second_number(text: &[u8]) -> u64 {
    let mut number = 0u64;
    let mut blanks = 0u32;
    for byte in text {
        if *byte == b' ' {
            blanks = blanks.saturating_add(1);
        } else if blanks == 1 {
            let digit = u64::from(byte.saturating_sub(b'0'));
            number = number.saturating_mul(10).saturating_add(digit);
        }
    }
    number
}

/// Returns how many KiB of this process's memory are present.
fn present_kib(rt: &impl Files) -> Result<u64, Fail> {
    let mut text = [0u8; 128];
    let Ok(mut file) = File::open(rt, SIZES) else {
        return Err(Fail::from("a file with the sizes"));
    };
    let Ok(_) = file.read(&mut text) else {
        return Err(Fail::from("a file that can be read"));
    };
    Ok(second_number(&text).saturating_mul(4))
}

/// Closes a route of this entry, and gives back nothing that its four ends have then.
fn lose_closed(rt: &(impl AllocGlobal + Wait + Abort), entry: &Entry) -> Result<(), Fail> {
    let Ok((mut ingress, clock, cell, drain)) = open_route(rt.alloc(), entry, 0) else {
        return Err(Fail::from("the route opens"));
    };
    assert!(rt; ingress.offer(rt, Item::Close { moment: 5 }).is_ok());
    assert_served(rt, &cell, &[APPLIED, IDLE]);
    mem::forget(ingress);
    mem::forget(clock);
    mem::forget(cell);
    mem::forget(drain);
    Ok(())
}

/// Closes 200 routes of this entry.
fn lose_many(rt: &(impl AllocGlobal + Wait + Abort), entry: &Entry) -> Result<(), Fail> {
    for _ in 0..200 {
        lose_closed(rt, entry)?;
    }
    Ok(())
}

/// A route with an outbox of 1024 places has boxes of 1.5 MB, which aren't there any more after it was closed. As many
/// are closed before, since an allocator may keep blocks that were given back to it.
#[test]
fn a_closed_route_has_given_back_its_boxes(rt: HostRuntime) -> Result<(), Fail> {
    let mut entry = entry(rt.alloc())?;
    entry.buffer = 32;
    entry.sessions = 1;
    entry.outbox = 1024;
    lose_many(&rt, &entry)?;
    let before = present_kib(&rt)?;
    lose_many(&rt, &entry)?;
    let left = present_kib(&rt)?.saturating_sub(before);
    assert!(rt; before > 0);
    assert!(rt; left < 30_000);
    Ok(())
}
