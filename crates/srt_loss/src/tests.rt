//! Loss lists as bytes, and the numbers that they request.

use crate::{LossFault, part_in, read, write};
use arrayvec::ArrayVec;
use srt_types::Seq31;
use std::test::Fail;

fn number(word: u32) -> Result<Seq31, Fail> {
    match Seq31::new(word) {
        Some(number) => Ok(number),
        None => Err(Fail::from("a word with its top bit set")),
    }
}

fn fault_of(bytes: &[u8]) -> Result<LossFault, Fail> {
    match read(bytes) {
        Ok(_) => Err(Fail::from("a loss list")),
        Err(fault) => Ok(fault),
    }
}

fn asks(bytes: &[u8], word: u32) -> Result<bool, Fail> {
    match read(bytes) {
        Ok(losses) => Ok(losses.asks(number(word)?)),
        Err(_) => Err(Fail::from("no loss list")),
    }
}

#[test]
fn faults(rt: HostRuntime) -> Result<(), Fail> {
    let ragged = LossFault::Ragged;
    let dangling = LossFault::Dangling;
    let backward = LossFault::Backward;
    for (text, fault) in [
        ("800000", ragged),
        // The length is checked before any word.
        ("8000000580", ragged),
        ("80000005", dangling),
        ("8000000580000006", dangling),
        ("00000001800000058000000600000007", dangling),
        ("8000000040000000", backward),
        ("8000000940000009", backward),
        // Across the wrap, 2^30 later.
        ("ffffffff3fffffff", backward),
        // The first fault is returned.
        ("80000005800000068000000040000000", dangling),
        ("800000004000000080000005", backward),
    ] {
        let bytes = hex::decode(rt.alloc(), text)?;
        assert_eq!(rt; fault_of(&bytes)?, fault);
    }
    Ok(())
}

#[test]
fn sets(rt: HostRuntime) -> Result<(), Fail> {
    for (text, word, requested) in [
        ("", 0, false),
        ("00000005", 5, true),
        ("00000005", 4, false),
        ("00000005", 6, false),
        // One number as a first and a last word.
        ("8000000500000005", 5, true),
        ("8000000500000005", 6, false),
        // 2^30 numbers, both ends included.
        ("8000000940000008", 9, true),
        ("8000000940000008", 0x4000_0008, true),
        ("8000000940000008", 8, false),
        ("8000000940000008", 0x4000_0009, false),
        // Across the wrap.
        ("fffffffe00000002", 0x7fff_fffd, false),
        ("fffffffe00000002", 0x7fff_fffe, true),
        ("fffffffe00000002", 0x7fff_ffff, true),
        ("fffffffe00000002", 0, true),
        ("fffffffe00000002", 2, true),
        ("fffffffe00000002", 3, false),
        // All ranges are checked.
        ("800000050000000700000009", 6, true),
        ("800000050000000700000009", 8, false),
        ("800000050000000700000009", 9, true),
    ] {
        let bytes = hex::decode(rt.alloc(), text)?;
        assert_eq!(rt; asks(&bytes, word)?, requested, "{text}, {word}");
    }
    Ok(())
}

#[test]
fn ranges_come_in_order(rt: HostRuntime) -> Result<(), Fail> {
    let bytes = hex::decode(rt.alloc(), "00000009ffffffff00000000")?;
    let losses = read(&bytes).ok().ok_or("a loss list")?;
    let mut ranges = losses.ranges();
    assert_eq!(rt; ranges.next_range(), Some((number(9)?, number(9)?)));
    assert_eq!(rt;
        ranges.next_range(),
        Some((number(0x7fff_ffff)?, number(0)?))
    );
    assert_eq!(rt; ranges.next_range(), None);
    assert_eq!(rt; ranges.next_range(), None);
    Ok(())
}

#[test]
fn the_longest_text(rt: HostRuntime) -> Result<(), Fail> {
    // 364 words, as many as fit a datagram: 363 times 0, and then another number.
    let mut bytes = [0u8; 1456];
    bytes[1455] = 7;
    assert!(rt; asks(&bytes, 0)?);
    assert!(rt; asks(&bytes, 7)?);
    assert!(rt; !asks(&bytes, 1)?);
    // The last word is the first of a range.
    bytes[1452] = 0x80;
    assert_eq!(rt; fault_of(&bytes)?, LossFault::Dangling);
    Ok(())
}

#[test]
fn runs_are_written(rt: HostRuntime) -> Result<(), Fail> {
    let five = number(5)?;
    let seven = number(7)?;
    let nine = number(9)?;
    let top = number(0x7fff_ffff)?;
    let mut runs = [(five, seven); 32];
    assert_eq!(rt; write(&ArrayVec::from(runs)).len(), 64);
    runs[1] = (nine, nine);
    runs[2] = (top, Seq31::ZERO);
    let words = write(&ArrayVec::from(runs));
    let first = [0x8000_0005, 7, 9, 0xffff_ffff, 0, 0x8000_0005, 7];
    assert_eq!(rt; &words.as_slice()[..7], first.as_slice());
    assert_eq!(rt; words.len(), 63);
    Ok(())
}

#[test]
fn ranges_stand_in_a_window(rt: HostRuntime) -> Result<(), Fail> {
    // The window from 7ffffffe over 7fffffff and 0 to 5.
    let front = number(0x7fff_fffe)?;
    for (text, part) in [
        ("ffffffff00000000", Some((1, 2))),
        ("8000000500000007", Some((7, 7))),
        ("fffffff000000001", Some((0, 3))),
        ("fffffff000000009", Some((0, 7))),
        ("8000000600000009", None),
        ("fffffff07ffffffd", None),
    ] {
        let bytes = hex::decode(rt.alloc(), text)?;
        let losses = read(&bytes).ok().ok_or("a loss list")?;
        let range = losses.ranges().next_range().ok_or("a range")?;
        assert_eq!(rt; part_in(range, front, 8), part, "{text}");
        assert_eq!(rt; part_in(range, front, 0), None);
    }
    Ok(())
}
