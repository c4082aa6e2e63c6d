//! Copies of datagrams, in buffers that were returned and in new ones.

use crate::buffers::Buffers;
use srt_mailbox::BUFFER_ROOM;
use std::alloc::Global;
use std::process::Abort;
use std::test::Fail;

/// The room of a buffer that is large enough for any copy.
const LARGE: usize = 4096;

/// A buffer with old bytes.
fn large_buffer(alloc: Global) -> Result<Vec<u8>, Fail> {
    let mut buffer = Vec::with_capacity(alloc, LARGE)?;
    buffer.extend_from_slice(b"an older datagram")?;
    Ok(buffer)
}

/// Asserts that a copy has the bytes of its datagram, and whether it is in a large buffer.
fn assert_copied(
    rt: &(impl AllocGlobal + Abort),
    buffers: &mut Buffers,
    bytes: &[u8],
    is_large: bool,
) -> Result<(), Fail> {
    let Ok(copy) = buffers.copy_of(rt.alloc(), bytes) else {
        return Err(Fail::from("memory"));
    };
    assert_eq!(rt; copy.as_slice(), bytes);
    assert!(rt; (copy.capacity() >= LARGE) == is_large);
    Ok(())
}

#[test]
fn a_copy_fills_a_returned_buffer(rt: HostRuntime) -> Result<(), Fail> {
    let mut buffers = Buffers::new(rt.alloc());
    buffers.keep(Some(large_buffer(rt.alloc())?));
    buffers.keep(None);
    assert_copied(&rt, &mut buffers, b"", false)?;
    assert_copied(&rt, &mut buffers, b"a newer one", true)?;
    assert_copied(&rt, &mut buffers, b"another", false)
}

#[test]
fn a_new_buffer_has_room_for_any_packet(rt: HostRuntime) -> Result<(), Fail> {
    let mut buffers = Buffers::new(rt.alloc());
    let Ok(copy) = buffers.copy_of(rt.alloc(), b"short") else {
        return Err(Fail::from("memory"));
    };
    assert!(rt; copy.capacity() >= BUFFER_ROOM);
    buffers.keep(Some(copy));
    assert_copied(&rt, &mut buffers, &[7; 2032], false)
}

#[test]
fn no_more_than_512_buffers_are_kept(rt: HostRuntime) -> Result<(), Fail> {
    let mut buffers = Buffers::new(rt.alloc());
    for _ in 0..600 {
        buffers.keep(Some(large_buffer(rt.alloc())?));
    }
    for _ in 0..512 {
        assert_copied(&rt, &mut buffers, b"kept", true)?;
    }
    assert_copied(&rt, &mut buffers, b"not kept", false)
}
