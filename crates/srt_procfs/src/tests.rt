//! Texts of /proc that a kernel wrote.

use crate::{
    asks_to_stop, blocks_signals, drops_in, kernel_drops, memory_in, resident_memory,
    signals_are_blocked, stop_requested,
};
use std::net::{Net, UdpSocket};
use std::test::Fail;

/// The masks of a process that was started by `env --block-signal=TERM --block-signal=INT` and sent a SIGTERM.
const TERMINATED: &[u8] =
    b"Name:\tbash\nSigQ:\t1/96364\nSigPnd:\t0000000000000000\nShdPnd:\t0000000000004000\nSigBlk:\t0000000000014002\nSigIgn:\t0000000000000004\n";

/// Those of one that was sent a SIGINT.
const INTERRUPTED: &[u8] =
    b"SigPnd:\t0000000000000000\nShdPnd:\t0000000000000002\nSigBlk:\t0000000000014002\nSigIgn:\t0000000000000004\n";

/// Those of one that was sent no signal, and blocks SIGTERM alone.
const QUIET: &[u8] =
    b"SigQ:\t0/96364\nSigPnd:\t0000000000000000\nShdPnd:\t0000000000000000\nSigBlk:\t0000000000014000\nSigIgn:\t0000000000000004\n";

/// A table of three sockets, of which two have lost datagrams.
const TABLE: &[u8] =
    b"   sl  local_address rem_address   st tx_queue rx_queue tr tm->when retrnsmt   uid  timeout inode ref pointer drops            \n\
 1034: 00000000:A92F 00000000:0000 07 00000000:00000000 00:00000000 00000000     0        0 83276 2 00000000d3898b08 0         \n\
15875: 0100007F:2328 00000000:0000 07 00000000:00033C00 00:00000000 00000000     0        0 83274 2 000000009390efbc 208       \n\
15876: 00000000:2329 00000000:0000 07 00000000:00001200 00:00000000 00000000     0        0 83275 2 00000000eed59b9c 198       \n";

/// A table of three sockets over IPv6, of which two have lost datagrams: at `::1`, and at `::`.
const IPV6_TABLE: &[u8] =
    b"  sl  local_address                         remote_address                        st tx_queue rx_queue \
tr tm->when retrnsmt   uid  timeout inode ref pointer drops\n\
 1425: 00000000000000000000000001000000:2328 00000000000000000000000000000000:0000 07 00000000:00001200 \
00:00000000 00000000     0        0 71070 2 00000000b172fc69 206\n\
 1426: 00000000000000000000000000000000:2329 00000000000000000000000000000000:0000 07 00000000:00001200 \
00:00000000 00000000     0        0 71071 2 000000006ea612ad 48\n\
 2838: 00000000000000000000000000000000:E8AD 00000000000000000000000000000000:0000 07 00000000:00000000 \
00:00000000 00000000     0        0 71072 2 000000006368c875 0\n";

/// The 16 bytes of an IPv4 address.
fn mapped(octets: [u8; 4]) -> [u8; 16] {
    let [a, b, c, d] = octets;
    [0, 0, 0, 0, 0, 0, 0, 0, 0, 0, 255, 255, a, b, c, d]
}

/// The 16 bytes of `::1`.
const LOOPBACK: [u8; 16] = [0, 0, 0, 0, 0, 0, 0, 0, 0, 0, 0, 0, 0, 0, 0, 1];

#[test]
fn a_pending_signal_asks_to_stop(rt: HostRuntime) {
    assert!(rt; asks_to_stop(TERMINATED));
    assert!(rt; asks_to_stop(INTERRUPTED));
    assert!(rt; !asks_to_stop(QUIET));
    assert!(rt; asks_to_stop(b"SigPnd:\t0000000000004000\n"));
    // SIGHUP and SIGQUIT, signals 1 and 3; SIGUSR1 and SIGUSR2, 10 and 12
    assert!(rt; !asks_to_stop(b"ShdPnd:\t0000000000000a05\n"));
}

#[test]
fn a_mask_that_cant_be_read_has_no_signal(rt: HostRuntime) {
    assert!(rt; !asks_to_stop(b""));
    assert!(rt; !asks_to_stop(b"ShdPnd:\t"));
    assert!(rt; !asks_to_stop(b"ShdPnd:\t00000000000040 0\n"));
    assert!(rt; !asks_to_stop(b" ShdPnd:\t0000000000004000\n"));
    assert!(rt; !asks_to_stop(b"ShdPnd:\t10000000000004000\n"));
    assert!(rt; !blocks_signals(b"SigPnd:\t0000000000014002\n"));
}

#[test]
fn both_signals_are_blocked_or_not(rt: HostRuntime) {
    assert!(rt; blocks_signals(TERMINATED));
    assert!(rt; blocks_signals(INTERRUPTED));
    assert!(rt; !blocks_signals(QUIET));
    assert!(rt; blocks_signals(b"SigBlk:\tffffffffffffffff\n"));
    assert!(rt; !blocks_signals(b"SigBlk:\tffffffffffffbfff\n"));
}

#[test]
fn nobody_has_asked_these_tests_to_stop(rt: HostRuntime) {
    assert!(rt; !stop_requested(&rt));
    assert!(rt; !signals_are_blocked(&rt));
}

#[test]
fn drops_of_each_socket(rt: HostRuntime) {
    assert_eq!(rt; drops_in(TABLE, mapped([127, 0, 0, 1]), 9000), Some(208));
    assert_eq!(rt; drops_in(TABLE, mapped([0, 0, 0, 0]), 9001), Some(198));
    assert_eq!(rt; drops_in(TABLE, mapped([0, 0, 0, 0]), 43311), Some(0));
}

#[test]
fn drops_of_each_socket_over_ipv6(rt: HostRuntime) {
    assert_eq!(rt; drops_in(IPV6_TABLE, LOOPBACK, 9000), Some(206));
    assert_eq!(rt; drops_in(IPV6_TABLE, [0; 16], 9001), Some(48));
    assert_eq!(rt; drops_in(IPV6_TABLE, [0; 16], 59565), Some(0));
    assert_eq!(rt; drops_in(IPV6_TABLE, [0; 16], 9000), None);
    assert_eq!(rt; drops_in(IPV6_TABLE, mapped([0, 0, 0, 0]), 9001), None);
}

#[test]
fn no_socket_no_drops(rt: HostRuntime) {
    assert_eq!(rt; drops_in(TABLE, mapped([0, 0, 0, 0]), 9000), None);
    assert_eq!(rt; drops_in(TABLE, mapped([127, 0, 0, 1]), 9001), None);
    assert_eq!(rt; drops_in(TABLE, mapped([1, 0, 0, 127]), 9000), None);
    assert_eq!(rt; drops_in(b"", mapped([0, 0, 0, 0]), 0), None);
    assert_eq!(rt;
        drops_in(b"1: 0100007F:2328 2 3", mapped([127, 0, 0, 1]), 9000),
        None
    );
}

#[test]
fn a_socket_of_ones_own_has_dropped_nothing(rt: HostRuntime) -> Result<(), Fail> {
    let socket = UdpSocket::bind(&rt, "127.0.0.1:0")?;
    let port = socket.local_addr()?.port();
    assert_eq!(rt; kernel_drops(&rt, mapped([127, 0, 0, 1]), port), Some(0));
    drop(socket);
    assert_eq!(rt; kernel_drops(&rt, mapped([127, 0, 0, 1]), port), None);
    Ok(())
}

#[test]
fn resident_memory_is_in_the_status(rt: HostRuntime) {
    let status = b"Name:\tsrtgw\nVmPeak:\t   20480 kB\nVmRSS:\t   12345 kB\nThreads:\t4\n";
    assert_eq!(rt; memory_in(status), Some(12_641_280));
    assert_eq!(rt; memory_in(b"VmRSS:\t       0 kB\n"), Some(0));
    assert_eq!(rt; memory_in(b"VmRSS:\t kB\n"), None);
    assert_eq!(rt; memory_in(b"VmRSS:\t 18014398509481984 kB\n"), None);
    assert_eq!(rt; memory_in(b"Name:\tsrtgw\n"), None);
    assert!(rt; resident_memory(&rt).is_some());
}
