//! Texts of /proc about a process, which a kernel wrote.

use crate::{
    most_descriptors, most_descriptors_in, open_descriptors, open_descriptors_in, processor_time,
    processor_time_in, start_in, start_time,
};
use std::net::UdpSocket;
use std::test::Fail;

/// The counts of a process that has six ticks in its own code, and whose program has the name `srt) 9 (gw`.
const STAT: &[u8] =
    b"17927 (srt) 9 (gw) S 17923 17923 10852 0 -1 4194304 960 123 0 1 6 0 0 0 20 0 1 0 267662 7385088 1515 18446744073709551615 \
94310112989184 94310113778589 140721677424304 0 0 0 65536 4 65538 1 0 0 17 0 0 0 0 0 0\n";

/// The counts of a machine, in part.
const MACHINE: &[u8] = b"cpu  5 0 3 90\nctxt 77\nbtime 1796082165\nprocesses 18250\n";

/// Limits of a process.
const LIMITS: &[u8] =
    b"Limit                     Soft Limit           Hard Limit           Units     \n\
Max processes             96364                96364                processes \n\
Max open files            1024                 1048576              files     \n";

#[test]
fn processor_time_of_both_kinds(rt: HostRuntime) {
    assert_eq!(rt; processor_time_in(STAT), Some(60_000));
    assert_eq!(rt;
        processor_time_in(b"1 (a) R 0 0 0 0 0 0 0 0 0 0 250 33 0"),
        Some(2_830_000)
    );
    assert_eq!(rt; processor_time_in(b"1 (a) R 0 0 0 0 0 0 0 0 0 0 250"), None);
    assert_eq!(rt;
        processor_time_in(b"1 (a) R 0 0 0 0 0 0 0 0 0 0 250 -1 0"),
        None
    );
    assert_eq!(rt; processor_time_in(b""), None);
}

#[test]
fn start_by_the_machine_and_the_process(rt: HostRuntime) {
    assert_eq!(rt; start_in(MACHINE, STAT), Some(1_796_084_841_620_000));
    assert_eq!(rt; start_in(b"cpu  5\n", STAT), None);
    assert_eq!(rt; start_in(MACHINE, b"1 (a) R 0 0"), None);
    assert_eq!(rt; start_in(b"btime 18446744073709\n", STAT), None);
}

#[test]
fn descriptors_of_a_process(rt: HostRuntime) {
    assert_eq!(rt; most_descriptors_in(LIMITS), Some(1024));
    assert_eq!(rt;
        most_descriptors_in(
            b"Max open files            unlimited            unlimited            files\n"
        ),
        None
    );
    assert_eq!(rt;
        most_descriptors_in(b"Max processes             96364\n"),
        None
    );
    assert_eq!(rt; open_descriptors_in(b".\0..\00\01\02\010\0251\0"), 4);
    assert_eq!(rt; open_descriptors_in(b""), 0);
}

#[test]
fn a_process_of_ones_own(rt: HostRuntime) -> Result<(), Fail> {
    assert!(rt; processor_time(&rt).is_some());
    assert!(rt; start_time(&rt).is_some());
    let most = most_descriptors(&rt).unwrap_or(u64::MAX);
    let before = open_descriptors(&rt).unwrap_or(0);
    assert!(rt; before >= 1 && before < most);
    let socket = UdpSocket::bind(&rt, "127.0.0.1:0")?;
    assert_eq!(rt; open_descriptors(&rt), Some(before + 1));
    drop(socket);
    assert_eq!(rt; open_descriptors(&rt), Some(before));
    Ok(())
}
