//! Cookies compared with hashes from Python's hashlib.

use crate::{Secret, cookie, right};
use srt_types::{MOMENT_END, Peer};
use std::array;
use std::test::Fail;

/// The bytes 0 to 31.
fn secret() -> Secret {
    Secret::new(array::from_fn(|i| i as u8))
}

/// 127.0.0.1
fn near(port: u16) -> Peer {
    Peer {
        ip: [0, 0, 0, 0, 0, 0, 0, 0, 0, 0, 0xff, 0xff, 127, 0, 0, 1],
        port,
    }
}

/// 2001:db8::1
fn far(port: u16) -> Peer {
    Peer {
        ip: [0x20, 0x01, 0x0d, 0xb8, 0, 0, 0, 0, 0, 0, 0, 0, 0, 0, 0, 1],
        port,
    }
}

#[test]
fn each_address_port_and_minute_has_its_cookie(rt: HostRuntime) -> Result<(), Fail> {
    assert_eq!(rt; cookie(&secret(), near(5000), 0), 0xecc9_58a6);
    assert_eq!(rt; cookie(&secret(), near(5001), 0), 0x6e46_80bd);
    assert_eq!(rt; cookie(&secret(), near(65535), 0), 0x2d5c_6b41);
    assert_eq!(rt; cookie(&secret(), near(5000), 3), 0xc3ac_78a5);
    assert_eq!(rt; cookie(&secret(), near(5000), 4), 0xfad6_4f70);
    assert_eq!(rt; cookie(&secret(), near(5000), 5), 0xf1ce_a869);
    assert_eq!(rt; cookie(&secret(), far(5000), 0), 0x1bf3_a7c2);
    assert_eq!(rt; cookie(&secret(), far(5001), 4), 0x50ee_d6d2);
    assert_eq!(rt; cookie(&secret(), near(5000), 76_861_433_640), 0xb17f_884d);
    assert_eq!(rt; cookie(&secret(), far(5001), 76_861_433_640), 0x86b4_02cc);
    assert_eq!(rt; cookie(&secret(), near(5000), u64::MAX), 0x6a16_0f85);
    Ok(())
}

#[test]
fn another_secret_gives_another_cookie(rt: HostRuntime) -> Result<(), Fail> {
    assert_eq!(rt;
        cookie(&Secret::new([0xff; 32]), near(5000), 0),
        0x9b29_01a3
    );
    Ok(())
}

#[test]
fn right_in_its_minute_and_the_next(rt: HostRuntime) -> Result<(), Fail> {
    let third = 0xc3ac_78a5;
    assert!(rt; !right(&secret(), near(5000), 179_999_999, third));
    assert!(rt; right(&secret(), near(5000), 180_000_000, third));
    assert!(rt; right(&secret(), near(5000), 240_000_000, third));
    assert!(rt; right(&secret(), near(5000), 299_999_999, third));
    assert!(rt; !right(&secret(), near(5000), 300_000_000, third));
    assert!(rt; !right(&secret(), near(5001), 240_000_000, third));
    assert!(rt; !right(&secret(), far(5000), 240_000_000, third));
    assert!(rt; right(&secret(), far(5001), 240_000_000, 0x12bc_3d2b));
    Ok(())
}

#[test]
fn minute_0_has_its_own_alone(rt: HostRuntime) -> Result<(), Fail> {
    assert!(rt; right(&secret(), near(5000), 0, 0xecc9_58a6));
    assert!(rt; right(&secret(), near(5000), 59_999_999, 0xecc9_58a6));
    // The cookies of minute 1 and of minute 2^64 - 1, and 0, which is never a cookie.
    assert!(rt; !right(&secret(), near(5000), 0, 0x3e9c_b415));
    assert!(rt; !right(&secret(), near(5000), 0, 0x6a16_0f85));
    assert!(rt; !right(&secret(), near(5000), 0, 0));
    Ok(())
}

#[test]
fn right_at_the_last_moment(rt: HostRuntime) -> Result<(), Fail> {
    assert!(rt; right(&secret(), near(5000), MOMENT_END - 1, 0xb17f_884d));
    assert!(rt; !right(&secret(), near(5001), MOMENT_END - 1, 0xb17f_884d));
    Ok(())
}

#[test]
fn each_run_has_its_secret(rt: HostRuntime) {
    assert_eq!(rt;
        secret().of_run(0).bytes,
        [
            0xa9, 0xd6, 0xe5, 0x00, 0x29, 0x3a, 0x88, 0xbd, 0x38, 0xcb, 0xe2, 0x13, 0xd0, 0x7a,
            0xb7, 0x1f, 0x8c, 0xb2, 0x25, 0x85, 0x52, 0x07, 0x2a, 0x01, 0xbd, 0xf1, 0xc4, 0x0b,
            0xe5, 0x27, 0xf4, 0xd0,
        ]
    );
    assert_eq!(rt;
        secret().of_run(1_795_705_445_123_456).bytes,
        [
            0x7e, 0xc2, 0x19, 0xdf, 0xa2, 0x51, 0xff, 0xb9, 0x9d, 0x10, 0x39, 0x96, 0xbb, 0xc8,
            0x64, 0xc5, 0x11, 0x33, 0x36, 0xc3, 0x80, 0xe2, 0x52, 0x5a, 0xc2, 0x8d, 0xf7, 0x89,
            0xa1, 0x07, 0x08, 0x59,
        ]
    );
    assert_eq!(rt;
        secret().of_run(u64::MAX).bytes,
        [
            0x7e, 0x6b, 0xcc, 0xb1, 0x0c, 0xce, 0x44, 0x27, 0x9b, 0x07, 0x9b, 0x34, 0xdf, 0xaa,
            0xbb, 0xc5, 0x4e, 0x7c, 0x72, 0xe2, 0x28, 0x81, 0x62, 0xc2, 0xab, 0x06, 0x16, 0x38,
            0x21, 0xa2, 0x37, 0x3e,
        ]
    );
}
