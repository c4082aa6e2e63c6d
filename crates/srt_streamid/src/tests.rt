//! Stream IDs, and the routes and roles that they request.

use crate::{Ask, AskFault, read};
use srt_types::Role;
use std::test::Fail;

fn asks(start: usize, len: usize, role: Role) -> Result<Ask, AskFault> {
    Ok(Ask { start, len, role })
}

#[test]
fn lists(rt: HostRuntime) -> Result<(), Fail> {
    assert_eq!(rt;
        read(b"#!::m=publish,r=a,x,u=b"),
        asks(16, 1, Role::Publish)
    );
    assert_eq!(rt; read(b"#!::r=studio,m=request"), asks(6, 6, Role::Request));
    assert_eq!(rt; read(b"#!::r=a=b"), asks(6, 3, Role::Request));
    assert_eq!(rt;
        read(b"#!::r,,=x,M=play,r=live/1"),
        asks(19, 6, Role::Request)
    );
    Ok(())
}

#[test]
fn plain_names(rt: HostRuntime) -> Result<(), Fail> {
    assert_eq!(rt; read(b"studio"), asks(0, 6, Role::Request));
    assert_eq!(rt; read(b"#!:{r=studio}"), asks(0, 13, Role::Request));
    assert_eq!(rt; read(b"r=a,m=play"), asks(0, 10, Role::Request));
    assert_eq!(rt; read("caf\u{e9}".as_bytes()), asks(0, 5, Role::Request));
    Ok(())
}

#[test]
fn faults(rt: HostRuntime) -> Result<(), Fail> {
    assert_eq!(rt; read(b"#!::m=bidirectional,r=a"), Err(AskFault::BadMode));
    assert_eq!(rt; read(b"#!::m=play,r=a,r=b"), Err(AskFault::BadMode));
    assert_eq!(rt; read(b"#!::r=a,r=b"), Err(AskFault::RepeatedKey));
    assert_eq!(rt; read(b"#!::r=a,r=b,m=play"), Err(AskFault::RepeatedKey));
    assert_eq!(rt;
        read(b"#!::m=request,m=request"),
        Err(AskFault::RepeatedKey)
    );
    assert_eq!(rt; read(b"#!::m=request,m=play"), Err(AskFault::BadMode));
    assert_eq!(rt; read(b"#!::r=,m="), Err(AskFault::BadMode));
    assert_eq!(rt; read(b""), Err(AskFault::NoRoute));
    assert_eq!(rt; read(b"#!::r="), Err(AskFault::NoRoute));
    assert_eq!(rt; read(b"#!::R=a"), Err(AskFault::NoRoute));
    assert_eq!(rt; read(b"#!::"), Err(AskFault::NoRoute));
    assert_eq!(rt; read(&[0xff]), Err(AskFault::NotUtf8));
    assert_eq!(rt; read(b"#!::m=play,r=\xff"), Err(AskFault::NotUtf8));
    Ok(())
}
