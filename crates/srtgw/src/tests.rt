//! The line of each fault of a socket or of threads, as docs/PROTOCOL.md has them ("The program's output").

use crate::faults::Fault;
use srt_offline::OfflineFault;
use srt_poller::BindFault;
use srt_serve::RunFault;
use std::fmt::InlineText;
use std::process::Abort;

/// Asserts that this line is printed for a fault.
fn assert_line(rt: &impl Abort, fault: Fault, line: &str) {
    assert!(rt; fault.is_printed());
    assert_eq!(rt; InlineText::<64>::of(&fault).as_str(), line);
}

#[test]
fn each_fault_has_its_line(rt: HostRuntime) {
    assert_line(
        &rt,
        Fault::Bind(BindFault::Socket(Some(98))),
        "socket fault",
    );
    assert_line(&rt, Fault::Bind(BindFault::OutOfMemory), "memory");
    assert_line(&rt, Fault::Run(RunFault::Thread), "thread fault");
    assert_line(&rt, Fault::Run(RunFault::Busy), "busy");
    assert_line(&rt, Fault::Run(RunFault::OutOfMemory), "memory");
    assert_line(&rt, Fault::Offline(OfflineFault::File), "file fault");
    assert!(rt; !Fault::Offline(OfflineFault::Output).is_printed());
}
