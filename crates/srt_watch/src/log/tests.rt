//! A writer whose reader takes nothing for a while, at the end of a log.

use crate::log::{Closing, Drained, LogWriter, When};
use crate::machine::Machine;
use arrayvec::ArrayVec;
use srt_log::{LineKind, LogEvent};
use srt_status::ProcessUse;
use std::io::{self, Error, ErrorKind, Write};
use std::test::Fail;

/// The line of a stop.
const STOPPED: &[u8] = b"stopped\n";

/// A writer with room for 40 bytes, whose reader takes them at a flush, from the one with number 0 on.
#[derive(Drop)]
struct Slow {
    flushes: u32,
    held: ArrayVec<u8, 40>,
    read: ArrayVec<u8, 128>,
}

impl Slow {
    /// Returns one whose reader comes back after this number of flushes.
    fn of(flushes: u32) -> Slow {
        Slow {
            flushes,
            held: ArrayVec::new(),
            read: ArrayVec::new(),
        }
    }
}

impl Write for Slow {
    fn write(&mut self, bytes: &[u8]) -> io::Result<usize> {
        match self.held.try_extend_from_slice(bytes) {
            Ok(()) => Ok(bytes.len()),
            Err(_) => Err(Error::from(ErrorKind::WouldBlock)),
        }
    }

    fn flush(&mut self) -> io::Result<()> {
        if self.flushes > 0 {
            self.flushes -= 1;
        } else {
            let _ = self.read.try_extend_from_slice(&self.held);
            self.held.clear();
        }
        if self.held.is_empty() {
            Ok(())
        } else {
            Err(Error::from(ErrorKind::WouldBlock))
        }
    }
}

/// A machine whose clock moves by 20 milliseconds at each look.
#[derive(Drop)]
struct Ticking {
    moment: u64,
}

impl Machine for Ticking {
    fn rest(&self) {}

    fn pause(&self) {}

    fn moment(&mut self) -> u64 {
        self.moment = self.moment.saturating_add(20_000);
        self.moment
    }

    fn time(&self) -> u64 {
        0
    }

    fn stop_requested(&self) -> bool {
        false
    }

    fn memory(&self) -> Option<u64> {
        None
    }

    fn drops(&self) -> Option<u64> {
        None
    }

    fn process(&self) -> ProcessUse {
        ProcessUse::default()
    }

    fn receive_buffer(&self) -> Option<u64> {
        None
    }
}

/// The time of these lines.
const WHEN: When = When {
    moment: 3_000_000,
    stamp: None,
    is_json: false,
};

#[test]
fn the_end_waits_for_a_reader(rt: HostRuntime) -> Result<(), Fail> {
    let mut machine = Ticking { moment: 3_000_000 };
    let mut log = LogWriter::new(rt.alloc(), Slow::of(10));
    for count in 1..4u64 {
        log.append(WHEN, LineKind::Session, LogEvent::SocketFaults { count });
    }
    log.close(&mut machine, WHEN);
    assert!(rt;
        matches!(
            log.closing,
            Some(Closing {
                last: Drained::All(_),
                ..
            })
        )
    );
    assert_eq!(rt;
        log.out.out.read.as_slice(),
        "socket faults 1\nsocket faults 2\nlines left out 1\nstopped\n".as_bytes()
    );
    assert!(rt; machine.moment < 3_400_000);
    Ok(())
}

#[test]
fn the_end_waits_a_second_at_most(rt: HostRuntime) -> Result<(), Fail> {
    let mut machine = Ticking { moment: 3_000_000 };
    let mut log = LogWriter::new(rt.alloc(), Slow::of(10_000));
    log.append(WHEN, LineKind::Session, LogEvent::Unblocked);
    let _ = log.out.out.held.try_extend_from_slice(STOPPED);
    log.close(&mut machine, WHEN);
    assert!(rt;
        matches!(
            log.closing,
            Some(Closing {
                last: Drained::Over(4_020_000),
                ..
            })
        )
    );
    assert!(rt; log.out.out.read.is_empty());
    Ok(())
}
