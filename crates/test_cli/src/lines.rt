//! The last lines of ways in which the program ends, as docs/CLI.md has them, and their
//! status: those that no whole command line of `test_program` comes to, since memory or a device
//! has to fail for them.

use cli_ask::AskFault;
use cli_commands::{Ended, Failed, Failure, status_of};
use cli_once::SessionFault;
use cli_store::Fault as StoreFault;
use sector_dev::{FaultKind, FileFault};
use session_core::FrameError;
use std::alloc::Global;
use std::process::Abort;
use store_open::{CopyError, FormatError, OpenError, StoreError};

/// Sees the line and the status of a way to end.
fn assert_line(rt: &impl Abort, alloc: Global, ended: Ended, wanted: &str) {
    let line = ended.to_string(alloc).expect(rt, "no memory");
    assert_eq!(rt; line.as_str(), wanted);
    assert_eq!(rt; status_of(&Err(Failed::from(ended))), 1, "{wanted}");
}

/// The lines of faults of a store.
const STORES: [(StoreFault, &str); 7] = [
    (
        StoreFault::Format(FormatError::BadGeometry),
        "error: format 1",
    ),
    (StoreFault::Format(FormatError::TooSmall), "error: format 2"),
    (StoreFault::Format(FormatError::Fault), "error: format 3"),
    (StoreFault::Open(OpenError::Device), "error: open 2"),
    (StoreFault::Checkpoint(StoreError::Fault), "error: device 1"),
    (
        StoreFault::Checkpoint(StoreError::Broken),
        "error: device 6",
    ),
    (StoreFault::Memory, "error: memory"),
];

#[test]
fn lines_of_ends(rt: HostRuntime) {
    for (fault, line) in STORES {
        assert_line(&rt, rt.alloc(), Ended::from(fault), line);
    }
    let turns = Ended::from(SessionFault::from(FrameError::Turns));
    assert_line(&rt, rt.alloc(), turns, "error: frame 5");
    assert_line(&rt, rt.alloc(), Ended::Net, "error: net");
    let refused = Ended::Ask(AskFault::Refused(0x5a));
    assert_line(&rt, rt.alloc(), refused, "error: refused 0x5a");
}

/// What a full disk, a disk that is broken and a file that was cut do.
const FAULTS: [(StoreFault, FaultKind, Option<i32>, &str); 4] = [
    (
        StoreFault::Format(FormatError::Fault),
        FaultKind::Write,
        Some(28),
        "cannot format a: the device failed: a write of the file failed: No space left on device (os error 28)",
    ),
    (
        StoreFault::Copy(CopyError::Fault),
        FaultKind::Sync,
        Some(5),
        "cannot make a copy at a: the device failed: a sync of the file failed: Input/output error (os error 5)",
    ),
    (
        StoreFault::Open(OpenError::Device),
        FaultKind::Read,
        None,
        "cannot open a: the device failed: a read of the file failed",
    ),
    (
        StoreFault::Checkpoint(StoreError::Fault),
        FaultKind::Cut,
        None,
        "cannot upgrade a: the device failed: the file was cut",
    ),
];

#[test]
fn lines_of_files_that_fail(rt: HostRuntime) {
    for (fault, kind, errno, wanted) in FAULTS {
        let failure = Failure::Device("a", fault, FileFault { kind, errno });
        let line = failure.to_string(rt.alloc()).expect(&rt, "no memory");
        assert_eq!(&rt; line.as_str(), wanted);
        assert_eq!(&rt; failure.ended(), Ended::from(fault), "{wanted}");
        assert_eq!(&rt; failure.is_lasting(), false, "{wanted}");
    }
}

// The status of a failure is that which the words name for it.
#[test]
fn status_of_a_failure(rt: HostRuntime) {
    let failed = Failed {
        ended: Ended::from(StoreFault::Open(OpenError::NotAStore)),
        status: 9,
        is_marked: false,
    };
    assert_eq!(rt; status_of(&Err(failed)), 9);
}

#[test]
fn lines_of_refused_memory(rt: HostRuntime) {
    for ended in [
        Ended::from(SessionFault::Memory),
        Ended::from(SessionFault::from(FrameError::NoMemory)),
        Ended::from(StoreFault::from(OpenError::NoMemory)),
        Ended::from(StoreFault::from(StoreError::NoMemory)),
    ] {
        assert_line(&rt, rt.alloc(), ended, "error: memory");
    }
}
