//! What failed last in a file.
ghost use Rattle.std.specs.Prelude.{◌≡◌, ◌≢◌, IfSome, Some, pos};
ghost use Rattle.sector_dev.specs.LastFault.{fault_number};

use std::fmt;
use std::io::Error;
use std::sync::atomic::{AtomicI32, AtomicU32, Ordering};

/// What failed in a file.
#[derive(Clone, Copy, Debug, PartialEq, Eq)]
pub enum FaultKind {
    /// A read failed, or gave no byte.
    Read = 1,
    /// A write failed, or took no byte.
    Write = 2,
    /// A sync failed.
    Sync = 3,
    /// The file's length or the number of its names was not returned.
    Status = 4,
    /// The file is shorter than it was when it was opened.
    Cut = 5,
    /// The file has no name any more.
    Unlinked = 6,
}

impl fmt::Display for FaultKind {
    fn fmt<W: fmt::Write>(&self, f: &mut fmt::Formatter<W>) -> fmt::Result {
        f.write_str(match self {
            FaultKind::Read => "a read of the file failed",
            FaultKind::Write => "a write of the file failed",
            FaultKind::Sync => "a sync of the file failed",
            FaultKind::Status => "the length or the links of the file were not found",
            FaultKind::Cut => "the file was cut",
            FaultKind::Unlinked => "the file was unlinked or replaced",
        })
    }
}

/// A failure of a file.
#[derive(Clone, Copy, Debug, PartialEq, Eq)]
pub struct FileFault {
    /// What failed.
    pub kind: FaultKind,
    /// The system's number of the error, if the system returned an error.
    pub errno: Option<i32>,
}

impl fmt::Display for FileFault {
    fn fmt<W: fmt::Write>(&self, f: &mut fmt::Formatter<W>) -> fmt::Result {
        match self.errno {
            Some(errno) => write!(f, "{}: {}", self.kind, Error::from_raw_os_error(errno)),
            None => write!(f, "{}", self.kind),
        }
    }
}

/// The last failure of a file, for any thread that asks. It is kept apart from the file, so that it
/// can be asked for while another owner has the file, and when the file is closed.
#[derive(Drop)]
pub struct LastFault {
    // The number of the kind, or 0.
    kind: AtomicU32,
    // The number of the error, or 0.
    errno: AtomicI32,
}

impl LastFault {
    /// No failure yet. No contract can state what an atomic number holds.
    pub fn new() -> LastFault {
        LastFault {
            kind: AtomicU32::new(0),
            errno: AtomicI32::new(0),
        }
    }

    /// The last failure, or `None` where there was none. Where another one comes in the middle of
    /// the call, its number may be returned with the kind of the one before. A failure for which
    /// the system returned no error has no number, and none has the number 0.
    pub fn get(&self) -> Option<FileFault>
        ensures numbered { IfSome result (λ fault. fault.errno ≢ Some (pos 0)) }
    {
        let kind = kind_of(self.kind.load(Ordering::SeqCst))?;
        let errno = self.errno.load(Ordering::SeqCst);
        Some(FileFault {
            kind,
            errno: (errno != 0).then_some(errno),
        })
    }

    /// Notes a failure.
    pub(crate) fn note(&self, fault: FileFault) {
        self.errno.store(fault.errno.unwrap_or(0), Ordering::SeqCst);
        self.kind.store(fault.kind as u32, Ordering::SeqCst);
    }
}

// The kind of this number.
fn kind_of(number: u32) -> Option<FaultKind>
    ensures { IfSome result (λ kind. fault_number kind ≡ number) }
{
    match number {
        1 => Some(FaultKind::Read),
        2 => Some(FaultKind::Write),
        3 => Some(FaultKind::Sync),
        4 => Some(FaultKind::Status),
        5 => Some(FaultKind::Cut),
        6 => Some(FaultKind::Unlinked),
        _ => None,
    }
}
