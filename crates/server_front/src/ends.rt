//! How sessions end.

ghost use Rattle.std.specs.Prelude.{◌≡◌};
ghost use Rattle.server_front.specs.Ending.{cause_of, is_fault};

use session_core::FrameError;
use std::sync::atomic::{AtomicU64, Ordering};

/// Why a session ended.
#[derive(Clone, Copy, Debug, PartialEq, Eq)]
pub enum Cause {
    /// Its peer sent no more, and all that it had sent was answered.
    Orderly,
    /// Its peer sent no whole frame within the idle time, or did not take a reply within it.
    Idle,
    /// A frame of its peer is faulty.
    Frame,
    /// A read or a write failed, or the input ended within a frame.
    Failed,
    /// Memory was refused.
    NoMemory,
    /// The server ended the session.
    Server,
}

/// What is known of the end of a session, beside its result.
#[derive(Clone, Copy, Debug, PartialEq, Eq)]
pub struct Circumstances {
    /// Whether a read or a write failed because its time was over.
    pub is_late: bool,
    /// Whether the server has shut down the connections of its sessions.
    pub is_shut: bool,
}

/// The cause of an end, by the result of the session.
pub fn cause_of(ended: Result<u64, FrameError>, circumstances: Circumstances) -> Cause
    ensures { result ≡ cause_of ended circumstances }
{
    match ended {
        Err(FrameError::NoMemory) => Cause::NoMemory,
        Err(FrameError::Length | FrameError::Kind) => Cause::Frame,
        Err(FrameError::Turns) => Cause::Server,
        Ok(_) | Err(FrameError::Read | FrameError::Write) if circumstances.is_shut => Cause::Server,
        Ok(_) => Cause::Orderly,
        Err(FrameError::Read | FrameError::Write) => {
            if circumstances.is_late {
                Cause::Idle
            } else {
                Cause::Failed
            }
        }
    }
}

impl Cause {
    /// Whether the cause is a fault, which is reported.
    pub fn is_fault(self) -> bool
        ensures { result ≡ is_fault self }
    {
        match self {
            Cause::Frame | Cause::Failed | Cause::NoMemory => true,
            Cause::Orderly | Cause::Idle | Cause::Server => false,
        }
    }
}

/// The numbers of sessions that have ended, by cause. Threads share them, so that no clause says
/// what they are.
#[derive(Drop)]
pub struct Ends {
    orderly: AtomicU64,
    idle: AtomicU64,
    frame: AtomicU64,
    failed: AtomicU64,
    no_memory: AtomicU64,
    server: AtomicU64,
}

impl Ends {
    /// All numbers 0.
    pub fn new() -> Ends {
        Ends {
            orderly: AtomicU64::new(0),
            idle: AtomicU64::new(0),
            frame: AtomicU64::new(0),
            failed: AtomicU64::new(0),
            no_memory: AtomicU64::new(0),
            server: AtomicU64::new(0),
        }
    }

    /// Counts one more end by this cause.
    pub fn count(&self, cause: Cause) {
        self.number(cause).fetch_add(1, Ordering::SeqCst);
    }

    /// The number of ends by this cause.
    pub fn of(&self, cause: Cause) -> u64 {
        self.number(cause).load(Ordering::SeqCst)
    }

    /// The number that counts ends by this cause.
    fn number(&self, cause: Cause) -> &AtomicU64 {
        match cause {
            Cause::Orderly => &self.orderly,
            Cause::Idle => &self.idle,
            Cause::Frame => &self.frame,
            Cause::Failed => &self.failed,
            Cause::NoMemory => &self.no_memory,
            Cause::Server => &self.server,
        }
    }
}
