//! Why a command is not queued.

ghost use Rattle.std.specs.Prelude.{◌≡◌, ◌-◌, ◌^◌, ◌<◌, IfNone};
ghost use Rattle.command_queue.specs.Refusals.{queue_refusal};

/// The most commands that wait: as many as may be pending in a state, and 128 for each of 64
/// sessions.
pub const MOST_WAITING: usize = 256 + 64 * 128;

/// Why a command was not queued.
#[derive(Clone, Copy, Debug, PartialEq, Eq)]
pub enum NotQueued {
    /// The queue is closed.
    Closed,
    /// 8,448 commands wait.
    Full,
    /// 2^64 - 1 commands were handed in, so that no number is left.
    Exhausted,
    /// Memory was refused.
    NoMemory,
}

/// Why a queue takes no command, apart from want of memory.
pub(crate) fn refusal(is_closed: bool, waiting: usize, next: u64) -> Option<NotQueued>
    ensures number { IfNone result (next < 2 ^ 64 - 1) }
    ensures why { result ≡ queue_refusal is_closed waiting next }
{
    if is_closed {
        Some(NotQueued::Closed)
    } else if waiting >= MOST_WAITING {
        Some(NotQueued::Full)
    } else if next == u64::MAX {
        Some(NotQueued::Exhausted)
    } else {
        None
    }
}
