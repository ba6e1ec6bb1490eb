//! The end of a connection whose session has ended before its input.

use paced_stream::{AcceptedStream, Deadline};
use std::time::{Clock, Duration};

/// The time in milliseconds that a connection stays open after a fault of its session, so that the
/// peer gets the replies before the fault.
const PARTING: u64 = 1_000;

/// Ends a connection before its input has ended. A close over unread input would reset the
/// connection, and the peer would lose the replies that it has not received yet. The input that
/// arrives within a second is therefore read and dropped.
pub(crate) fn end_early(clock: &impl Clock, stream: &AcceptedStream) {
    if let Ok(deadline) = Deadline::after(clock, Duration::from_millis(PARTING)) {
        stream.part(clock, &deadline);
    }
}
