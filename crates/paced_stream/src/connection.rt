//! One session over a connection.

ghost use Rattle.std.specs.Prelude.{◌≡◌, ◌++◌};
ghost use Rattle.session_core.specs.HandedIn.{HandsInFromSource};
ghost use Rattle.session_core.specs.declared.source.TheConstants.{MOST_READS};
ghost use Rattle.paced_stream.specs.Connection.{IsConnectionServed};

use crate::buffered::{BUFFER, Buffered};
use crate::paced::Paced;
use crate::sealed::{Closed, Sealed};
use crate::stream_calls::StreamCalls;
use session_core::{FrameError, Kinds, MOST_READS, Service, serve_over};
use std::alloc::Global;
use std::io;
use std::time::{Clock, Duration};

/// A session that has ended.
#[derive(Drop)]
pub struct Ended<T> {
    /// The number of replies, or why the session ended.
    pub replies: Result<u64, FrameError>,
    /// Whether a read or a write failed because its time was over.
    pub is_late: bool,
    /// The connection for reads.
    pub input: Closed<T>,
    /// The connection for writes.
    pub output: Closed<T>,
}

/// Answers the messages of a connection, which are of these kinds, and returns the number of
/// replies, a count that stays at 2^64 - 1. Replies are sent when all messages that have arrived
/// are answered, or the buffer of 8,192 bytes is full. The session ends where a frame does not
/// begin within the idle time, where its rest does not come within the idle time of the first read
/// that waits for it, or where what is sent is not taken within it. The time in which messages are
/// answered is in none of these.
///
/// The connection is given for reads and for writes, sealed: nothing is written to it but replies.
/// The error is `Read` too where it cannot be set up.
pub fn serve_connection<C: Clock, T: StreamCalls, S: Service>(
    clock: &C,
    alloc: Global,
    input: Sealed<T>,
    output: Sealed<T>,
    service: &mut S,
    kinds: Kinds,
    idle: Option<Duration>,
) -> Ended<T>
    ensures served { IsConnectionServed kinds S.answers T.given T.taken T.is_at_end (S.state service.old) (S.state service.new)
        input result.input output result.output result.replies }
    ensures handed_in { HandsInFromSource kinds S.hands_in (λ old bytes new. T.given new ≡ T.given old ++ bytes) MOST_READS input result.input
        (S.sent service.old) (S.sent service.new) }
{
    if set_up(input.stream(), output.stream(), idle).is_err() {
        return Ended {
            replies: Err(FrameError::Read),
            is_late: false,
            input: input.close(),
            output: output.close(),
        };
    }
    let Ok(held) = Vec::with_capacity(alloc, BUFFER) else {
        return Ended {
            replies: Err(FrameError::NoMemory),
            is_late: false,
            input: input.close(),
            output: output.close(),
        };
    };
    let mut input = Paced::new(clock, input.into_stream(), idle);
    let buffered = Buffered::new(Paced::new(clock, output.into_stream(), idle), held);
    let (replies, output) = serve_over(alloc, &mut input, buffered, service, kinds, MOST_READS);
    let output = output.into_paced();
    Ended {
        replies,
        is_late: input.is_late() || output.is_late(),
        input: Closed::of(input.into_stream()),
        output: Closed::of(output.into_stream()),
    }
}

/// Sets up a connection. Small replies are sent at once, since they are gathered before, and reads
/// and writes have a timeout.
fn set_up<T: StreamCalls>(input: &T, output: &T, idle: Option<Duration>) -> io::Result<()> {
    output.set_nodelay(true)?;
    input.set_read_timeout(idle)?;
    output.set_write_timeout(idle)
}
