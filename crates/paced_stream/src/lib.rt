//! Sessions over a connection that has to keep its frames' times.
//!
//! To the layer above, `serve_connection` serves a session over the calls of a connection
//! (`StreamCalls`): what the connection took are the frames of the replies to the messages that its
//! reads gave. An `AcceptedStream` is a connection of the system, sealed: it is given to one session,
//! or refused. Its session has the calls of a socket (`SystemStream`), after what a `ReadAhead` has
//! read of it. A `Deadline` is a moment by which all has to be done.
#![tactic(auto)]

mod accepted_stream;
mod buffered;
mod connection;
mod deadline;
mod ghosts;
pub mod laws;
mod pace;
mod paced;
mod read_ahead;
mod sealed;
mod stream_calls;
mod system_stream;
mod tracker;

pub use accepted_stream::{AcceptedStream, Side};
pub use connection::{Ended, serve_connection};
pub use deadline::Deadline;
pub use read_ahead::{MOST_READ_AHEAD, ReadAhead};
pub use sealed::{Closed, Sealed};
pub use stream_calls::StreamCalls;
pub use system_stream::SystemStream;
