//! Sessions: frames of messages are read, and frames of replies are written, over any service.
//!
//! To the layer above, `serve` makes at most a given number of reads. What it read is the frames of
//! the messages that the service answered, in order, and what it writes are the frames of those
//! replies and nothing else. `Framer` finds the same messages in a stream that comes in pieces,
//! however the stream is cut.
#![tactic(auto)]

mod ahead;
mod command_kind;
mod error;
mod format;
mod framer;
mod frames;
mod ghosts;
mod inbox;
pub mod kinds;
pub mod laws;
mod lines;
mod list_request;
mod message;
mod message_kinds;
mod reading;
mod replies;
mod reply;
mod service;
mod serving;
mod session;
mod sink;
mod source;
mod writing;

pub use ahead::MOST_AHEAD;
pub use command_kind::CommandKind;
pub use error::FrameError;
pub use format::{LENGTH_SIZE, MOST_LENGTH, MOST_REPLY};
pub use framer::{Fed, Framer};
pub use lines::serve_in_lines;
pub use list_request::ListRequest;
pub use message::Message;
pub use message_kinds::Kinds;
pub use path_db::Outcome;
pub use reading::read_all;
pub use replies::{Replies, refuse_over};
pub use reply::{Form, Reply, refusal_frame};
pub use service::{Ack, Acknowledges, Code, Listing, MOST_SEGMENTS, Service};
pub use serving::{serve, serve_over};
pub use sink::Sink;
pub use source::{MOST_PIECE, MOST_READS, Source};
