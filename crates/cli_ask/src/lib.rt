//! The program as a client of its own protocol.
//!
//! To the layer above, `asked_of` reads what the words ask for. `ask` sends a question over a link,
//! reads the replies and prints them, and `register` does so with the segments of lines. A purge is
//! several commands, by rising moments, unless it is asked for as one. The bytes
//! of a request are its one frame, and what is printed of a reply is a function of the reply. A
//! reply is taken only where its bytes are the one encoding of what was read of it.
#![tactic(auto)]

mod answers;
mod asking;
mod codes;
mod error;
mod lines;
mod link;
mod listing;
mod purging;
mod question;
mod registering;
mod reply;
mod request;
mod steps;

pub use asking::{Answer, ask};
pub use codes::NamedCode;
pub use error::{AskError, AskFault};
pub use link::{Link, TcpLink};
pub use question::{Asked, Question, WordError, asked_of};
pub use registering::{Refusals, register};
