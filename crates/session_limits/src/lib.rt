//! Limits of a session's messages, which are refused before a service below is asked.
//!
//! To the layer above, `Limited` is a service that answers as another one does, but for three
//! limits: a session may take no commands, no time of a command lies too far in the future, and
//! only a given number of sessions have commands under way at one time. `Rooms` counts these
//! sessions, and threads share it.
#![tactic(auto)]

mod future;
pub mod laws;
mod limit;
mod limited;
mod rooms;

pub use limited::{Limited, LimitedCommand, Limits};
pub use rooms::Rooms;
