//! What the threads of a hub see and wait for without the state's lock.
//!
//! To the layer above: a `HubStatus` shows the state's numbers at the end of the last guarded call,
//! and what both actors had completed then. `Changes` counts the changes that threads wait for, and
//! wakes these threads. A `Waker` wakes the threads whose commands are answered, in a thread of its
//! own where there is one.
#![tactic(auto)]

mod changes;
mod completed;
mod pause;
mod status;
mod turns;
mod waker;

pub use changes::{Changes, LONGEST_REST};
pub use completed::{Completed, Done};
pub use pause::Pause;
pub use status::HubStatus;
pub use turns::Turns;
pub use waker::Waker;
