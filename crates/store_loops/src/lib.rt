//! The two actors of a store at work: a flusher that commits accepted commands in groups, and a
//! checkpointer that folds a sealed journal into the other half.
//!
//! To the layer above: the trait `Steps` has the guarded calls of a state that several threads work
//! on, and what each of them answers; `flusher_loop` and `checkpointer_loop` make these calls until
//! the state has stopped, and say what an operator should know to a `Watch`. `DeviceCall` names the
//! calls that use the device, and `CommitTimes` has how long commits took.
#![tactic(auto)]

mod calls;
mod checkpointer;
mod commits;
mod flusher;
mod retrying;
mod steps;
mod watch;

pub use calls::DeviceCall;
pub use checkpointer::checkpointer_loop;
pub use commits::{BUCKETS, Bucket, CommitTimes, SECOND};
pub use flusher::{commit_once, flusher_loop};
pub use steps::{Awaited, Steps};
pub use watch::{Actor, Notice, Silent, Watch};
