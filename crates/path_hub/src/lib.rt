//! The hub: a store's state under one lock, the two actors that work on it, and the queue before
//! it.
//!
//! A hub has one flusher, which commits accepted commands in groups, and one checkpointer, which
//! writes all rows after a sealed journal to the other half. It has any number of threads that
//! register commands, and the 64 readers of `hub_readers`, which look up what is published without
//! a lock.
//!
//! A thread that registers a command does not take the state's lock. It hands the command in to a
//! queue, which has a lock of its own; the flusher submits the commands of the queue before it
//! stages a group, and puts each answer where its claim waits once the group is published.
//!
//! To the layer above: `Hub::hand_in` returns a claim of the command that was passed, and
//! `Hub::settle` returns a receipt of the command of a claim, once the command is committed;
//! `Hub::register` does both. `Hub::settle_for` waits only until its `Waiter` has left.
//! `Hub::reader` hands a reader out. Who hands in is a `Sender`, which notes each command that is
//! queued. At its end a hub leaves the log of its state and all commands that were queued: the log
//! is a part of these, in the same order and each once.
#![tactic(auto)]

mod guarded;
mod handing;
mod hub;
mod judging;
mod leading;
mod left;
mod making;
mod new_name;
mod pause;
mod workload;

pub use command_queue::{EndedSender, Sender, Senders};
pub use hub::Hub;
pub use hub_waits::Completed;
pub use left::HubLeft;
pub use logged_state::{
    ClaimCollector, Ended, Left, Logged, LoggedList, LoggedReceipt, Release, Reserved,
    UnnamedClaim, UnnamedList,
};
pub use making::{HubJob, with_hub};
pub use store_loops::{
    Actor, Awaited, BUCKETS, Bucket, CommitTimes, DeviceCall, Notice, Silent, Steps, Watch,
    checkpointer_loop, flusher_loop,
};
pub use workload::{Workload, with_workload};
