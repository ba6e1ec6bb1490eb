//! The state of a store at work: a flusher that commits accepted commands in groups, and a
//! checkpointer that folds a sealed journal into the other half. One call makes at most one write
//! or one sync of the device, and its clause says which.
//!
//! Here are the start of a state, submitting commands, staging, preparing and beginning a
//! checkpoint, the steps of both actors on the device, publishing, redeeming, stopping, lookups,
//! and the end of a state.
//!
//! To the layer above: each step is exact, and says what a stop within it leaves: what is
//! committed, with a front of the accepted commands as long as the phase of the flusher allows.
#![tactic(auto)]

mod accepting;
mod beginning;
mod bookkeeping;
mod checkpointer;
mod ending;
mod error;
mod flusher;
mod following;
mod halting;
mod numbers;
mod phases;
mod plain_show;
mod preparing;
mod publishing;
mod reading;
mod redeeming;
mod showcase;
mod staging;
mod starting;
mod state;
mod submit_error;
mod submitting;
mod ticket;
mod values;

pub use beginning::BeginError;
pub use bookkeeping::Turn;
pub use error::{PublishError, StepError};
pub use following::FollowError;
pub use numbers::{Numbers, ShowsRows};
pub use phases::{
    AtClosing, AtDurable, AtDurableFollowed, AtFollowed, AtFollowing, AtLaid, AtLive, AtOpened,
    AtPlan, AtStable, AtStaged, AtSwitched, AtWritten,
};
pub use plain_show::PlainShow;
pub use preparing::Prepared;
pub use showcase::Showcase;
pub use staging::StageError;
pub use state::State;
pub use submit_error::SubmitError;
pub use ticket::{Receipt, Redeemed, Ticket};
pub use values::{
    Closing, Commit, Durable, DurableFollowed, Followed, Following, Laid, Live, Opened, Plan,
    Stable, Staged, Switched, Written,
};
