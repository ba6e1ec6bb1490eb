//! A state with the log of the commands that it accepted: which command has which place, and what
//! of them a device keeps.
//!
//! To the layer above: `LoggedState` has the calls of `group_core::State`, with their contracts.
//! `submit_logged` also returns the claim of the command, and `redeem_logged` gives a receipt that
//! has a claim in place of a snapshot, so that it may cross threads. A state is made of a
//! `Reserved` store and ends with an `Ended` device, and nothing else has that device. The state is
//! what the opening value and the log lead to: the committed commands make its value, and the
//! others are pending. So what a stop leaves of an honest device opens to the opening value after a
//! front of the log that has all committed commands, and each receipt's command at its place.
#![tactic(auto)]

mod checkpointer;
mod ending;
mod flusher;
mod following;
mod ghosts;
mod halting;
mod left;
mod publishing;
mod reading;
mod receipt;
mod redeeming;
mod reserved;
mod staging;
mod state;
mod submitting;

pub use command_log::{
    Accepted, ClaimCollector, CommandLog, LogName, Logged, LoggedList, UnnamedClaim, UnnamedList,
    UnnamedLog,
};
pub use ghosts::fronts::{Fronts, FrontsNote, no_fronts};
pub use ghosts::name::StateName;
pub use left::Left;
pub use receipt::{LoggedReceipt, LoggedRedeemed, Lost};
pub use reserved::{Ended, Release, Reserved};
pub use state::LoggedState;
