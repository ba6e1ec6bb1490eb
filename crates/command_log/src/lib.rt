//! The log of accepted commands: which command was accepted at which place, and how many of them
//! are committed. No command is stored. What a log knows is in a pass, which has no bytes and is
//! known to proofs alone.
//!
//! To the layer above: `CommandLog::append` returns a claim of a command at its index, and
//! `CommandLog::redeem` exchanges the claim of a committed command for one that also says that the
//! command is committed. `CommandLog::prove_committed` says that the log has the command of such a
//! claim at its index, among the committed ones. Claims are handed from thread to thread, any
//! number of them may be dropped, and no call compares anything at run time.
#![tactic(auto)]

mod claims;
mod gathering;
mod log;
mod name;
mod rule;
mod steps;
mod unnamed;

pub use claims::{Accepted, Logged};
pub use gathering::{ClaimCollector, LoggedList};
pub use log::CommandLog;
pub use name::LogName;
pub use rule::{Claim, CommitMoment, LogPass, LogRule, LogTable, LogView};
pub use unnamed::{UnnamedClaim, UnnamedList, UnnamedLog};
