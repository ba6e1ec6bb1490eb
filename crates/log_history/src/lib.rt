//! A log of accepted commands that only grows, and what it was at any moment, in any thread. No
//! command is stored: both exist in proofs alone.
//!
//! To the layer above: `LogHistory::accept` notes an accepted command, and `LogHistory::commit`
//! that more commands are committed. `LogHistory::past` returns the log as it is then. A past log
//! has no bytes, can be copied from behind a shared reference, and goes to any thread. The owner of
//! the log shows by `LogHistory::prove_past` that its log begins with the commands of a past log,
//! and that no fewer of them are committed. Of two past logs one is no longer than the other and
//! begins it, which `PastLog::compare` shows, and `PastLog::joined` returns one that both are past
//! logs of.
#![tactic(auto)]

mod history;
mod rule;

pub use history::{LogHistory, PastLog};
pub use rule::{Entry, Growth};
