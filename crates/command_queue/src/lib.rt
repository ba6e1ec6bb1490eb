//! Commands that wait to be submitted, under numbers of their own, and claims that say which
//! command has a number.
//!
//! Two threads may agree on the command of a number without a lock between them: the history of all
//! commands that were handed in exists in proofs alone, and each claim knows that its command is in
//! that history at its number.
//!
//! To the layer above: `CommandQueue::hand_in` returns a claim of the command that was passed, with
//! the next number, and the command's `Sender` notes it. `CommandQueue::take` returns the command
//! that waits longest, with a claim of that command. `Claim::same_number_means_same_command` shows
//! that two claims of one number are of one command. Who submits commands notes them in
//! `Submitted`. `CommandQueue::end` then says that they are a part of what was handed in, in the
//! same order and each once, and that each `Sender` that has ended had noted all that was handed in
//! of it.
#![tactic(auto)]

mod claim;
mod desk;
mod ghosts;
mod history;
mod leave;
mod not_queued;
mod numbering;
mod queue;
mod sender;
mod steps;
mod submitted;

pub use claim::Claim;
pub use desk::Queued;
pub use ghosts::rule::{QueuePass, QueueRule, QueueTable, QueueView, SenderList, SentCommand};
pub use history::{History, NewHistory, QueueName};
pub use not_queued::{MOST_WAITING, NotQueued};
pub use queue::{CommandQueue, HandedIn, NewQueue};
pub use sender::{EndedSender, EndedSenders, Sender, Senders};
pub use submitted::{Numbered, Submitted};
