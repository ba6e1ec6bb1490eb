//! Claims on the answers to commands that were handed in at a hub, the answers, and who waits for
//! one.
//!
//! A command that is handed in has a claim of the hub's queue. `Answer::committed`,
//! `Answer::refused` and `Answer::stopped` make the answer to that claim, and `Slot::put` puts it
//! where the command's `HubClaim` finds it.
//!
//! To the layer above: `HubClaim::take_answer` returns a receipt of the command of the claim, or
//! why there is none. An answer to another claim is not taken. `HubName` names the hub, and
//! `HubError` says why a call of a hub was refused. A `Waiter` says whether it still waits for an
//! answer.
#![tactic(auto)]

mod answer;
mod claim;
mod error;
mod name;
mod waiter;

pub use answer::{Answer, NotCommitted, Slot};
pub use claim::HubClaim;
pub use error::HubError;
pub use name::HubName;
pub use waiter::{Patient, Waiter};
