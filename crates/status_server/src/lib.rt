//! What a server counts of its replies, and how it answers the peers that ask for its numbers.
//!
//! To the layer above: `Counted` is a service that changes no reply of another service and counts
//! each in `Replies`, which threads share, with what commands did and how long lookups took.
//! `answer` is the text that a peer is sent for what it asks. `Visits` has the connections of such
//! peers, and waits for none of them.
#![tactic(auto)]

mod answers;
mod counted;
mod lookup_times;
mod outcomes;
mod refusals;
mod replies;
mod reply_kind;
mod visit;
mod visits;

pub use answers::answer;
pub use counted::{Counted, CountedCommand};
pub use replies::Replies;
pub use reply_kind::ReplyKind;
pub use visits::Visits;
