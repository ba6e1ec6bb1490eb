//! What the services of a session share: the refusals of a message, and the code of each refusal
//! in a reply.
//!
//! To the layer above, `Refusal::code` is the code in a reply.
#![tactic(auto)]

mod codes;
mod refusal;

pub use refusal::Refusal;
