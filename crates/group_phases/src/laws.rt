//! The laws of this crate. Each is the contract of a function that does nothing.

pub(crate) mod checkpointer;
pub(crate) mod flusher;
pub(crate) mod following;
pub(crate) mod held;
pub(crate) mod kept;
pub(crate) mod range;
pub(crate) mod standing;
