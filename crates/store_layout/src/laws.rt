//! The laws of this crate. Each is the contract of a function that does nothing.

pub(crate) mod checkpoint;
pub(crate) mod growth;
pub(crate) mod journal;
pub(crate) mod opening;
