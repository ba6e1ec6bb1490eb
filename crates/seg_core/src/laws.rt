//! The laws of this crate. Each is the contract of a function that does nothing.

pub(crate) mod decoding;
pub(crate) mod fields;
pub(crate) mod messages;
