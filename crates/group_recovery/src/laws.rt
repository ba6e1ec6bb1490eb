//! The laws of this crate. Each is the contract of a function that does nothing.

pub(crate) mod run;
