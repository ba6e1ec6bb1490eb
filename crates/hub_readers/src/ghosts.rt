//! What exists in proofs alone.

pub(crate) mod name;
pub(crate) mod rule;
