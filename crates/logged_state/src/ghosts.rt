//! What exists in proofs alone.

pub(crate) mod fronts;
pub(crate) mod name;
