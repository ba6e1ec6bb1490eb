//! What exists in proofs alone.

pub(crate) mod note;
