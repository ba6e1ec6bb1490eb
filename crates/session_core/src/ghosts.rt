//! What exists in proofs alone.

pub(crate) mod telling_note;
