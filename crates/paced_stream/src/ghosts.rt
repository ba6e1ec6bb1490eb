//! What exists in proofs alone.

pub(crate) mod bytes_note;
