//! Tests of `store_open`, a module for each subject. They see what no clause says: the bytes of a
//! new store, what images that were worked out by hand open to, what is answered where a call of
//! the device fails or memory is refused, and that calls succeed.

mod answers;
mod changed_bytes;
mod checkpoints;
mod copies;
mod formatting;
mod hostile;
mod pieces;
mod recovery;
mod refused;
mod stopped;
mod stores;
