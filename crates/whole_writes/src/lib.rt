//! Writing the whole of some bytes to a writer that may take them in pieces.
//!
//! `write_all` appends all of the bytes, or returns an error after a front of them was written. No
//! write is repeated: std's own `write_all` repeats a write that a signal interrupted, so that the
//! number of calls to the writer is not known.
#![tactic(auto)]

mod writing;

pub use writing::{WriteFailed, write_all};
