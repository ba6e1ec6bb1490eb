//! Values that only contracts name.
//!
//! To the layer above, a `Note` has a value that its contract takes from a source. It takes no
//! memory, and no code reads it.
#![tactic(auto)]

mod note;

pub use note::{Note, NoteSource};
