//! A store on a device in memory, for one caller: each command is committed before the next one is
//! taken.
//!
//! To the layer above, the store is rows and a place, which each command that is taken changes. Its
//! contracts name nothing of the device, its journals and its checkpoints.
#![tactic(auto)]

mod committing;
mod ending;
mod error;
mod flushing;
mod folding;
mod memory_state;
mod once_store;
mod settling;
mod starting;

pub use error::{TakeError, Taken};
pub use once_store::OnceStore;
