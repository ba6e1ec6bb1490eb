//! The commands of the program over a device with a store: what each does and prints.
//!
//! To the layer above, `format` makes a store, and `ask` says before whether one that is there may
//! be lost. `copy` makes a store with the rows and the place of another, and `vacant` says before
//! whether none is there. `show` prints the rows that a device opens to, and as text their place.
//! `upgrade` has the store in the version that is written. `show_layout` and `status` change
//! nothing: the one draws what is on a device, and the other prints the numbers of what the device
//! opens with.
#![tactic(auto)]

mod asking;
mod copying;
mod drawing;
mod error;
mod formatting;
mod halves;
mod layout;
mod reporting;
mod showing;
mod sizes;
mod text;
mod upgrading;
mod walking;
mod writing;

pub use asking::{Consent, Wishes, ask, decide, vacant};
pub use copying::copy;
pub use error::Fault;
pub use formatting::format;
pub use layout::show_layout;
pub use reporting::status;
pub use showing::show;
pub use sizes::sizes_for;
pub use upgrading::upgrade;
