//! Stores on devices: how one is made, and what is read of it.
//!
//! To the layer above: after `format` every image of the device is a new store. `read_geometry`
//! returns the sizes of a store exactly where an image is one. `open` returns what the image opens
//! with, and at every moment leaves the image unchanged, or an image that opens with the same.
//! `look` returns what the image opens with, and leaves the device unchanged. `lay`,
//! `write_through` and `title_sector` are the steps of which a store with given rows is made.
#![tactic(auto)]

mod checkpoint;
mod closing;
mod copying;
mod error;
mod first_sector;
mod folded;
mod heads;
mod laws;
mod laying;
mod new_store;
mod open_store;
mod opening;
mod rows;
mod scanning;
mod store;
mod taking_over;

pub use copying::{CopyError, format_with};
pub use error::{OpenError, SealedError, StoreError};
pub use first_sector::{has_title, read_geometry, titled_sizes};
pub use folded::{Folded, look};
pub use laws::closing::openings_are_kept_by_closing;
pub use laws::new_store::new_stores_are_formatted;
pub use new_store::{FormatError, format};
pub use open_store::{open, open_in_threads};
pub use scanning::{read_piece, read_sector, scan_journal};
pub use store::Store;
pub use store_layout::Geometry;
