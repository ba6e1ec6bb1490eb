//! Files and block devices as the devices of a store, each opened under the system's lock on it.
//!
//! To the layer above, `open` and `create` open a file for one process alone, and `open_to_read`
//! opens it beside others that only read. A `LockedFile` is what `create` makes its file of, so
//! that a caller may look at what is there first. A lock lasts as long as its `SystemFile`. Where
//! another process holds a lock that excludes this one, the file is not read, written or cut. No
//! clause states what the system does. It is proved that a `SystemFile` has no failures yet.
#![tactic(auto)]

mod creating;
mod holder;
mod locked;
mod opening;

pub use creating::{Room, create};
pub use holder::holder_of;
pub use locked::LockedFile;
pub use opening::{open, open_to_read};
