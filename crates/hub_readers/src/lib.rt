//! What a hub publishes, and readers of it that wait for nobody.
//!
//! The committed rows are there twice. A writer applies a group to the copy that no reader is in,
//! and shows it. A reader enters the shown copy by a seat of its own, without a lock.
//!
//! To the layer above: `open_readers` makes the showcase of a hub, which publishes groups, and its
//! readers: 64 to be handed out, and one that is the hub's own. `HubReader::lookup` and
//! `HubReader::page` answer from what is published, which is never older than what this reader was
//! shown or has learnt. `HubReader::last_look` gives a token of the commands that a reader was
//! shown. Who ends the showcase by `HubShow::close` hands in such tokens, and learns that each is
//! of a front of the commands that the showcase was given.
#![tactic(auto)]

mod entry;
mod error;
mod ghosts;
mod look;
mod note;
mod opening;
mod published;
mod reader;
mod show;

pub use error::ReaderError;
pub use ghosts::name::ReaderName;
pub use ghosts::rule::{ReaderRule, SeenGroups, SeesAll};
pub use look::{Look, Looks};
pub use note::{HubNote, HubReceipt};
pub use opening::{READERS, SEATS, open_readers};
pub use published::{Published, ShownCommand};
pub use reader::HubReader;
pub use show::HubShow;
