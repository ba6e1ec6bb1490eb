//! Groups of commands after gates, and seals: the parts of a store's journal, written and scanned.
//!
//! To the layers above: what is written is the one payload of a group or a seal, and what is read
//! of a journal is exactly what the scan of `store_layout` gives for the bytes, with the commands
//! of `path_records`.
#![tactic(auto)]

mod encoding;
mod error;
mod format;
mod header;
mod laws;
mod records;
mod scanner;
mod whole;

pub use encoding::{can_be_group, encode_group, encode_seal, fits, payload_sectors, record_len};
pub use error::JournalError;
pub use format::{COUNT_AT, GROUP, HEADER, MOST_RECORD_BYTES, PLACE_AT, SEAL, SIZE_AT};
pub use laws::command::commands_are_allowed;
pub use scanner::{Piece, Progress, Scan, Scanner, Stage};
pub use whole::scan;
