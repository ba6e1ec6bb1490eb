//! The numbers of records: of commands, and of the pieces in which those of rows are handled.

use byte_lists::SECTOR;

/// The bytes of a piece of the records of rows: 256 sectors of 512 bytes. A checkpoint is made,
/// written and read in pieces.
pub const PIECE: usize = 256 * SECTOR;

/// The kind of a record that registers segments.
pub(crate) const REGISTER_KIND: u8 = 1;
/// The kind of a record that purges.
pub(crate) const PURGE_KIND: u8 = 2;
/// The kind of a record that removes.
pub(crate) const REMOVE_KIND: u8 = 3;
/// The bytes before the rows of a registration's record, and before the id of a removal's.
pub(crate) const COMMAND_HEAD: usize = 2;
/// The bytes of a purge's record.
pub(crate) const PURGE_RECORD: usize = 9;
