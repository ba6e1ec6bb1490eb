//! The numbers of a group's format.

/// The kind of a group's header.
pub const GROUP: u8 = 1;
/// The kind of a seal's header.
pub const SEAL: u8 = 2;
/// The bytes of a header: the kind, the number of commands, two zeros, the length of the records
/// and the place.
pub const HEADER: usize = 16;
/// The offset of the number of commands in a header, a byte.
pub const COUNT_AT: usize = 1;
/// The offset of the length of the records in a header, four bytes.
pub const SIZE_AT: usize = 4;
/// The offset of the place in a header, eight bytes.
pub const PLACE_AT: usize = 8;
/// The bytes of the length before each command's own record.
pub(crate) const PREFIX: usize = 4;
/// The most bytes that the records of a group have together.
pub const MOST_RECORD_BYTES: usize = 262_144;
