//! The length of a sector, and the first byte of an open gate.

/// The length of a sector in bytes.
pub const SECTOR: usize = 512;
/// The first byte of an open gate. A gate with another first byte is closed.
pub const OPEN: u8 = 0xa7;
