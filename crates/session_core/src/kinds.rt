//! The kinds of frames: the byte after the length.

/// The kind of a registration.
pub const REGISTER: u8 = 1;
/// The kind of a lookup.
pub const LOOKUP: u8 = 2;
/// The kind of a purge.
pub const PURGE: u8 = 3;
/// The kind of a removal.
pub const REMOVE: u8 = 4;
/// The kind of a list, which sessions have where `Kinds` says so.
pub const LIST: u8 = 5;

/// The kind of a reply to a registration.
pub const REGISTERED: u8 = 0x81;
/// The kind of a reply to a lookup.
pub const FOUND: u8 = 0x82;
/// The kind of a reply to a purge.
pub const PURGED: u8 = 0x83;
/// The kind of a reply to a removal.
pub const REMOVED: u8 = 0x84;
/// The kind of a reply to a list.
pub const LISTED: u8 = 0x85;
/// The kind of a refusal.
pub const REFUSED: u8 = 0xff;
