//! A segment that was worked through by hand.

pub(crate) use test_support::SEGMENT;

/// The bytes before that segment where it is registered as a down segment.
pub(crate) const DOWN: [u8; 8] = [0x0a, 0x5e, 0x08, 0x02, 0x12, 0x5a, 0x0a, 0x58];

/// The same for a core segment.
pub(crate) const CORE: [u8; 8] = [0x0a, 0x5e, 0x08, 0x03, 0x12, 0x5a, 0x0a, 0x58];
