//! The limits of segments and of registrations.

/// The most bytes of a segment's encoding.
pub const MOST_SEGMENT_BYTES: usize = 16_384;
/// The most entries of a segment.
pub const MOST_ENTRIES: usize = 64;
/// The most bytes of a registration, and of the encodings of the segments that one command
/// registers.
pub const MOST_REGISTERED_BYTES: usize = 131_072;
/// The most segments of a registration.
pub const MOST_REGISTERED: usize = 16;
