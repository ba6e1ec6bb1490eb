//! A session that was worked through by hand: it registers a segment, and looks that segment up.

pub(crate) use test_support::{LOOKUP, REGISTER};

/// Both frames, one after the other.
pub(crate) fn stream() -> [u8; 122] {
    let mut bytes = [0; 122];
    bytes[..101].copy_from_slice(&REGISTER);
    bytes[101..].copy_from_slice(&LOOKUP);
    bytes
}
