//! How many bytes frames have.

use seg_core::MOST_REGISTERED_BYTES;

/// The number of bytes of a frame's length.
pub const LENGTH_SIZE: usize = 4;
/// The number of bytes of a frame's kind.
const KIND_SIZE: usize = 1;

/// The greatest length of a message's frame: its kind, and the most bytes of a registration.
pub const MOST_LENGTH: usize = KIND_SIZE + MOST_REGISTERED_BYTES;
/// The length of a purge's frame: its kind and the eight bytes of a moment.
pub(crate) const PURGE_LENGTH: usize = KIND_SIZE + 8;
/// The length of a removal's frame: its kind, a type of one byte and an id of 32.
pub(crate) const REMOVE_LENGTH: usize = KIND_SIZE + 1 + 32;
/// The length of the frame of a list without an id: its kind, a type of one byte, and two sides of
/// eight.
pub(crate) const LIST_LENGTH: usize = KIND_SIZE + 1 + 2 * 8;
/// The length of the frame of a list with an id of 32 bytes after them.
pub(crate) const LIST_AFTER_LENGTH: usize = LIST_LENGTH + 32;

/// The length of a refusal's frame: its kind, and the code.
pub(crate) const REFUSAL_LENGTH: usize = KIND_SIZE + 1;
/// The number of bytes of a refusal's frame: its length, and what the length counts.
pub(crate) const REFUSAL_FRAME: usize = LENGTH_SIZE + REFUSAL_LENGTH;

/// The greatest length of a reply's frame: its kind, and the bytes that belong to it.
pub const MOST_REPLY: usize = 1_114_112;
/// The length of an acknowledgement's frame: its kind, the place (8) and four counts (4 each).
pub(crate) const ACK_LENGTH: usize = KIND_SIZE + 8 + 4 * 4;
/// The number of bytes of an acknowledgement's frame: its length, and what the length counts.
pub(crate) const ACK_FRAME: usize = LENGTH_SIZE + ACK_LENGTH;
