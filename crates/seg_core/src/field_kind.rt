//! The shape of a message is a list of the kinds of its fields by their numbers, from 0 on. No
//! field has the number 0, and every number past the list's end is unknown.

/// The kind of the value under a field number of a message.
#[derive(Clone, Copy)]
pub enum FieldKind {
    /// The message has no such field. A field of this number is ignored.
    Unknown,
    /// An integer: the last occurrence is the value, and 0 where there is none.
    Number,
    /// Bytes: the last occurrence is the value, and empty bytes where there is none.
    Bytes,
    /// A message that may occur once.
    Message,
    /// A message that may occur any number of times.
    Messages,
}

/// One more than the largest field number that a message knows.
pub(crate) const WIDTH: usize = 7;
