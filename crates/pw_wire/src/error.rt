use thiserror::Error;

/// The first check of a field that fails. The checks come in the order of the field's bytes: the
/// tag's varint, its number, its wire type, the value.
#[derive(Clone, Copy, Debug, PartialEq, Eq, Error)]
pub enum WireError {
    /// The bytes end within a varint or a value.
    #[error("a field passes the end")]
    Truncated = 1,
    /// A varint's tenth byte is above 1, so that its number has more than 64 bits or its bytes
    /// continue.
    #[error("a varint has more than 64 bits")]
    LongVarint = 2,
    /// The tag is above 2^32 - 1, or its field number is 0.
    #[error("a field number is out of range")]
    BadField = 3,
    /// Wire types 3 and 4, the groups of old messages.
    #[error("a field is a group")]
    GroupWire = 4,
    /// Wire types 6 and 7, which the format does not have.
    #[error("a wire type is unknown")]
    BadWire = 5,
}
