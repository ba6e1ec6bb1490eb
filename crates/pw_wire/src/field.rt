/// A field of a message: its number, from 1 to 2^29 - 1, and its value. The wire format does not
/// contain the type that the message's description gives the field.
#[derive(Clone, Copy, Debug, PartialEq)]
pub struct Field<'a> {
    pub number: u32,
    pub value: Value<'a>,
}

/// The value of a field, by its wire type.
#[derive(Clone, Copy, Debug, PartialEq)]
pub enum Value<'a> {
    /// Wire type 0: an integer, a `bool` or an enum.
    Varint(u64),
    /// Wire type 1: eight bytes, the lowest first.
    Fixed64(u64),
    /// Wire type 2: a string, bytes, a message or packed numbers.
    Bytes(&'a [u8]),
    /// Wire type 5: four bytes, the lowest first.
    Fixed32(u32),
}
