//! Fields of the protobuf wire format (<https://protobuf.dev/programming-guides/encoding/>):
//! reading the first field of some bytes, and appending a field to a `Vec`. Reading takes no memory
//! and one pass.
//!
//! `next_field` finds exactly the field that the bytes begin with, or the first check that fails
//! there. Its contract relates the result to `fields` and `fault`, which describe the whole
//! message. The `put_` calls append the shortest encoding of a field, which is read back as that
//! field, whatever follows it.
#![tactic(auto)]

mod error;
mod field;
mod laws;
mod reading;
mod varint;
mod writing;

pub use error::WireError;
pub use field::{Field, Value};
pub use laws::{all_fields, encoded_fields, encoded_varint, field_or_fault};
pub use reading::{first_bytes, first_number, next_field};
pub use writing::{put_bytes_field, put_varint, put_varint_field};
