//! The byte strings under one field number of a message, one after the other.

ghost use Rattle.std.specs.Prelude.{◌≡◌, length};
ghost use Rattle.std.specs.Iterator.{YieldsFirstRef, at_most};
ghost use Rattle.pw_wire.specs.Fields.{fields};
ghost use Rattle.seg_core.specs.Message.{bytes_fields};

use pw_wire::{Value, first_bytes, next_field};

/// The rest of a message, and the field number whose byte strings are returned, in the order of the
/// message. A fault of the wire format ends them.
#[derive(Clone, Copy)]
pub struct BytesFields<'a> {
    /// The field number.
    pub field_number: u32,
    /// The bytes that are not read yet.
    pub rest: &'a [u8],
}

impl<'a> Iterator for BytesFields<'a> {
    type Item = &'a [u8];

    ghost next_gives = { YieldsFirstRef (λ s. bytes_fields s.field_number (fields s.rest.now)) };

    ghost remaining = { λ s. at_most (length s.rest.now) };

    #[inline(always)]
    fn next(&mut self) -> Option<&'a [u8]> {
        if (1..16).contains(&self.field_number)
            && let Some((bytes, used)) = first_bytes(self.field_number as u8, self.rest)
        {
            self.rest = self.rest.split_at(used).1;
            return Some(bytes);
        }
        while let Ok(Some((field, used))) = next_field(self.rest) {
            self.rest = self.rest.split_at(used).1;
            if field.number == self.field_number
                && let Value::Bytes(bytes) = field.value
            {
                return Some(bytes);
            }
        }
        None
    }
}
