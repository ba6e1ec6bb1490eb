//! A message's fields, by their numbers.

ghost use Rattle.std.specs.Prelude.{◌≡◌, ℕ, ◌<◌, ◌≤◌, [], ◌∷◌, ◌++◌, List, length, None, Ok, IfOk, is_some};
ghost use Rattle.std.specs.Option.{option_map, ForSome};
ghost use Rattle.pw_wire.specs.Field.{FieldView};
ghost use Rattle.pw_wire.specs.Fields.{fields};
ghost use Rattle.pw_wire.specs.View.{field_view, value_view};
ghost use Rattle.seg_core.specs.Steps.{ReadsFields};
ghost use Rattle.seg_core.specs.Message.{last_bytes_field, bytes_field_or_empty, is_single, field_kind, message_fields, misfit_at, number_field, required_message, suits};
ghost use Rattle.seg_core.specs.declared.field_kind.FieldKind.{FieldKind};
ghost use Rattle.seg_core.specs.declared.field_kind.FieldKind.TheVariants.{Number, Messages};
ghost use Rattle.seg_core.specs.Slots.{AreNoted, IsMidway, TakesBytes};

use crate::bytes_fields::BytesFields;
use crate::error::SegError;
use crate::field_kind::{FieldKind, WIDTH};
use pw_wire::{Field, Value, first_bytes, first_number, next_field};

/// The last number and the last bytes under each field number that a message may know.
#[derive(Clone, Copy)]
pub(crate) struct Noted<'a> {
    pub numbers: [u64; WIDTH],
    pub bytes: [Option<&'a [u8]>; WIDTH],
}

impl<'a> Noted<'a> {
    fn new() -> Self
        ensures { AreNoted [] result.numbers result.bytes }
    {
        Noted {
            numbers: [0; WIDTH],
            bytes: [None; WIDTH],
        }
    }

    /// Notes the next field.
    #[inline(always)]
    fn note(&mut self, field: &Field<'a>)
        ensures { (before : List FieldView) → AreNoted before self.old.numbers self.old.bytes
            → AreNoted (before ++ field_view field.now ∷ []) self.new.numbers self.new.bytes }
    {
        let field_number = field.number as usize;
        if field_number >= WIDTH {
            return;
        }
        match field.value {
            Value::Varint(n) => self.numbers[field_number] = n,
            Value::Bytes(bytes) => self.bytes[field_number] = Some(bytes),
            Value::Fixed64(_) | Value::Fixed32(_) => {}
        }
    }

    /// Whether the message has bytes under a field number.
    #[inline(always)]
    fn has_bytes(&self, field_number: u32) -> bool
        requires { field_number < 7 }
        ensures { (before : List FieldView) → AreNoted before self.now.numbers self.now.bytes
            → result ≡ is_some (last_bytes_field field_number before) }
    {
        self.bytes[field_number as usize].is_some()
    }
}

/// The kind of the fields with this number.
#[inline(always)]
fn kind_at(shape: &[FieldKind], field_number: u32) -> FieldKind
    ensures { result ≡ field_kind shape.now field_number }
{
    shape
        .get(field_number as usize)
        .copied()
        .unwrap_or(FieldKind::Unknown)
}

/// Whether a value has the wire type of its kind.
fn suits(kind: FieldKind, value: &Value<'_>) -> bool
    ensures { result ≡ suits kind (value_view value.now) }
{
    match kind {
        FieldKind::Unknown => true,
        FieldKind::Number => matches!(value, Value::Varint(_)),
        FieldKind::Bytes | FieldKind::Message | FieldKind::Messages => {
            matches!(value, Value::Bytes(_))
        }
    }
}

/// Whether a field of this kind may occur at most once.
fn is_single(kind: FieldKind) -> bool
    ensures { result ≡ is_single kind }
{
    matches!(kind, FieldKind::Message)
}

/// What is wrong with a field after the fields that are noted.
#[inline(always)]
fn misfit_of(shape: &[FieldKind], noted: &Noted<'_>, field: &Field<'_>) -> Option<SegError>
    requires { length shape.now ≤ 7 }
    ensures { (before : List FieldView) → AreNoted before noted.now.numbers noted.now.bytes
        → result ≡ misfit_at shape.now before (field_view field.now) }
{
    let kind = kind_at(shape, field.number);
    if !suits(kind, &field.value) {
        return Some(SegError::KindOfField);
    }
    if is_single(kind) && noted.has_bytes(field.number) {
        return Some(SegError::RepeatedMessage);
    }
    None
}

/// A message that has passed the checks that all messages share, and the values under its field
/// numbers.
#[derive(Clone, Copy)]
pub struct Slots<'a> {
    /// The message's bytes.
    pub message: &'a [u8],
    noted: Noted<'a>,
    ghost all_noted: { AreNoted (fields message.now) noted.numbers noted.bytes },
}

/// Reads the fields of a message in any order.
#[inline(never)]
#[tactic(auto, unfolding(crate::specs::Message::message_fields))]
fn slots_in_any_order<'a>(shape: &[FieldKind], message: &'a [u8]) -> Result<Slots<'a>, SegError>
    requires { length shape.now ≤ 7 }
    ensures exact { ReadsFields (λ slots. fields slots.message.now) result (message_fields shape.now message.entry.now) }
    ensures kept { IfOk result (λ slots. slots.message ≡ message.entry) }
{
    let mut noted = Noted::new();
    let mut misfit = None;
    let mut rest = message;
    while let Some((field, used)) = next_field(rest)? {
        misfit = misfit.or(misfit_of(shape, &noted, &field));
        noted.note(&field);
        rest = rest.split_at(used).1;
    }
    match misfit {
        Some(refusal) => Err(refusal),
        None => Ok(Slots { message, noted }),
    }
}

/// Notes the number under this field number that the bytes begin with, and returns the bytes after
/// it; all bytes where there is none.
#[inline(always)]
fn take_number<'a>(field_number: u8, noted: &mut Noted<'a>, rest: &'a [u8]) -> &'a [u8]
    requires positive { 1 ≤ field_number }
    requires known { field_number < 7 }
    ensures { (shape : List FieldKind) (message : List ℕ) → field_kind shape field_number ≡ Number
        → IsMidway shape message rest.entry.now None noted.old.numbers noted.old.bytes
        → IsMidway shape message result.now None noted.new.numbers noted.new.bytes }
{
    match first_number(field_number, rest) {
        None => rest,
        Some((n, used)) => {
            noted.numbers[usize::from(field_number)] = n;
            rest.split_at(used).1
        }
    }
}

/// Notes the bytes under this field number that come next, where they fit, and returns the rest.
#[inline(always)]
fn take_bytes<'a>(field_number: u8, noted: &mut Noted<'a>, rest: &'a [u8]) -> &'a [u8]
    requires positive { 1 ≤ field_number }
    requires known { field_number < 7 }
    ensures midway { (shape : List FieldKind) (message : List ℕ) → TakesBytes shape field_number noted.old.numbers noted.old.bytes
        → IsMidway shape message rest.entry.now None noted.old.numbers noted.old.bytes
        → IsMidway shape message result.now None noted.new.numbers noted.new.bytes }
    ensures shorter { length result.now ≤ length rest.entry.now }
{
    match first_bytes(field_number, rest) {
        None => rest,
        Some((bytes, used)) => {
            noted.bytes[usize::from(field_number)] = Some(bytes);
            rest.split_at(used).1
        }
    }
}

/// Notes the messages under this field number that come next, of which there may be any number, and
/// returns the rest.
#[inline(always)]
fn take_messages<'a>(field_number: u8, noted: &mut Noted<'a>, rest: &'a [u8]) -> &'a [u8]
    requires positive { 1 ≤ field_number }
    requires known { field_number < 7 }
    ensures { (shape : List FieldKind) (message : List ℕ) → field_kind shape field_number ≡ Messages
        → IsMidway shape message rest.entry.now None noted.old.numbers noted.old.bytes
        → IsMidway shape message result.now None noted.new.numbers noted.new.bytes }
{
    let mut left = rest;
    loop {
        let most = left.len();
        left = take_bytes(field_number, noted, left);
        if left.len() == most {
            return left;
        }
    }
}

/// Notes what comes next under a field number, where it fits, and returns the rest.
#[inline(always)]
fn take_under<'a>(
    shape: &[FieldKind],
    field_number: u8,
    noted: &mut Noted<'a>,
    rest: &'a [u8],
) -> &'a [u8]
    requires positive { 1 ≤ field_number }
    requires known { field_number < 7 }
    ensures { (message : List ℕ) → IsMidway shape.now message rest.entry.now None noted.old.numbers noted.old.bytes
        → IsMidway shape.now message result.now None noted.new.numbers noted.new.bytes }
{
    match kind_at(shape, u32::from(field_number)) {
        FieldKind::Unknown => rest,
        FieldKind::Number => take_number(field_number, noted, rest),
        FieldKind::Bytes => take_bytes(field_number, noted, rest),
        FieldKind::Message => {
            if noted.has_bytes(u32::from(field_number)) {
                return rest;
            }
            take_bytes(field_number, noted, rest)
        }
        FieldKind::Messages => take_messages(field_number, noted, rest),
    }
}

/// The fields of a message whose tags take one byte, which fit, and which come in the order of
/// their numbers, as an encoder writes them. `None` means that the message has to be read in
/// another way.
#[inline]
fn slots_in_order<'a, const SHAPE: u8>(shape: &[FieldKind], message: &'a [u8]) -> Option<Slots<'a>>
    requires { length shape.now ≤ 7 }
    ensures exact { ForSome result (λ slots. message_fields shape.now message.entry.now ≡ Ok (fields slots.message.now)) }
    ensures kept { ForSome result (λ slots. slots.message ≡ message.entry) }
{
    let mut noted = Noted::new();
    let rest = take_under(shape, 1, &mut noted, message);
    let rest = take_under(shape, 2, &mut noted, rest);
    let rest = take_under(shape, 3, &mut noted, rest);
    let rest = take_under(shape, 4, &mut noted, rest);
    let rest = take_under(shape, 5, &mut noted, rest);
    let rest = take_under(shape, 6, &mut noted, rest);
    if rest.is_empty() {
        return Some(Slots { message, noted });
    }
    None
}

/// The result of the scan is returned by this function, so that a message in order reserves no
/// memory for it.
#[inline(always)]
fn slots_by_scan<'a>(shape: &[FieldKind], message: &'a [u8]) -> Result<Slots<'a>, SegError>
    requires { length shape.now ≤ 7 }
    ensures exact { ReadsFields (λ slots. fields slots.message.now) result (message_fields shape.now message.entry.now) }
    ensures kept { IfOk result (λ slots. slots.message ≡ message.entry) }
{
    match slots_in_any_order(shape, message) {
        Ok(slots) => Ok(slots),
        Err(refusal) => Err(refusal),
    }
}

/// Reads the fields of a message: first its wire format, to its last byte, then kinds and
/// repetitions, in the order of the fields. An error is the first refusal: `Wire`, or else
/// `KindOfField` or `RepeatedMessage`. `SHAPE` differs from shape to shape, so that the compiler
/// generates code for the order of each shape's field numbers.
#[inline(always)]
pub fn slots_of<'a, const SHAPE: u8>(
    shape: &[FieldKind],
    message: &'a [u8],
) -> Result<Slots<'a>, SegError>
    requires { length shape.now ≤ 7 }
    ensures exact { ReadsFields (λ slots. fields slots.message.now) result (message_fields shape.now message.entry.now) }
    ensures kept { IfOk result (λ slots. slots.message ≡ message.entry) }
{
    match slots_in_order::<SHAPE>(shape, message) {
        Some(slots) => Ok(slots),
        None => slots_by_scan(shape, message),
    }
}

impl<'a> Slots<'a> {
    /// The last number under a field number, and 0 where there is none.
    pub fn number_field(&self, field_number: usize) -> u64
        requires { field_number < 7 }
        ensures { result ≡ number_field field_number (fields self.now.message.now) }
    {
        self.noted.numbers[field_number]
    }

    /// The last bytes under a field number.
    pub fn bytes_field(&self, field_number: usize) -> Option<&'a [u8]>
        requires { field_number < 7 }
        ensures { option_map (λ s. s.now) result ≡ last_bytes_field field_number (fields self.now.message.now) }
    {
        self.noted.bytes[field_number]
    }

    /// The last bytes under a field number, and empty bytes where there are none.
    pub fn bytes_field_or_empty(&self, field_number: usize) -> &'a [u8]
        requires { field_number < 7 }
        ensures { result.now ≡ bytes_field_or_empty field_number (fields self.now.message.now) }
    {
        self.bytes_field(field_number).unwrap_or(&[])
    }

    /// The message under a field number. An error means that the message is missing.
    pub fn required_message(&self, field_number: usize) -> Result<&'a [u8], SegError>
        requires { field_number < 7 }
        ensures { ReadsFields (λ s. s.now) result (required_message field_number (fields self.now.message.now)) }
    {
        self.bytes_field(field_number).ok_or(SegError::MissingField)
    }

    /// All byte strings under a field number.
    pub fn bytes_fields(&self, field_number: u32) -> BytesFields<'a>
        ensures number { result.field_number ≡ field_number }
        ensures whole { result.rest.now ≡ self.now.message.now }
    {
        BytesFields {
            field_number,
            rest: self.message,
        }
    }
}
