ghost use Rattle.std.specs.Prelude.{◌≡◌, ◌≢◌, ◌↔◌, ℕ, ◌+◌, ◌*◌, ◌<◌, ◌≤◌, List, [], ◌∷◌, length, Ok, Err, None, IfNone, IfOk};
ghost use Rattle.pw_wire.specs.Varint.{varint_at};
ghost use Rattle.std.specs.Option.{ForSome};
ghost use Rattle.pw_wire.specs.Field.{FieldValue, Bytes, IsField, IsFieldFault, varint_field, bytes_field, number_at, bytes_at, fixed64_at, fixed32_at, value_at, field_at};
ghost use Rattle.pw_wire.specs.View.{value_view, value_read, field_view, field_read, Finds, HasFirstField, Steps};

use crate::error::WireError;
use crate::field::{Field, Value};
use crate::varint::read_varint;

/// The first field of the bytes, and how many bytes the field takes: `None` where there are no
/// bytes, an error where the bytes begin with no field. The value borrows from the bytes.
#[inline(always)]
pub fn next_field(bytes: &[u8]) -> Result<Option<(Field<'_>, usize)>, WireError>
    ensures none { (result ≡ Ok None) ↔ (bytes.now ≡ []) }
    ensures field { (field_number : ℕ) (value : FieldValue) (len : ℕ)
        → (Finds result field_number value len) ↔ (IsField bytes.now field_number value len) }
    ensures fault { (e : WireError) → (result ≡ Err e) ↔ (IsFieldFault bytes.now e) }

    // What the result shows of the whole message.
    ensures steps { Steps bytes.now result }
{
    if let Some(found) = short_field(bytes) {
        return Ok(Some(found));
    }
    if bytes.is_empty() {
        return Ok(None);
    }
    Ok(Some(first_field(bytes)?))
}

/// The number under this field number, below 16, where the bytes begin with this field and its tag
/// takes one byte, and how many bytes the field takes. `None` in all other cases.
#[inline(always)]
pub fn first_number(field_number: u8, bytes: &[u8]) -> Option<(u64, usize)>
    requires positive { 1 ≤ field_number }
    requires below { field_number < 16 }
    ensures found { ForSome result (λ found. HasFirstField bytes.now (varint_field field_number found.0) found.1) }
    ensures none { IfNone result ((rest : List ℕ) (n len : ℕ) → bytes.now ≡ (field_number * 8) ∷ rest → varint_at rest ≢ Ok (n, len)) }
{
    number_under(field_number, bytes)
}

/// The byte string under this field number, below 16, where the bytes begin with this field and its
/// tag takes one byte, and how many bytes the field takes. `None` in all other cases.
#[inline(always)]
pub fn first_bytes(field_number: u8, bytes: &[u8]) -> Option<(&[u8], usize)>
    requires positive { 1 ≤ field_number }
    requires below { field_number < 16 }
    ensures found { ForSome result (λ found. HasFirstField bytes.now (bytes_field field_number found.0.now) found.1) }
    ensures none { IfNone result ((rest found : List ℕ) (len : ℕ) → bytes.now ≡ (field_number * 8 + 2) ∷ rest → bytes_at rest ≢ Ok (Bytes found, len)) }
{
    bytes_under(field_number, bytes)
}

#[inline(always)]
#[tactic(auto, unfolding(crate::specs::Field::field_at, crate::specs::Field::field_behind, crate::specs::Field::value_at, crate::specs::Field::number_at, crate::specs::Varint::varint_within))]
fn number_under(field_number: u8, bytes: &[u8]) -> Option<(u64, usize)>
    requires positive { 1 ≤ field_number }
    requires below { field_number < 16 }
    ensures found { ForSome result (λ found. field_at bytes.now ≡ Ok (varint_field field_number found.0, found.1)) }
    ensures none { IfNone result ((rest : List ℕ) (n len : ℕ) → bytes.now ≡ (field_number * 8) ∷ rest → varint_at rest ≢ Ok (n, len)) }
{
    match bytes {
        [tag, rest @ ..] if *tag == field_number * 8 => {
            let (n, used) = read_varint(rest).ok()?;
            Some((n, 1 + used))
        }
        _ => None,
    }
}

#[inline(always)]
#[tactic(auto, unfolding(crate::specs::Field::field_at, crate::specs::Field::field_behind, crate::specs::Field::value_at, crate::specs::Varint::varint_within))]
fn bytes_under(field_number: u8, bytes: &[u8]) -> Option<(&[u8], usize)>
    requires positive { 1 ≤ field_number }
    requires below { field_number < 16 }
    ensures found { ForSome result (λ found. field_at bytes.now ≡ Ok (bytes_field field_number found.0.now, found.1)) }
    ensures none { IfNone result ((rest found : List ℕ) (len : ℕ) → bytes.now ≡ (field_number * 8 + 2) ∷ rest → bytes_at rest ≢ Ok (Bytes found, len)) }
{
    match bytes {
        [tag, rest @ ..] if *tag == field_number * 8 + 2 => match bytes_field(rest) {
            Ok((Value::Bytes(found), len)) => Some((found, 1 + len)),
            _ => None,
        },
        _ => None,
    }
}

#[inline(always)]
#[tactic(auto, unfolding(crate::specs::Field::field_at, crate::specs::Field::field_behind, crate::specs::Varint::varint_within))]
fn short_field(bytes: &[u8]) -> Option<(Field<'_>, usize)>
    ensures { ForSome result (λ found. field_at bytes.now ≡ Ok (field_view found.0, found.1)) }
{
    match bytes {
        [tag, rest @ ..] if 8 <= *tag && *tag < 128 => {
            let (value, len) = short_value(*tag % 8, rest)?;
            let field = Field {
                number: u32::from(*tag / 8),
                value,
            };
            Some((field, 1 + len))
        }
        _ => None,
    }
}

#[inline(always)]
#[tactic(auto, unfolding(crate::specs::Field::value_at))]
fn short_value(kind: u8, bytes: &[u8]) -> Option<(Value<'_>, usize)>
    ensures exact { ForSome result (λ found. value_at kind bytes.now ≡ Ok (value_view found.0, found.1)) }
    ensures within { ForSome result (λ found. found.1 ≤ length bytes.now) }
{
    let found = match kind {
        0 => number(bytes),
        2 => bytes_field(bytes),
        _ => return None,
    };
    found.ok()
}

#[inline(never)]
#[tactic(auto, unfolding(crate::specs::Field::field_at, crate::specs::Field::field_behind))]
fn first_field(bytes: &[u8]) -> Result<(Field<'_>, usize), WireError>
    ensures exact { field_read result ≡ field_at bytes.now }
    ensures within { IfOk result (λ found. found.1 ≤ length bytes.now) }
{
    let (tag, used) = read_varint(bytes)?;
    if tag < 8 || tag > u64::from(u32::MAX) {
        return Err(WireError::BadField);
    }
    let (value, len) = value_behind(tag % 8, bytes.split_at(used).1)?;
    let field = Field {
        number: (tag / 8) as u32,
        value,
    };
    Ok((field, used + len))
}

#[inline(always)]
#[tactic(auto, unfolding(crate::specs::Field::value_at))]
fn value_behind(kind: u64, bytes: &[u8]) -> Result<(Value<'_>, usize), WireError>
    ensures exact { value_read result ≡ value_at kind bytes.now }
    ensures within { IfOk result (λ found. found.1 ≤ length bytes.now) }
{
    match kind {
        0 => number(bytes),
        1 => fixed64(bytes),
        2 => bytes_field(bytes),
        3 | 4 => Err(WireError::GroupWire),
        5 => fixed32(bytes),
        _ => Err(WireError::BadWire),
    }
}

#[inline(always)]
#[tactic(auto, unfolding(crate::specs::Field::number_at))]
fn number(bytes: &[u8]) -> Result<(Value<'_>, usize), WireError>
    ensures exact { value_read result ≡ number_at bytes.now }
    ensures within { IfOk result (λ found. found.1 ≤ length bytes.now) }
{
    let (n, used) = read_varint(bytes)?;
    Ok((Value::Varint(n), used))
}

#[inline(always)]
#[tactic(auto, unfolding(crate::specs::Field::bytes_at))]
fn bytes_field(bytes: &[u8]) -> Result<(Value<'_>, usize), WireError>
    ensures exact { value_read result ≡ bytes_at bytes.now }
    ensures within { IfOk result (λ found. found.1 ≤ length bytes.now) }
{
    let (len, used) = read_varint(bytes)?;
    let rest = bytes.split_at(used).1;
    if (rest.len() as u64) < len {
        return Err(WireError::Truncated);
    }
    let len = len as usize;
    Ok((Value::Bytes(rest.split_at(len).0), used + len))
}

fn fixed64(bytes: &[u8]) -> Result<(Value<'_>, usize), WireError>
    ensures exact { value_read result ≡ fixed64_at bytes.now }
    ensures within { IfOk result (λ found. found.1 ≤ length bytes.now) }
{
    if bytes.len() < 8 {
        return Err(WireError::Truncated);
    }
    let b = bytes.split_at(8).0;
    let n = u64::from_le_bytes([b[0], b[1], b[2], b[3], b[4], b[5], b[6], b[7]]);
    Ok((Value::Fixed64(n), 8))
}

fn fixed32(bytes: &[u8]) -> Result<(Value<'_>, usize), WireError>
    ensures exact { value_read result ≡ fixed32_at bytes.now }
    ensures within { IfOk result (λ found. found.1 ≤ length bytes.now) }
{
    if bytes.len() < 4 {
        return Err(WireError::Truncated);
    }
    let b = bytes.split_at(4).0;
    let n = u32::from_le_bytes([b[0], b[1], b[2], b[3]]);
    Ok((Value::Fixed32(n), 4))
}
