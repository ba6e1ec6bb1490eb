ghost use Rattle.std.specs.Prelude.{◌≡◌, ◌+◌, ◌<◌, ◌≤◌, ◌^◌, ◌++◌, OnOk, OnErr, vec_len, vec_capacity};
ghost use Rattle.pw_wire.specs.Varint.{varint_encoding};
ghost use Rattle.pw_wire.specs.Field.{varint_field_encoding, bytes_field_encoding};

use std::alloc::AllocError;

/// The most bytes of a varint.
const VARINT_ROOM: usize = 10;

/// Appends the shortest varint of a number, without a tag. Where memory is refused, the vector
/// keeps its items.
pub fn put_varint(out: &mut Vec<u8>, n: u64) -> Result<(), AllocError>
    ensures ok { OnOk result (out.new.items ≡ out.old.items ++ varint_encoding n) }
    ensures err { OnErr result (out.new.items ≡ out.old.items) }
{
    out.reserve(VARINT_ROOM)?;
    push_varint(out, n);
    Ok(())
}

/// Appends a field of wire type 0, in its shortest encoding. Where memory is refused, the vector
/// keeps its items.
#[tactic(auto, unfolding(crate::specs::Field::varint_field_encoding))]
pub fn put_varint_field(out: &mut Vec<u8>, field_number: u32, n: u64) -> Result<(), AllocError>
    requires positive { 1 ≤ field_number }
    requires below { field_number < 2 ^ 29 }
    ensures ok { OnOk result (out.new.items ≡ out.old.items ++ varint_field_encoding field_number n) }
    ensures err { OnErr result (out.new.items ≡ out.old.items) }
{
    out.reserve(2 * VARINT_ROOM)?;
    push_varint(out, u64::from(field_number) * 8);
    push_varint(out, n);
    Ok(())
}

/// Appends a field of wire type 2, as of bytes, a string or a message, in its shortest encoding.
/// Where memory is refused, the vector keeps its items.
#[tactic(auto, unfolding(crate::specs::Field::bytes_field_encoding))]
pub fn put_bytes_field(out: &mut Vec<u8>, field_number: u32, bytes: &[u8]) -> Result<(), AllocError>
    requires positive { 1 ≤ field_number }
    requires below { field_number < 2 ^ 29 }
    ensures ok { OnOk result (out.new.items ≡ out.old.items ++ bytes_field_encoding field_number bytes.now) }
    ensures err { OnErr result (out.new.items ≡ out.old.items) }
{
    let room = bytes.len().checked_add(2 * VARINT_ROOM).ok_or(AllocError)?;
    out.reserve(room)?;
    push_varint(out, u64::from(field_number) * 8 + 2);
    push_varint(out, bytes.len() as u64);
    out.extend_from_slice(bytes)
}

/// Appends the shortest varint where there is room for ten bytes.
fn push_varint(out: &mut Vec<u8>, n: u64)
    requires { vec_len out.old + VARINT_ROOM ≤ vec_capacity out.old }
    ensures items { out.new.items ≡ out.old.items ++ varint_encoding n }
    ensures len { vec_len out.new ≤ vec_len out.old + VARINT_ROOM }
    ensures capacity { vec_capacity out.old ≤ vec_capacity out.new }
{
    let mut rest = n;
    for _ in 0..9u32 {
        if rest < 128 {
            break;
        }
        out.push((rest % 128 + 128) as u8).unwrap();
        rest /= 128;
    }
    out.push(rest as u8).unwrap();
}
