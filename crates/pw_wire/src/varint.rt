//! Varints: seven bits a byte, the lowest first.

ghost use Rattle.std.specs.Prelude.{◌≡◌, ◌≤◌, length, IfOk};
ghost use Rattle.pw_wire.specs.Varint.{varint_at};

use crate::error::WireError;

/// The number of the varint at the front of the bytes, and how many bytes the varint takes.
#[inline(always)]
#[tactic(auto, unfolding(crate::specs::Varint::varint_within))]
pub(crate) fn read_varint(bytes: &[u8]) -> Result<(u64, usize), WireError>
    ensures exact { result ≡ varint_at bytes.now }
    ensures within { IfOk result (λ found. found.1 ≤ length bytes.now) }
{
    match bytes {
        [] => Err(WireError::Truncated),
        [b, ..] if *b < 128 => Ok((u64::from(*b), 1)),
        [b, c, ..] if *c < 128 => Ok((u64::from(*b) - 128 + 128 * u64::from(*c), 2)),
        _ => read_longer_varint(bytes),
    }
}

/// A varint of more than two bytes. The result goes through this function, so that a shorter varint
/// reserves no memory for it.
#[inline(always)]
fn read_longer_varint(bytes: &[u8]) -> Result<(u64, usize), WireError>
    ensures exact { result ≡ varint_at bytes.now }
    ensures within { IfOk result (λ found. found.1 ≤ length bytes.now) }
{
    match long_varint(bytes) {
        Ok((n, used)) => Ok((n, used)),
        Err(e) => Err(e),
    }
}

#[inline(never)]
fn long_varint(bytes: &[u8]) -> Result<(u64, usize), WireError>
    ensures exact { result ≡ varint_at bytes.now }
    ensures within { IfOk result (λ found. found.1 ≤ length bytes.now) }
{
    let mut low: u64 = 0;
    let mut shift: u32 = 0;
    for i in 0..9 {
        if i >= bytes.len() {
            return Err(WireError::Truncated);
        }
        let byte = u64::from(bytes[i]);
        if byte < 128 {
            return Ok((low + (byte << shift), i + 1));
        }
        low += (byte - 128) << shift;
        shift += 7;
    }
    if bytes.len() <= 9 {
        return Err(WireError::Truncated);
    }
    let last = u64::from(bytes[9]);
    if last < 2 {
        Ok((low + (last << shift), 10))
    } else {
        Err(WireError::LongVarint)
    }
}
