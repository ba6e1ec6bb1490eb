//! Tests of one number or condition, each with its refusal.

ghost use Rattle.std.specs.Prelude.{◌-◌, ◌^◌};
ghost use Rattle.seg_core.specs.Steps.{ReadsFields, at_most, must_hold};

use crate::error::SegError;

/// The number, where it has at most 8 bits.
pub(crate) fn u8_of(n: u64) -> Result<u8, SegError>
    ensures { ReadsFields (λ n. n) result (at_most (2 ^ 8 - 1) n) }
{
    if n > 0xff {
        return Err(SegError::Range);
    }
    Ok(n as u8)
}

/// The number, where it has at most 16 bits.
pub(crate) fn u16_of(n: u64) -> Result<u16, SegError>
    ensures { ReadsFields (λ n. n) result (at_most (2 ^ 16 - 1) n) }
{
    if n > 0xffff {
        return Err(SegError::Range);
    }
    Ok(n as u16)
}

/// The number, where it has at most 32 bits.
pub(crate) fn u32_of(n: u64) -> Result<u32, SegError>
    ensures { ReadsFields (λ n. n) result (at_most (2 ^ 32 - 1) n) }
{
    if n > 0xffff_ffff {
        return Err(SegError::Range);
    }
    Ok(n as u32)
}

/// An error with this reason, unless the condition holds.
pub(crate) fn check(holds: bool, reason: SegError) -> Result<(), SegError>
    ensures { ReadsFields (λ u. u) result (must_hold holds reason) }
{
    if holds { Ok(()) } else { Err(reason) }
}
