//! The heads of both halves, the half that is chosen, and the half that has the tail.

ghost use Rattle.std.specs.Prelude.{◌==◌, nat_lt, ◌≤◌, length};
ghost use Rattle.std.specs.Option.{is_some};
ghost use Rattle.store_layout.specs.OpeningReading.{choice, head_behind};
ghost use Rattle.ckpt_pair.specs.Refusals.{ReadsPair};
ghost use Rattle.ckpt_pair.specs.Heads.{head_seen, head_at, half_with_tail, GoesOnWhereTailStands, head_view};
ghost use Rattle.store_layout.specs.Layout.{other};
ghost use Rattle.byte_lists.specs.Sectors.{is_open_gate};
ghost use Rattle.store_layout.specs.CheckpointReading.{head_in};
ghost use Rattle.store_layout.specs.Limits.{latest};
ghost use Rattle.store_layout.specs.OpeningReading as laws;

use crate::error::PairError;
use crate::format::{CHECKPOINT_MAGIC, EPOCH_AT, PLACE_AT, VERSION_AT};
use byte_lists::{is_open, read_u32, read_u64};
use store_layout::{Half, LATEST};

/// The half that is chosen: the open one, and of two open halves the one with the greater epoch.
/// The error is `NoHalf` where no half is open, and `SameEpoch` where both have the same epoch.
pub fn choose(heads: Heads) -> Result<Half, PairError>
    ensures { ReadsPair (λ half. half) result (choice (head_seen heads.first) (head_seen heads.second)) }
{
    match (heads.first, heads.second) {
        (None, None) => Err(PairError::NoHalf),
        (Some(_), None) => Ok(Half::First),
        (None, Some(_)) => Ok(Half::Second),
        (Some(one), Some(two)) => by_epochs(one.epoch, two.epoch),
    }
}

/// Of two open halves the one with the greater epoch.
fn by_epochs(first: u64, second: u64) -> Result<Half, PairError>
    ensures { ReadsPair (λ half. half) result (laws.by_epochs (first == second) (nat_lt first second)) }
{
    if first == second {
        return Err(PairError::SameEpoch);
    }
    if first < second {
        Ok(Half::Second)
    } else {
        Ok(Half::First)
    }
}

/// The half that has the tail: the chosen one, or the other one where the chosen half's journal is
/// sealed. The error is `SealedNewer` where the chosen half's journal is sealed and the other half
/// is open.
pub fn tail_half(heads: Heads, chosen: Half, sealed: bool) -> Result<Half, PairError>
    ensures { ReadsPair (λ half. half) result (half_with_tail chosen sealed (is_some (head_at (other chosen) heads))) }
{
    if !sealed {
        return Ok(chosen);
    }
    let other = match chosen {
        Half::First => heads.second,
        Half::Second => heads.first,
    };
    if other.is_some() {
        return Err(PairError::SealedNewer);
    }
    Ok(chosen.other())
}

/// An opening continues in the half that has the tail.
pub fn openings_continue_at_the_tail<Db, C>()
    ensures { GoesOnWhereTailStands Db C }
{}

/// The head of a checkpoint: the version of its format, the epoch, which is greater in the newer
/// half, and the place, which is the number of commands that are folded into its rows.
#[derive(Clone, Copy, Debug, PartialEq, Eq)]
pub struct Head {
    pub version: u32,
    pub epoch: u64,
    pub place: u64,
}

/// The heads of both halves of a store, `None` for a closed half.
#[derive(Clone, Copy, Debug, PartialEq, Eq)]
pub struct Heads {
    pub first: Option<Head>,
    pub second: Option<Head>,
}

/// The head at the front of a half's area, or `None` where the half's gate is closed; the area is
/// not read then. An open half with another magic or with version 0 is `BadCheckpoint`, and a
/// version above `LATEST` is `NewerFormat`.
pub fn read_head(gate: &[u8], area: &[u8]) -> Result<Option<Head>, PairError>
    requires { 24 ≤ length area.now }
    ensures { ReadsPair head_seen result (head_behind (is_open_gate gate.now) (head_in latest area.now)) }
{
    if !is_open(gate) {
        return Ok(None);
    }
    Ok(Some(open_head(area)?))
}

/// The head at the front of an open half's area.
pub(crate) fn open_head(area: &[u8]) -> Result<Head, PairError>
    requires { 24 ≤ length area.now }
    ensures { ReadsPair head_view result (head_in latest area.now) }
{
    let version = read_u32(area, VERSION_AT);
    if read_u32(area, 0) != CHECKPOINT_MAGIC || version == 0 {
        return Err(PairError::BadCheckpoint);
    }
    if version > LATEST {
        return Err(PairError::NewerFormat(version));
    }
    Ok(Head {
        version,
        epoch: read_u64(area, EPOCH_AT),
        place: read_u64(area, PLACE_AT),
    })
}
