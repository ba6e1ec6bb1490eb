//! Reading the heads of both halves.

ghost use Rattle.std.specs.Prelude.{◌≢◌, ◌≤◌, IfOk, IfErr};
ghost use Rattle.sector_dev.specs.Disk.{IsHonest, reads_of};
ghost use Rattle.store_layout.specs.Layout.{IsGeometry, image_sectors};
ghost use Rattle.store_layout.specs.OpeningReading.{head_of};
ghost use Rattle.ckpt_pair.specs.Heads.{head_seen};
ghost use Rattle.store_layout.specs.Limits.{latest};
ghost use Rattle.store_open.specs.declared.error.OpenError.TheVariants.{NoMemory};
ghost use Rattle.store_layout.specs.Geometry.{geometry_view};
ghost use Rattle.store_open.specs.Refusals.{LooksFor, PairSo};
ghost use Rattle.store_open.specs.Heads.{chosen_half, choice_by_heads, HasHeads};

use crate::error::OpenError;
use crate::scanning::read_sector;
use byte_lists::is_open;
use ckpt_pair::{Head, Heads, choose, read_head};
use sector_dev::Device;
use store_layout::{Geometry, Half};

/// The head of a half; `None` where its gate reads closed, and then its area is not read. The call
/// takes no memory.
pub(crate) fn head_at<D: Device>(
    device: &mut D,
    geometry: Geometry,
    half: Half,
) -> Result<Option<Head>, OpenError>
    requires allowed { IsGeometry (geometry_view geometry) }
    requires room { image_sectors (geometry_view geometry) ≤ (D.disk device.old).sectors }
    ensures looks { LooksFor result (D.disk device.old) (D.disk device.new) }
    ensures head { IsHonest (D.disk device.old) → PairSo head_seen result (head_of latest (geometry_view geometry) half (reads_of (D.disk device.old))) }
    ensures memory { IfErr result (λ e. e ≢ NoMemory) }
{
    let gate = read_sector(device, geometry.gate_at(half))?;
    if !is_open(&gate) {
        return Ok(None);
    }
    let area = read_sector(device, geometry.area_at(half))?;
    Ok(read_head(&gate, &area)?)
}

/// The half that is chosen, with both heads. The first half's head is checked before the second's.
pub(crate) fn choose_half<D: Device>(
    device: &mut D,
    geometry: Geometry,
) -> Result<Choice, OpenError>
    requires allowed { IsGeometry (geometry_view geometry) }
    requires room { image_sectors (geometry_view geometry) ≤ (D.disk device.old).sectors }
    ensures looks { LooksFor result (D.disk device.old) (D.disk device.new) }
    ensures choice { IsHonest (D.disk device.old) → PairSo chosen_half result (choice_by_heads (geometry_view geometry) (reads_of (D.disk device.old))) }
    ensures heads { IfOk result (λ choice. IsHonest (D.disk device.old) → HasHeads (geometry_view geometry) (reads_of (D.disk device.old)) choice.heads) }
    ensures memory { IfErr result (λ e. e ≢ NoMemory) }
{
    let first = head_at(device, geometry, Half::First)?;
    let second = head_at(device, geometry, Half::Second)?;
    let heads = Heads { first, second };
    let half = choose(heads)?;
    Ok(Choice { half, heads })
}

/// The half that is chosen, and the heads of both.
#[derive(Clone, Copy)]
pub(crate) struct Choice {
    pub(crate) half: Half,
    pub(crate) heads: Heads,
}
