//! What is read of a half to draw it.

ghost use Rattle.std.specs.Prelude.{◌≤◌};
ghost use Rattle.store_layout.specs.Layout.{IsGeometry, image_sectors};
ghost use Rattle.store_layout.specs.Geometry.{geometry_view};
ghost use Rattle.store_open.specs.Looking.{LooksAt};

use crate::walking::{End, Walk, walk_journal};
use byte_lists::read_u32;
use ckpt_pair::{COUNT_AT, Head, Heads, PairError, SIZE_AT, choose, read_head, tail_half};
use sector_dev::{DevError, Device};
use store_layout::Half;
use store_open::{Geometry, read_sector};

/// A half: its head, or none where its gate is closed; the rows in its area; and its journal.
#[derive(Clone, Copy)]
pub(crate) struct HalfFound {
    pub head: Result<Option<Head>, PairError>,
    /// The bytes of the rows.
    pub size: u32,
    /// The number of rows.
    pub count: u32,
    pub journal: Walk,
}

/// Both halves.
#[derive(Clone, Copy)]
pub(crate) struct Halves {
    pub first: HalfFound,
    pub second: HalfFound,
}

impl Halves {
    /// What was found of `half`.
    pub(crate) fn get(&self, half: Half) -> HalfFound {
        match half {
            Half::First => self.first,
            Half::Second => self.second,
        }
    }

    /// The half that is chosen by both heads, and the half that has the tail.
    pub(crate) fn choice(&self) -> Result<ChosenHalves, PairError> {
        let first = self.first.head?;
        let second = self.second.head?;
        let heads = Heads { first, second };
        let half = choose(heads)?;
        let sealed = self.is_sealed(half);
        let tail = tail_half(heads, half, sealed)?;
        if sealed && self.is_sealed(tail) {
            return Err(PairError::SealedNewer);
        }
        Ok(ChosenHalves { half, tail })
    }

    fn is_sealed(&self, half: Half) -> bool {
        self.get(half).journal.end == End::Sealed
    }
}

/// The half that is chosen, and the half that has the tail.
#[derive(Clone, Copy)]
pub(crate) struct ChosenHalves {
    pub half: Half,
    pub tail: Half,
}

/// Reads a half: its gate, the first sector of its area, and the gates and headers of its journal.
pub(crate) fn read_half<D: Device>(
    device: &mut D,
    geometry: Geometry,
    half: Half,
) -> Result<HalfFound, DevError>
    requires allowed { IsGeometry (geometry_view geometry) }
    requires room { image_sectors (geometry_view geometry) ≤ (D.disk device.old).sectors }
    ensures { LooksAt result (D.disk device.old) (D.disk device.new) }
{
    let gate = read_sector(device, geometry.gate_at(half))?;
    let area = read_sector(device, geometry.area_at(half))?;
    let journal = walk_journal(
        device,
        geometry.journal_at(half),
        u64::from(geometry.journal),
    )?;
    Ok(HalfFound {
        head: read_head(&gate, &area),
        size: read_u32(&area, SIZE_AT),
        count: read_u32(&area, COUNT_AT),
        journal,
    })
}
