//! How far a sealed half is read, and settling what its commands leave, in pieces.

ghost use Rattle.std.specs.Prelude.{◌≤◌, ◌+◌, ◌-◌, ◌*◌, ◌↔◌, IfOk, IsTrue, List, ℕ};
ghost use Rattle.byte_lists.specs.declared.format.TheConstants.{SECTOR};
ghost use Rattle.sector_dev.specs.Disk.{IsHonest, reads_of};
ghost use Rattle.store_layout.specs.declared.format.TheConstants.{BEFORE_ROWS};
ghost use Rattle.store_layout.specs.Layout.{IsGeometry, image_sectors, Geometry as GeometryView};
ghost use Rattle.store_layout.specs.Geometry.{geometry_view};
ghost use Rattle.store_open.specs.Sealed.{LooksAtHalf};
ghost use Rattle.ckpt_stream.specs.HalfRead.{IsHalfRead, IsWithin, pieces_to_come, ReadsOn, IsReadOn};
ghost use Rattle.store_layout.specs.declared.half.Half.{Half};
ghost use Rattle.ckpt_stream.specs.declared.half_read.HalfRead.TheVariants.{Settled as IsSettled};

use crate::ghosts::note::RowsNote;
use crate::old_area::read_half_front;
use crate::old_journal::{JournalRead, scan_on};
use crate::old_rows::{RowsRead, rows_on};
use crate::plan::Plan;
use crate::settling::{Settled, Settling};
use byte_lists::SECTOR;
use ckpt_pair::Front;
use sector_dev::Device;
use std::alloc::{AllocError, Global};
use store_layout::{BEFORE_ROWS, Geometry, Half};
use store_open::SealedError;

/// How far a sealed half is read.
#[derive(Drop)]
pub(crate) enum HalfRead {
    /// Nothing is read.
    Unread,
    /// The front of its area, and the groups of its journal up to a gate.
    Journal(JournalRead),
    /// The front, the journal, and the rows in the first sectors of the area.
    Rows(RowsRead),
    /// All that has to be read, and what the journal's commands leave, settled in part.
    Settled(RowsSettled),
    /// Everything: the rows after the journal's commands are planned.
    Planned(PlannedRows),
}

impl HalfRead {
    /// Whether what was read of the front and of the journal's size is within these sizes.
    pub(crate) fn is_within(&self, geometry: Geometry) -> bool
        ensures { IsTrue result ↔ IsWithin (geometry_view geometry) self.now }
    {
        match self {
            HalfRead::Unread => true,
            HalfRead::Journal(journal) => {
                journal.sectors == geometry.journal && fits(journal.front.size, geometry)
            }
            HalfRead::Rows(rows) => fits(rows.front.size, geometry),
            HalfRead::Settled(settled) => fits(settled.front.size, geometry),
            HalfRead::Planned(planned) => fits(planned.front.size, geometry),
        }
    }

    /// Reads the next piece, or settles it. Where everything is planned, nothing changes.
    pub(crate) fn read_next<D: Device>(
        self,
        alloc: Global,
        device: &mut D,
        geometry: Geometry,
        half: Half,
    ) -> Result<HalfRead, SealedError>
        requires allowed { IsGeometry (geometry_view geometry) }
        requires room { image_sectors (geometry_view geometry) ≤ (D.disk device.old).sectors }
        requires whole { IsHalfRead self }
        requires within { IsWithin (geometry_view geometry) self }
        ensures looks { LooksAtHalf result (D.disk device.old) (D.disk device.new) }
        ensures whole { IfOk result IsHalfRead }
        ensures within { IfOk result (IsWithin (geometry_view geometry)) }
        ensures nearer { IfOk result (λ next. pieces_to_come next ≤ pieces_to_come self - 1) }
        ensures reads { IsHonest (D.disk device.old) → ReadsOn (geometry_view geometry) half (reads_of (D.disk device.old)) self result }
    {
        match self {
            HalfRead::Unread => read_half_front(alloc, device, geometry, half),
            HalfRead::Journal(journal) => scan_on(alloc, device, geometry, half, journal),
            HalfRead::Rows(rows) => rows_on(alloc, device, geometry, half, rows),
            HalfRead::Settled(settled) => Ok(settle_more(settled)?),
            HalfRead::Planned(planned) => Ok(HalfRead::Planned(planned)),
        }
    }
}

/// Whether rows of this number of bytes are within an area.
fn fits(size: u32, geometry: Geometry) -> bool
    ensures { IsTrue result ↔ BEFORE_ROWS + size ≤ SECTOR * geometry.checkpoint }
{
    BEFORE_ROWS as u64 + u64::from(size) <= SECTOR as u64 * u64::from(geometry.checkpoint)
}

/// The rows of a sealed half, all read, and what its journal's commands leave, settled in part.
#[derive(Drop)]
pub(crate) struct RowsSettled {
    /// The front of the half's area.
    pub(crate) front: Front,
    /// The place that the half's journal reaches.
    pub(crate) place: u64,
    /// What the journal's commands leave.
    pub(crate) settling: Settling,
    /// The rows.
    pub(crate) note: RowsNote,
    /// The rows after the journal's commands.
    pub(crate) after: RowsNote,
    /// The sums of the sectors of the area up to the end of the rows.
    pub(crate) sums: Vec<u64>,
}

/// The rows of a sealed half, all read and planned.
#[derive(Drop)]
pub(crate) struct PlannedRows {
    /// The front of the half's area.
    pub(crate) front: Front,
    /// The place that the half's journal reaches.
    pub(crate) place: u64,
    /// The plan of the rows for the journal's commands.
    pub(crate) plan: Plan,
    /// The rows.
    pub(crate) note: RowsNote,
    /// The rows after the journal's commands.
    pub(crate) after: RowsNote,
    /// The sums of the sectors of the area up to the end of the rows.
    pub(crate) sums: Vec<u64>,
}

/// Settles the next piece of what the commands leave. Where all is settled, the rows are planned.
pub(crate) fn settle_more(settled: RowsSettled) -> Result<HalfRead, AllocError>
    requires whole { IsHalfRead (IsSettled settled) }
    ensures whole { IfOk result IsHalfRead }
    ensures within { IfOk result (λ next. (geometry : GeometryView) → IsWithin geometry (IsSettled settled) → IsWithin geometry next) }
    ensures nearer { IfOk result (λ next. pieces_to_come next ≤ pieces_to_come (IsSettled settled) - 1) }
    ensures reads { IfOk result (λ next. (geometry : GeometryView) (half : Half) (reads : List ℕ)
        → IsReadOn geometry half reads (IsSettled settled) → IsReadOn geometry half reads next) }
{
    let (front, place, sums) = (settled.front, settled.place, settled.sums);
    let (note, after) = (settled.note, settled.after);
    match settled.settling.settle_on()? {
        Settled::More(settling) => Ok(HalfRead::Settled(RowsSettled {
            front,
            place,
            settling,
            note,
            after,
            sums,
        })),
        Settled::Done(plan) => Ok(HalfRead::Planned(PlannedRows {
            front,
            place,
            plan,
            note,
            after,
            sums,
        })),
    }
}
