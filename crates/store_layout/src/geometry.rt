//! The sizes of a store, and the sectors at which its regions begin.

ghost use Rattle.std.specs.Prelude.{◌≡◌, ◌↔◌, IsTrue};
ghost use Rattle.store_layout.specs.Layout.{IsGeometry, image_sectors, area_at, gate_at, journal_at};
ghost use Rattle.store_layout.specs.Layout as laws;
ghost use Rattle.store_layout.specs.Geometry.{geometry_view};

use crate::format::{LEAST_CHECKPOINT, LEAST_JOURNAL, MOST_SECTORS};
use crate::half::Half;

/// The sizes of both halves of a store, in sectors of 512 bytes: of the checkpoint area, and of the
/// journal.
#[derive(Clone, Copy, Debug, PartialEq, Eq)]
pub struct Geometry {
    pub checkpoint: u32,
    pub journal: u32,
}

impl Geometry {
    /// Whether these sizes are allowed: 2 to 1,048,576 sectors of checkpoint area, 516 to 1,048,576
    /// sectors of journal.
    pub fn is_allowed(self) -> bool
        ensures { IsTrue result ↔ IsGeometry (geometry_view self) }
    {
        LEAST_CHECKPOINT <= self.checkpoint
            && self.checkpoint <= MOST_SECTORS
            && LEAST_JOURNAL <= self.journal
            && self.journal <= MOST_SECTORS
    }

    /// The number of sectors of a store of these sizes.
    pub fn sectors(self) -> u64
        ensures { result ≡ image_sectors (geometry_view self) }
    {
        1 + self.half_sectors() + self.half_sectors()
    }

    fn half_sectors(self) -> u64
        ensures { result ≡ laws.half_sectors (geometry_view self) }
    {
        self.checkpoint as u64 + 1 + self.journal as u64
    }

    /// The sector at which a half's checkpoint area begins.
    pub fn area_at(self, half: Half) -> u64
        ensures { result ≡ area_at (geometry_view self) half }
    {
        match half {
            Half::First => 1,
            Half::Second => 1 + self.half_sectors(),
        }
    }

    /// The sector of a half's gate.
    pub fn gate_at(self, half: Half) -> u64
        ensures { result ≡ gate_at (geometry_view self) half }
    {
        self.area_at(half) + self.checkpoint as u64
    }

    /// The sector at which a half's journal begins, which is the journal's first gate.
    pub fn journal_at(self, half: Half) -> u64
        ensures { result ≡ journal_at (geometry_view self) half }
    {
        self.gate_at(half) + 1
    }
}
