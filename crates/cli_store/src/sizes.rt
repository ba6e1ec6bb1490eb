//! The sizes of a store by a number of rows.

ghost use Rattle.std.specs.Prelude.{◌≡◌, ◌≤◌};
ghost use Rattle.store_layout.specs.Layout.{IsGeometry};
ghost use Rattle.store_layout.specs.Geometry.{geometry_view};
ghost use Rattle.cli_store.specs.Sizes.{sizes_for};

use store_layout::{Geometry, MOST_SECTORS};

/// The sectors of a journal for each of which a store has room for this number of rows.
const ROWS_PER_SECTOR: u32 = 8;

/// The fewest sectors of such a journal.
const LEAST: u32 = 1024;

/// The most sectors of such a journal.
const MOST: u32 = 65_536;

/// The sizes of a store for this number of rows: a checkpoint area of a sector for each and one
/// more, and a journal of an eighth as many sectors, of at least 1,024 and at most 65,536. A sector
/// has room for a row of ten entries without signatures, or of six with signatures of 32 bytes.
pub fn sizes_for(rows: u32) -> Geometry
    ensures sizes { geometry_view result ≡ sizes_for rows }
    ensures allowed { 1 ≤ rows → IsGeometry (geometry_view result) }
{
    Geometry {
        checkpoint: rows.saturating_add(1).min(MOST_SECTORS),
        journal: (rows / ROWS_PER_SECTOR).max(LEAST).min(MOST),
    }
}
