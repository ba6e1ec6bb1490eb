//! The checkpoint of a half whose journal is sealed, made while it is written, from pieces of the
//! half's own area.
//!
//! To the layer above: `begin_prepared` reads the half once and plans. Each `write_next` writes the
//! next sectors, at most 256, and reads as much of the old area as the sectors after them need. A
//! merge has no area and no database in memory: it has two buffers, a row for each key that the
//! journal names, eight bytes for each run of rows, and a sum of eight bytes for each sector of the
//! old area. By these sums it notices a sector that reads otherwise than when it was planned.
//!
//! Below that, the records of a database after commands are made of the records before, piece by
//! piece. A `Planner` sees each row once. A `Settling` then applies the commands in pieces and
//! makes a `Plan`, which has a small edit for each run of rows and a row for each key that the
//! commands name. A `Rewrite` follows the plan: it makes the records after, reads no row again and
//! takes no memory.
#![tactic(auto)]

mod beginning;
mod error;
mod ghosts;
mod half_read;
mod laws;
mod making;
mod merge;
mod old_area;
mod old_journal;
mod old_rows;
mod plan;
mod planner;
mod preparation;
mod putting;
mod rewrite;
mod rewrite_buffer;
mod settling;
mod sums;
mod touched;

pub use beginning::begin_prepared;
pub use error::PieceError;
pub use ghosts::note::{RowsNote, and_row, no_rows, rows_after};
pub use laws::{keys_make_folds, merges_are_folds, pieces_follow, plans_make_folds};
pub use merge::{Merge, PIECE_SECTORS};
pub use plan::{Edit, Plan};
pub use planner::Planner;
pub use preparation::Preparation;
pub use rewrite::Rewrite;
pub use settling::{Settled, Settling};
