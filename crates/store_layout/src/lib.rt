//! The regions of a store's image, as relations and as functions, with their laws.
//!
//! Journals are defined for any format of commands (`CommandFormat`), and images for any format of
//! rows and commands (`StoreFormat`). The crates above supply these formats.
#![tactic(auto)]

mod format;
mod geometry;
mod half;
mod laws;
mod regions;
mod versions;
mod worked;
mod worked_images;

pub use format::{BEFORE_ROWS, LEAST_CHECKPOINT, LEAST_JOURNAL, MOST_SECTORS};
pub use geometry::Geometry;
pub use half::Half;
pub use laws::checkpoint::{
    checkpoints_are_read, checkpoints_are_written, first_checkpoints_can_be,
    first_sectors_are_read, heads_are_read,
};
pub use laws::growth::{
    closed_areas_may_change, halves_switch_by_their_gate, halves_take_over_the_same,
    older_halves_may_change, stores_are_sealed_by_their_gate, stores_go_by_their_last_journal,
    stores_grow_by_their_gate,
};
pub use laws::journal::{
    journals_are_made_ready, journals_are_read, journals_are_sealed_by_their_gate,
    journals_go_by_their_front, journals_grow_by_their_gate, journals_read_under_larger_limits,
    journals_stay_within_bounds, later_versions_allow_more, payloads_fill_sectors,
};
pub use laws::opening::{
    new_stores_open_empty, openings_are_read, openings_go_by_what_counts,
    openings_stay_under_later_versions,
};
pub use regions::{regions_are_apart, writes_leave_other_regions};
pub use versions::{JournalKind, LATEST, MOST_COMMANDS, allows, most_commands};
pub use worked::{worked_journals, worked_payloads, worked_sizes, worked_versions};
pub use worked_images::{
    worked_checkpoints, worked_choices, worked_opening, worked_regions, worked_titles,
};
