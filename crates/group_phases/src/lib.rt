//! What is on a store's device while two actors work on it, the flusher and the checkpointer, and
//! what a stop leaves of it.
//!
//! To the layer above: facts of ranges and of the two actors' parts, with the laws by which each
//! step keeps them. All is stated for any format of rows and commands.
#![tactic(auto)]

mod laws;
mod phases;

pub use laws::checkpointer::{
    checkpointer_writes_lie_beside_the_journal, checkpoints_are_laid, halves_are_switched,
    parts_stay_under_larger_limits, seals_are_published,
};
pub use laws::flusher::{
    durable_groups_are_published, flusher_calls_go_on, flusher_writes_lie_in_the_journal,
};
pub use laws::following::{
    followers_are_published, followers_go_on, followers_stay_where_untouched,
};
pub use laws::held::{
    calls_leave_fronts, checkpointer_calls_are_held, commands_are_held, flusher_calls_are_held,
    followers_are_held, turns_are_held,
};
pub use laws::kept::{calls_leave_the_other_part, parts_stay_where_untouched};
pub use laws::range::{
    calls_leave_what_is_around_them, ranges_have_parts, settled_ranges_are_in_every_image,
    syncs_settle, untouched_ranges_stay, writes_leave_what_is_beside,
};
pub use laws::standing::{images_open_to_fronts, opened_stores_are_held};
pub use phases::{Check, Flush};
