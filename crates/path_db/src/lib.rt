//! The database of a path segment server: a finite map from keys, a type and an id, to segments,
//! and the commands that change it.
//!
//! To the layer above, `PathDb::apply` leaves the database that the definition gives after a
//! command and returns what the command did; where memory is refused, nothing changes.
//! `apply_within` also refuses a command after which the rows would take too many bytes. `rows` is
//! the map in the order of its keys, `matching` returns what a lookup shows, and `matching_after`
//! what it shows after an id. Laws say what commands leave, and that servers with the same
//! registrations have the same rows.
#![tactic(auto)]

mod all_puts;
mod answers;
mod command;
mod database;
mod error;
mod indexing;
mod laws;
mod outcome;
mod renewing;
mod visits;
mod ways;

pub use command::{Command, Registration};
pub use database::PathDb;
pub use error::ApplyError;
pub use laws::agreement::{registrations_commute, registrations_repeat};
pub use laws::command::{
    commands_append, commands_keep_database, database_is_canonical, keys_are_separate,
    purge_leaves_valid, register_leaves_newest, remove_leaves_others,
};
pub use laws::outcome::{each_put_is_counted, rows_are_counted};
pub use outcome::Outcome;
