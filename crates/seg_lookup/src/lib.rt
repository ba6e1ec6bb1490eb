//! Lookups: which segments a source and a destination ask for, and which of them a database shows.
//!
//! To the layer above, `classify` returns exactly what the table of sides says, by a roster of core
//! ASes, which counts only as a set. `answer` is the filter: the first 64 segments by key that
//! match the query and are valid. `page_after` returns them after an id, and whether further ones
//! follow.
#![tactic(auto)]

mod answers;
mod classification;
mod error;
mod laws;
mod pages;
mod query;
mod roster;

pub use answers::{ANSWER_LIMIT, answer};
pub use classification::classify;
pub use error::LookupError;
pub use laws::{
    answers_are_complete, answers_are_short, answers_are_wanted, answers_rise,
    first_page_is_the_answer, pages_are_complete, pages_follow_each_other, queries_start_at_a_core,
    rosters_have_their_cores,
};
pub use pages::{Page, first_after, page_after};
pub use query::Query;
pub use roster::Roster;
