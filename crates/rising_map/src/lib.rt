//! A map from numbers to values, made for numbers that mostly rise.
//!
//! To the layer above: a list of entries by rising number. An entry above all others is put at the
//! end, and numbers without gaps are found without a search.
#![tactic(auto)]

mod map;
mod slots;

pub use map::RisingMap;
