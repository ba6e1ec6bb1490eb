//! Tests of `path_db` and `path_records`. They check what no contract states: values from outside,
//! that calls succeed where memory suffices, and the database where memory is refused.

mod after;
mod commands;
mod counts;
mod drops;
mod expired;
mod memory;
mod one_key;
mod puts;
mod reads;
mod records;
mod refused;
mod visits;
mod ways;
pub(crate) mod worked;
