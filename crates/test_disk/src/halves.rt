//! Tests of the two parts of a half of a store: the checkpoint of `ckpt_pair` and the journal of
//! `gate_journal`. They check what no clause states: values from outside, that calls succeed where
//! memory suffices, and the results where memory is refused.

mod area;
mod checkpoints;
mod groups;
mod halves;
mod journals;
mod memory;
mod pieces;
mod refusals;
mod refused_areas;
mod refused_journals;
mod worked;
