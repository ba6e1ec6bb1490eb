//! Tests of `session_core`, a module for each subject. They check what no contract states: values
//! from outside, that calls succeed where memory suffices, and the state where memory is refused.

mod ahead;
mod commands;
mod framers;
mod laws;
mod lists;
mod numbers;
mod worked;
