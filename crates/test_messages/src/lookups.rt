//! Tests of `seg_lookup`, a module for each subject. They check what no contract states: values
//! from outside, and that calls succeed where memory suffices.

mod answers;
mod classes;
mod filter;
mod laws;
mod pages;
mod worked;
