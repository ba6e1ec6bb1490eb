//! Tests of the crates that read, write and check messages: `isd_as`, `pw_wire`, `seg_core` and
//! `seg_check`. They check what no contract states: values from outside, that calls succeed where
//! memory suffices, and the error where memory is refused.

mod checked;
mod digests;
mod expiries;
mod fields;
mod laws;
mod messages;
mod numbers;
mod segments;
mod signatures;
mod worked;
