//! Tests of `prefix_recovery`: a run that is traced, and the opening of its device.

mod traces;
