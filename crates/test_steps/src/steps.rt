//! Tests of the steps of `group_core`, a module for each subject. They see what no clause says:
//! that calls succeed, the bytes that groups, seals and checkpoints leave on a device, and what a
//! stop or a fault at a call leaves.

mod following;
mod groups;
mod journals;
mod limits;
mod reopening;
mod rounds;
mod starting;
mod stops;
