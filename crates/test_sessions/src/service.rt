//! Tests of a session's service over a hub whose actors run. They see what no clause says: that
//! commands are committed, and what was committed is found; which refusal of the hub comes when;
//! how often a service asks its clock, and what the machine's clock gives; and what is there where
//! the device or memory is refused.

pub(crate) mod clocks;
pub(crate) mod frames;
mod memory;
mod moments;
mod pages;
mod readings;
mod refusals;
pub(crate) mod sessions;
pub(crate) mod stores;
pub(crate) mod tasks;
