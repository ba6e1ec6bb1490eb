//! Tests of the steps of `group_core`: those that succeed, those that are refused, and those of
//! checkpoints over areas of several pieces.
#![tactic(auto)]

#[cfg(test)]
mod host;
#[cfg(test)]
mod refused_steps;
#[cfg(test)]
mod steps;
#[cfg(test)]
mod streams;
