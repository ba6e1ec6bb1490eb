//! Tests of whole runs: `group_recovery`'s lists of events, and a run of `prefix_recovery` that is
//! traced.
#![tactic(auto)]

#[cfg(test)]
mod host;
#[cfg(test)]
mod runs;
#[cfg(test)]
mod traces;
