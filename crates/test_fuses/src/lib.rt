//! Tests of `group_core` by whole runs on a device that stops, or fails once, at each of its calls
//! in turn: which replies the run gives then, and to what each image opens that it leaves.
#![tactic(auto)]

#[cfg(test)]
mod failures;
#[cfg(test)]
mod faults;
#[cfg(test)]
mod following;
#[cfg(test)]
mod following_runs;
#[cfg(test)]
mod fuses;
#[cfg(test)]
mod host;
#[cfg(test)]
mod left;
#[cfg(test)]
mod long_runs;
#[cfg(test)]
mod outs;
#[cfg(test)]
mod rounds;
#[cfg(test)]
mod scripts;
#[cfg(test)]
mod short_runs;
