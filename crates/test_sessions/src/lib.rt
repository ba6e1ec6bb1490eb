//! Tests of sessions: `session_core` alone, over a store in memory as `once` answers them, over a
//! connection in memory, and over a hub.
#![tactic(auto)]

#[cfg(test)]
mod ahead;
#[cfg(test)]
mod bytes;
#[cfg(test)]
mod checks;
#[cfg(test)]
mod connections;
#[cfg(test)]
mod host;
#[cfg(test)]
mod limits;
#[cfg(test)]
mod once;
#[cfg(test)]
mod service;
#[cfg(test)]
mod sessions;
