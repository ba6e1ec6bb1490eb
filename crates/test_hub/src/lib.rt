//! Tests of `path_hub`: its actors' loops, tasks in threads, and the queue in front of its lock.
#![tactic(auto)]

#[cfg(test)]
mod checks;
#[cfg(test)]
mod host;
#[cfg(test)]
mod hub;
#[cfg(test)]
mod loops;
#[cfg(test)]
mod queues;
#[cfg(test)]
mod workloads;
