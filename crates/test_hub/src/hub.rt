//! Tests of `path_hub` with tasks in threads, a module for each subject. They see what no clause
//! says: that calls succeed and threads end, what another thread sees of a call, and what is there
//! where memory or the device is refused.

mod ahead;
mod alone;
mod given_up;
mod held;
mod learnt;
mod left;
mod purges;
mod readers;
mod refused;
mod serves;
mod stops;
mod strangers;
