//! Tests of `group_recovery`: the reply to each event, lists of events that are cut in two, the
//! ends of runs, and what is left where memory is refused.

mod refused_runs;
mod runs;
