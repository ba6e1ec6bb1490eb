//! The recovery theorems on a page: a run that is traced and a server by the log that it leaves,
//! and the opening of their devices after any stop.
//!
//! To the layer above: a trace has the order of a run's commands, and the run after each event. A
//! device that has what a stop left since one of these states opens to the rows after a front of
//! the order, which has all commands that were committed in that state. So do devices that are
//! opened again after a stop within the opening. After a stop of a server the store has what the
//! server's store had after a front of the log. Each command is in that front that was acknowledged
//! and committed at the moment of the stop. A stop of a later server, of the store that is opened,
//! composes with the first.
#![tactic(auto)]

mod composition;
mod numbers;
mod recovery;
mod servers;
mod steps;
mod trace;

pub use composition::{runs_compose, stops_compose};
pub use recovery::{Traced, reopen_after, run_traced};
pub use servers::{ServerTrace, reopen_left, servers_compose};
pub use trace::Trace;
