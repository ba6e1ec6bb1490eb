//! Runs of a store at work: any list of events, done one after the other, each a call of the state
//! or a lookup.
//!
//! To the layer above: the effect of a run is the effect that its replies name, event by event, on
//! one device. A stop at any moment of the run leaves the rows that were committed when it began,
//! with a front of the commands in the order of the lock. A device that is opened again has the
//! value that a stop left.
#![tactic(auto)]

mod events;
mod follow_events;
mod group_events;
mod holding;
mod laws;
mod plan_events;
mod reopening;
mod run_state;
mod running;
mod ticket_events;
mod winding;

pub use events::{Event, PublishRefusal, Reply, StepRefusal};
pub use laws::run::{events_keep_the_books, events_make_machine_steps, stops_reopen_machines};
pub use reopening::{NotReopened, reopen, reopen_state};
pub use run_state::Run;
pub use running::run;
