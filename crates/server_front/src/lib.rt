//! The front of a server: the listeners by which its peers arrive, the seats of its sessions, and
//! what it counts and measures beside its replies.
//!
//! To the layer above, `Door` waits for the next peer of a session, and `next_visitor` for the next
//! one that asks for the server's numbers. `Seats` gives each peer a seat, or says why it has none,
//! and `turn_away` refuses a peer without one. `shares_of` divides a server's 64 seats between both
//! roles of its sessions. `Ends` has the numbers of sessions that have ended, by their causes, and
//! `Seldom` counts events that are reported once a second at most. `Stopwatch` measures a time, and
//! `Waiting` says which threads of the store wait for memory. Threads share all of these.
#![tactic(auto)]

mod accepting;
mod descriptors;
mod door;
mod ends;
mod listeners;
mod memory_waits;
mod role;
mod seats;
mod seldom;
mod stopwatch;
mod turning_away;
mod two_listeners;
mod visitors;

pub use accepting::{AcceptFailure, Arrival, after_failure};
pub use descriptors::raised_listener;
pub use door::Door;
pub use ends::{Cause, Circumstances, Ends, cause_of};
pub use listeners::{Listener, Listeners, set_accept_timeout};
pub use memory_waits::Waiting;
pub use role::Role;
pub use seats::{
    LEAST_COMMAND_SEATS, MOST_LOOKUP_SEATS, MOST_SESSIONS, NoSeat, Peer, Seats, shares_of,
};
pub use seldom::Seldom;
pub use stopwatch::Stopwatch;
pub use turning_away::turn_away;
pub use two_listeners::Entrances;
pub use visitors::{StatusListener, Visitor, next_visitor};
