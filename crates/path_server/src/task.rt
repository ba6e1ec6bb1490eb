//! The tasks that the threads of a server attend to.

use server_front::Role;
use std::time::Duration;

/// A seat: its number among those for the sessions of a role.
#[derive(Clone, Copy)]
pub(crate) struct Seat {
    pub(crate) role: Role,
    pub(crate) number: usize,
}

/// A task that a thread attends to. The server keeps what the thread takes: the connection of a
/// peer in the peer's seat, and the listener for requests of the numbers.
#[derive(Clone, Copy)]
pub(crate) enum Task {
    /// The session of the peer in this seat.
    Session(Seat),
    /// The answers to peers that ask for the numbers.
    Status,
    /// The server's own purges, one after each such period.
    Purges(Duration),
}
