//! A server, by the log that it leaves: the opening of its device after a stop at any moment, and
//! servers one after the other.

mod composition;
mod reopening;
mod trace;

pub use composition::servers_compose;
pub use reopening::reopen_left;
pub use trace::ServerTrace;
