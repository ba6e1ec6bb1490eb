//! The TCP server: sessions over a hub, each in a thread of its own.
//!
//! To the layer above, `serve_store` accepts connections of a listener and answers each as a
//! session of the store, at most 64 at one time, until it has started the number of sessions that
//! its options name. Then it closes the listener, and once the last session has ended, it returns
//! the ended device. It never has the device itself. Another listener, where there is one, is for
//! sessions that only look up, and one is for peers that ask for the server's numbers.
#![tactic(auto)]

mod anchor;
mod arriving;
mod attending;
mod ending;
mod error;
mod options;
mod pace;
mod parting;
mod peer_socket;
mod purge_state;
mod purger;
mod purging;
mod reports;
mod running;
mod sample;
mod server;
mod task;
mod watching;

pub use anchor::Doubt;
pub use error::RunError;
pub use options::Options;
pub use path_hub::{Ended, Release, Reserved};
pub use reports::{Report, Reports};
pub use running::{System, serve_store};
pub use session_core::Kinds;
pub use status_page::Usage;
