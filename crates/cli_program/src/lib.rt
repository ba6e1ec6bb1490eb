//! What the words of a command line ask for, done over given handles.
//!
//! To the layer above, `carry_out` reads the words, does what they ask for, prints on standard
//! error why it could not, and returns the program's status. It is `run`, then the line and the
//! status of `cli_commands`, which has the commands that start no server.
#![tactic(auto)]

mod addresses;
mod input;
mod notices;
mod output;
mod running;
mod server_line;
mod server_options;
mod serving;
mod signals;
mod site;
mod starting;
mod system;
mod usage;

pub use running::{carry_out, run};
pub use system::System;
