//! The commands that start no server: `once`, `format`, `copy`, `show`, `status`, `upgrade` and
//! `ask`, by the words of their command lines; and the program's lines on standard error.
//!
//! To the layer above, each command has a function that takes its options, opens the files and
//! connections that they name, and does what its crate does over these: `cli_once`, `cli_store` or
//! `cli_ask`. `cores_in`, `key_in`, `u32_in` and `is_address` read options that a server has, too.
//!
//! A `Failure` is the line that says why words are not carried out, to which `more_of` adds what
//! the system knows of a file. It says how the program ends, and whether the same words fail again.
//! `Ended` is the last line, and `status_of` gives the status. `Lines` takes the lines of a server
//! from any thread, and one thread prints them.
#![tactic(auto)]

mod addresses;
mod asking;
mod ending;
mod failure;
mod lines;
mod opened;
mod options;
mod priority;
mod progress;
mod reasons;
mod session;
mod stores;
mod waiting;

pub use addresses::is_address;
pub use asking::ask_server;
pub use ending::{Done, Ended, Failed, status_of};
pub use failure::Failure;
pub use lines::Lines;
pub use options::{cores_in, key_in, u32_in};
pub use priority::{Line, Priority};
pub use reasons::more_of;
pub use session::answer;
pub use stores::{
    copy_file, format_file, make_where_none, show_file, status_of_file, upgrade_file,
};
