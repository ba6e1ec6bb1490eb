//! Tests of `path_server`, a module for each subject. Both ends of each connection are in one
//! process, over the loopback: the tests see what no clause says of sockets, of threads and of the
//! time that passes.

mod accepts;
mod asking;
mod checks;
mod clocks;
mod doors;
mod ends;
mod hanging;
mod held;
mod host;
mod leaving;
mod pacing;
mod page;
mod peers;
mod purging;
mod refused;
mod roles;
mod rows;
mod seats;
mod set_clock;
mod stops;
mod stores;
mod watching;
mod worlds;
