//! Tests of the queue in front of the lock of `path_hub`: commands that many tasks hand in before
//! the first is answered. They see what no clause says: that each command is answered, also where
//! the device or memory is refused, which places the commands of a full queue have, that a full
//! queue refuses at once, and that the threads that wait for answers are woken.

mod busy;
mod condvars;
mod crowds;
mod faults;
mod full;
mod locked;
mod refused;
mod said;
