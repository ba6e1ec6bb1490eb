//! What the tests of `path_hub` share: stores on devices in memory, commands, queries, the calls of
//! a state, a state that stops before one of its calls, a door that holds a sync, and what commands
//! do in the order of their places. A function here that is given a runtime ends the test by it
//! where something is not as it should be.
#![tactic(auto)]

pub mod acts;
pub mod doors;
pub mod fakes;
pub mod folds;
pub mod stores;
