//! What the tests of `group_core` and `group_recovery` share: stores on devices in memory, a device
//! that notes its calls, commands, a state at work, and runs with their events in a form that
//! tables can hold. A function here that is given a runtime ends the test by it where something is
//! not as it should be.
#![tactic(auto)]

pub mod acts;
pub mod noted;
pub mod runs;
pub mod stores;
pub mod values;
pub mod work;
