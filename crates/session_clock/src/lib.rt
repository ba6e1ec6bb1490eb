//! Moments in half seconds.
//!
//! To the layer above, a `Now` gives moments. `SystemNow` gives those of the machine's clock, which
//! count from 1970, and `SteadyNow` those since it was made, which never fall.
#![tactic(auto)]

mod clock;
mod steady;

pub use clock::{Now, SystemNow};
pub use steady::SteadyNow;
