//! What a library of scripts calls where something is not as a test expects it. A library may not
//! end a process, so the crate of tests says how a test is ended.
ghost use Rattle.std.specs.Prelude.{◌≡◌, true};

use std::fmt::{Debug, Display};

/// The runtime of a test. Each crate of tests that calls a library of scripts has a type `Host` of
/// its own with this trait, over a runtime that may end the process: a library may not name the
/// bound `Abort`, so one `Host` for all of them has no crate to be in.
pub trait TestHost {
    /// Ends the test, and says why. It does not return.
    fn fail<D: Display + Drop>(&self, why: D) -> !;
}

/// Sees that what was found in a case is what was wanted.
pub fn assert_same<T: PartialEq + Debug, C: Debug>(
    rt: &impl TestHost,
    found: &T,
    wanted: &T,
    case: &C,
) {
    if !(*found == *wanted) {
        rt.fail(format_args!("{case:?}: {found:?}, and not {wanted:?}"))
    }
}

/// Sees that what this says holds.
pub fn assert_true(rt: &impl TestHost, holds: bool, what: &str)
    ensures { holds ≡ true }
{
    if !holds {
        rt.fail(format_args!("not so: {what}"))
    }
}
