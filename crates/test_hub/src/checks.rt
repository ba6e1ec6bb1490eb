//! Checks of a test, each in one call. A macro is a branch in the body that has it, which the
//! prover follows with all that lives there.
ghost use Rattle.std.specs.Prelude.{◌≡◌, true};

use crate::host::Host;
use std::fmt::Debug;
use std::process::Abort;

/// Sees that what was found in a case is what was wanted.
pub(crate) fn assert_same<T: PartialEq + Debug, C: Debug>(
    rt: &impl Abort,
    found: &T,
    wanted: &T,
    case: &C,
) {
    test_support::assert_same(&Host(rt), found, wanted, case)
}

/// Sees that what this says holds.
pub(crate) fn assert_true(rt: &impl Abort, holds: bool, what: &str)
    ensures { holds ≡ true }
{
    test_support::assert_true(&Host(rt), holds, what)
}
