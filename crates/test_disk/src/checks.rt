//! Checks of bytes and of results, each in one call: a macro or a `?` in the body of a test is a
//! branch of its proof.
ghost use Rattle.std.specs.Prelude.{◌≡◌, Ok};

use std::process::{Abort, Termination};
use std::test::Fail;
use test_support::{TestHost, assert_same};

/// Sees that bytes are the ones that are wanted.
pub(crate) fn assert_bytes(rt: &impl TestHost, found: &[u8], wanted: &[u8], what: &str) {
    assert_same(rt, &found, &wanted, &what);
}

/// What a part of a test gave. Where that part failed, the test ends, and says why.
pub(crate) fn done<T>(rt: &(impl Abort + Eprint), given: Result<T, Fail>) -> T
    ensures { given ≡ Ok result }
{
    match given {
        Ok(value) => value,
        Err(fail) => {
            let _ = Err::<(), Fail>(fail).report(rt);
            rt.panic("a part of the test failed")
        }
    }
}
