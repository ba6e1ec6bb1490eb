//! The runtime of a test, by which a library of scripts ends the test.

use std::fmt::Display;
use std::process::Abort;
use std::sync::Wait;
use test_support::TestHost;

/// The runtime of a test.
#[derive(Clone, Copy)]
pub(crate) struct Host<R: Abort>(pub(crate) R);

impl<R: Abort> TestHost for Host<R> {
    fn fail<D: Display + Drop>(&self, why: D) -> ! {
        self.0.panic(why)
    }
}

impl<R: Wait + Abort> Wait for Host<R> {}
