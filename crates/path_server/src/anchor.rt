//! Which moments of the machine's clock a server's own purges trust.

ghost use Rattle.std.specs.Prelude.{◌≡◌};
ghost use Rattle.path_server.specs.Trusting.{expected, judged_by, begun, confirmed};

use std::fmt;
use std::fmt::{Display, Formatter};

/// The most half seconds by which the machine's clock may differ from what is expected of it: a
/// minute.
const LEEWAY: u64 = 120;

/// The most half seconds that the machine's clock may be after the newest timestamp of the store,
/// to be trusted at a start: a day.
const LONGEST_PAUSE: u64 = 172_800;

/// A moment of the machine's clock, and that of a steady clock then. Both are in half seconds. An
/// anchor is such a reading, whose moment was trusted.
#[derive(Clone, Copy, Debug, PartialEq, Eq)]
pub(crate) struct Reading {
    pub(crate) moment: u64,
    pub(crate) steady: u64,
}

/// Why a moment of the machine's clock is not trusted.
#[derive(Clone, Copy, Debug, PartialEq, Eq)]
pub enum Doubt {
    /// No moment was trusted yet.
    Unknown,
    /// The clock is this number of seconds ahead of the time that has passed since it was trusted.
    Ahead(u64),
    /// The clock is this number of seconds behind that time.
    Behind(u64),
}

impl Reading {
    /// This reading with the moment that is trusted by an anchor: the clock's, or the expected one
    /// where that is before it. The error is that the two differ by more than a minute.
    pub(crate) fn judged_by(self, anchor: Reading) -> Result<Reading, Doubt>
        ensures { result ≡ judged_by (expected anchor self.steady) self }
    {
        let passed = self.steady.saturating_sub(anchor.steady);
        let expected = anchor.moment.saturating_add(passed);
        let ahead = self.moment.saturating_sub(expected);
        let behind = expected.saturating_sub(self.moment);
        if ahead > LEEWAY {
            return Err(Doubt::Ahead(ahead / 2));
        }
        if behind > LEEWAY {
            return Err(Doubt::Behind(behind / 2));
        }
        Ok(Reading {
            moment: self.moment.min(expected),
            steady: self.steady,
        })
    }

    /// The first anchor, where the clock is at most a day after the newest timestamp of a store, in
    /// half seconds since 1970.
    pub(crate) fn begun(self, newest: u64) -> Option<Reading>
        ensures { result ≡ begun newest self }
    {
        if self.moment.saturating_sub(newest) > LONGEST_PAUSE {
            return None;
        }
        Some(self)
    }

    /// The anchor by the moment of a purge that a session asked for, in half seconds since 1970,
    /// where it differs from the clock by at most a minute.
    pub(crate) fn confirmed(self, asked: u64) -> Option<Reading>
        ensures { result ≡ confirmed asked self }
    {
        if self.moment.abs_diff(asked) > LEEWAY {
            return None;
        }
        Some(self)
    }
}

impl Display for Doubt {
    fn fmt<W: fmt::Write>(&self, f: &mut Formatter<W>) -> fmt::Result {
        match self {
            Doubt::Unknown => write!(f, "the clock is more than a day after the newest segment"),
            Doubt::Ahead(seconds) => write!(
                f,
                "the clock is {seconds} s ahead of the time that has passed"
            ),
            Doubt::Behind(seconds) => write!(
                f,
                "the clock is {seconds} s behind the time that has passed"
            ),
        }
    }
}
