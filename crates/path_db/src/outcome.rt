//! What a command did.

ghost use Rattle.std.specs.Prelude.{◌≡◌, []};
ghost use Rattle.path_db.specs.Outcome.{outcome_of_puts, outcome_of_drops, outcome_after};

use row_map::Change;

/// What a command did: how many segments it inserted, updated and kept, and how many rows it
/// dropped. A count above 2^32 - 1 is 2^32 - 1.
#[derive(Clone, Copy, Debug, PartialEq, Eq)]
pub struct Outcome {
    pub inserted: u32,
    pub updated: u32,
    pub kept: u32,
    pub purged: u32,
}

impl Outcome {
    /// Nothing was done.
    pub(crate) fn nothing() -> Outcome
        ensures { result ≡ outcome_of_puts [] }
    {
        Outcome {
            inserted: 0,
            updated: 0,
            kept: 0,
            purged: 0,
        }
    }

    /// The outcome of dropping this number of rows.
    pub(crate) fn dropped(count: usize) -> Outcome
        ensures { result ≡ outcome_of_drops count }
    {
        Outcome {
            purged: u32::try_from(count).unwrap_or(u32::MAX),
            ..Outcome::nothing()
        }
    }

    /// Counts what one more put did.
    pub(crate) fn count(&mut self, change: Change)
        ensures { self.new ≡ outcome_after change self.old }
    {
        match change {
            Change::Inserted => self.inserted = self.inserted.saturating_add(1),
            Change::Updated => self.updated = self.updated.saturating_add(1),
            Change::Kept => self.kept = self.kept.saturating_add(1),
        }
    }
}
