//! What readers are shown: the committed rows, the place that is reached, and what was shown by
//! then.

ghost use Rattle.std.specs.Prelude.{◌≡◌};

use left_right::Absorb;
use log_history::PastLog;
use path_db::{Command, PathDb};
use std::alloc::AllocError;
use std::marker::Model;

/// Rows, the number of commands that made them, and the past log of all commands that were shown by
/// then. Contracts see the first two as one value.
#[derive(Drop)]
pub struct Published {
    db: PathDb,
    place: u64,
    past: PastLog,
}

impl Model for Published {
    ghost use Rattle.hub_readers.specs.Shown.{PublishedView};

    ghost Value = { PublishedView };

    ghost view = { λ s. record { value = record { db = s.db; place = s.place }; past = s.past } };
}

impl Published {
    /// Makes the value of these rows, at this place, with this past log.
    pub(crate) fn new(db: PathDb, place: u64, past: PastLog) -> Published
        ensures { result ≡ record { value = record { db = db; place = place }; past = past } }
    {
        Published { db, place, past }
    }

    /// The rows.
    pub fn db(&self) -> &PathDb
        ensures { result.now ≡ self.now.value.db }
    {
        &self.db
    }

    /// The place: the number of commands that made the rows.
    pub fn place(&self) -> u64
        ensures { result ≡ self.now.value.place }
    {
        self.place
    }

    /// A copy of the past log of all commands that were shown by then.
    pub(crate) fn past(&self) -> PastLog
        ensures { result ≡ self.now.past }
    {
        self.past.again()
    }
}

/// A command that is shown, and the past log after it.
#[derive(Drop)]
pub struct ShownCommand {
    pub(crate) command: Command,
    pub(crate) past: PastLog,
}

impl Absorb<ShownCommand> for Published {
    ghost use Rattle.hub_readers.specs.Shown.{published_with};

    type State = Published;

    ghost state = { λ s. s };

    ghost applied = { published_with };

    fn absorb_first(&mut self, shown: &ShownCommand, _other: &Published) -> Result<(), AllocError> {
        let Some(next) = self.place.checked_add(1) else {
            return Err(AllocError);
        };
        self.db.apply(&shown.command)?;
        self.place = next;
        self.past = shown.past.again();
        Ok(())
    }
}
