//! What names a new hub.

ghost use Rattle.std.specs.Prelude.{◌≡◌};
ghost use Rattle.command_log.specs.Log.{empty_log};
ghost use Rattle.log_history.specs.Entries.{new_log};

use command_queue::NewHistory;
use log_history::LogHistory;
use logged_state::UnnamedLog;
use std::alloc::{AllocError, Global};

/// What names a new hub beside its store: the history that its queue begins with, the log of its
/// state, in which nothing is accepted yet, and the history of what is shown, which is nothing yet.
#[derive(Drop)]
pub(crate) struct NewName {
    pub(crate) history: NewHistory,
    pub(crate) log: UnnamedLog,
    pub(crate) shown: LogHistory,
    ghost fresh: { log.log ≡ empty_log },
    ghost unshown: { shown ≡ new_log shown.book },
}

impl NewName {
    /// Begins both histories and a log.
    pub(crate) fn new(alloc: Global) -> Result<NewName, AllocError> {
        Ok(NewName {
            history: NewHistory::new(alloc)?,
            log: UnnamedLog::new(alloc)?,
            shown: LogHistory::new()?,
        })
    }
}
