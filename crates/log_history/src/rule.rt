//! The rule of the history. It exists in proofs alone: what is stored is one word, which is 1 once
//! the history has an owner.

use logbook::{Gain, Pen, Plain, Play, Rule};
use path_db::Command;
use std::collections::LinkedList;
use std::snapshot::Snapshot;

/// What happened to the log, and the key of the right to append the next entry. The type exists in
/// proofs alone.
pub struct Entry {
    /// The commands that were accepted then.
    pub accepted: LinkedList<Command>,
    /// How many more commands were committed then.
    pub committed: u64,
    /// The key of the right to append after this entry.
    pub next: u64,
}

/// The rule: the right to append after an entry is spent once a further entry is there.
pub struct Growth;

impl Rule<Entry, u64> for Growth {
    ghost use Rattle.std.specs.Prelude.{[]};
    ghost use base.Fml.{ftrue};
    ghost use Rattle.log_history.specs.Rights.{IsKept};

    ghost holds = { λ cells log. IsKept cells log };

    ghost first = { [] };

    ghost hinted = { λ n log. Unit {0} };

    ghost shows = { λ log. [] };

    ghost keeps = { λ names log. ftrue };

    ghost moves = { λ ask before after answer. Unit {0} };
}

/// Who makes a step trades nothing.
pub(crate) struct Nothing;

impl Gain<Entry, u64> for Nothing {
    ghost use base.Fml.{ftrue};

    ghost after = { λ names about answer. ftrue };
}

/// The step that makes a new right.
pub(crate) struct Issues;

impl Play<Entry, u64> for Issues {
    ghost use Rattle.log_history.specs.Rights.{IsIssued};

    ghost then = { IsIssued };
}

/// The step that appends an entry.
pub(crate) struct Appends;

impl Play<Entry, u64> for Appends {
    ghost use Rattle.log_history.specs.Rights.{IsAppended};

    ghost then = { IsAppended };
}

/// The step that looks whether the history is longer than its owner knows.
pub(crate) struct Looks;

impl Play<Entry, u64> for Looks {
    ghost use Rattle.log_history.specs.Rights.{IsWhole};

    ghost then = { IsWhole };
}

/// A step that appends nothing.
impl Plain<(), Entry, u64> for Nothing {
    ghost use Rattle.std.specs.Prelude.{None};
    ghost use Rattle.log_history.specs.Rights.{no_entry};

    ghost ask = { λ _. no_entry };

    ghost state = { λ _. None };
}

/// A command that is accepted, with the right to append the next entry.
pub(crate) struct Accepting {
    pub(crate) command: Snapshot<Snapshot<Command>>,
    pub(crate) next: Pen,
}

impl Plain<Accepting, Entry, u64> for Appends {
    ghost use Rattle.std.specs.Prelude.{None};
    ghost use Rattle.log_history.specs.Entries.{accepting};

    ghost ask = { λ a. accepting a.command.value.value a.next.nib.key };

    ghost state = { λ _. None };
}

/// How many more commands are committed, with the right to append the next entry.
pub(crate) struct Committing {
    pub(crate) more: u64,
    pub(crate) next: Pen,
}

impl Plain<Committing, Entry, u64> for Appends {
    ghost use Rattle.std.specs.Prelude.{None};
    ghost use Rattle.log_history.specs.Entries.{committing};

    ghost ask = { λ a. committing a.more a.next.nib.key };

    ghost state = { λ _. None };
}
