//! The rule over what is published and what each seat has seen of it.

use crate::ghosts::name::ReaderName;
use crate::published::Published;
use crossbeam_utils::rule::{Outcome, Protocol};
use path_db::Command;
use std::collections::LinkedList;
use std::marker::{Brand, PhantomData};

/// The published groups as far as a seat has seen them. The type exists in proofs alone.
pub struct SeenGroups {
    /// The groups, in the order in which they were published.
    pub groups: LinkedList<LinkedList<Command>>,
}

/// The readers' rule: what is published is what the hub opened with after a list of whole groups,
/// with the past log of their commands, and every seat has seen a front of that list.
pub struct ReaderRule<N> {
    of: PhantomData<N>,
}

impl<N: ReaderName> Protocol<Published, SeenGroups> for ReaderRule<N> {
    ghost use Rattle.hub_readers.specs.Shown.{KeepsRule, newcomer};

    ghost holds = { KeepsRule N.opening N.shown };

    ghost first = { newcomer };
}

/// A reader's step: the reader has then seen all groups that are published.
pub struct SeesAll<N> {
    of: PhantomData<N>,
}

impl<N: ReaderName> Outcome<Published, SeenGroups> for SeesAll<N> {
    ghost use Rattle.hub_readers.specs.Shown.{IsSeen};

    ghost then = { IsSeen N.opening N.shown };
}

/// Names the group that one step of the writer publishes. The call that publishes picks it.
pub(crate) trait GroupName {
    ghost use Rattle.std.specs.Prelude.{List};
    ghost use Rattle.path_db.specs.declared.command.Command.{Command};

    ghost group: { List Command };
}

impl GroupName for Brand {
    ghost use Rattle.std.specs.Prelude.{[]};

    ghost group = { [] };
}

/// The writer's step: one group more is published.
pub(crate) struct PublishesGroup<G> {
    of: PhantomData<G>,
}

impl<G: GroupName> Outcome<Published, SeenGroups> for PublishesGroup<G> {
    ghost use Rattle.hub_readers.specs.Shown.{HasSeenGroup};

    ghost then = { HasSeenGroup G.group };
}
