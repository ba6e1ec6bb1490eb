//! Laws of the flusher's steps, in any format of commands of type `C`. `T` and `E` are the types of
//! what a call returns.

ghost use Rattle.group_phases.specs.FlusherSteps.{WritesInJournal, WritesLoad, OpensTailGate, SyncsLoad, SyncsTailGate, PublishesGroup};

/// What the flusher writes lies in the tail's journal.
pub fn flusher_writes_lie_in_the_journal<C>()
    ensures { WritesInJournal C }
{}

/// What is in flight is written and synced after the tail's gate, and then that gate is written and
/// synced. Each call leaves the flusher's part of the next phase, or that of a phase for the
/// failure where the call fails.
pub fn flusher_calls_go_on<T, E, C>()
    ensures write { WritesLoad T E C }
    ensures sync { SyncsLoad T E C }
    ensures gate { OpensTailGate T E C }
    ensures gate_sync { SyncsTailGate T E C }
{}

/// A durable group becomes one of the tail's groups.
pub fn durable_groups_are_published<C>()
    ensures { PublishesGroup C }
{}
