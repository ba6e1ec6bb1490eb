//! Laws of what one actor leaves to the other, in any format of databases of type `Db` and commands
//! of type `C`. `T` and `E` are the types of what a call returns.

ghost use Rattle.group_phases.specs.Kept.{KeepsFlusherPart, KeepsBasePart, TailWritesLeaveBase, BaseWritesLeaveTail, SyncsLeaveBoth};

/// Each actor's part stays where its ranges are untouched, whatever its phase.
pub fn parts_stay_where_untouched<Db, C>()
    ensures flusher { KeepsFlusherPart C }
    ensures base { KeepsBasePart Db C }
{}

/// A write into the tail's journal leaves the checkpointer's ranges untouched, a write beside it
/// the flusher's, and a sync both, whatever the results.
pub fn calls_leave_the_other_part<T, E>()
    ensures tail { TailWritesLeaveBase T E }
    ensures base { BaseWritesLeaveTail T E }
    ensures sync { SyncsLeaveBoth T E }
{}
