//! Laws of the checkpointer's steps, in any format of databases of type `Db` and commands of type
//! `C`. `T` and `E` are the types of what a call returns.

ghost use Rattle.group_phases.specs.CheckpointerSteps.{StaysUnderLargerLimits, TakesTheNewVersion, PublishesSeal, BeginsPlan, WritesBesideJournal, ChunkIsWritten, ChunksAreSynced, OpensHalf, HalfIsSynced, ClosesHalf, CloseIsSynced};

/// The parts stay when the tail's limits grow to those of the new half's version.
pub fn parts_stay_under_larger_limits<Db, C>()
    ensures flusher { StaysUnderLargerLimits C }
    ensures base { TakesTheNewVersion Db C }
{}

/// After a durable seal, the tail continues in the other journal, and the sealed half awaits its
/// checkpoint, which is planned then.
pub fn seals_are_published<Db, C>()
    ensures seal { PublishesSeal Db C }
    ensures plan { BeginsPlan Db C }
{}

/// What the checkpointer writes lies beside the tail's journal.
pub fn checkpointer_writes_lie_beside_the_journal<Db, C>()
    ensures { WritesBesideJournal Db C }
{}

/// The sectors of the new checkpoint are written and synced. Each call leaves the checkpointer's
/// part of the next phase, or that of the phase before where the call fails.
pub fn checkpoints_are_laid<T, E, Db, C>()
    ensures write { ChunkIsWritten T E Db C }
    ensures sync { ChunksAreSynced T E Db C }
{}

/// The new half's gate is written open and synced, and then the old half's gates are written closed
/// and synced. Each call leaves the checkpointer's part of the next phase, or that of a phase for
/// the failure where the call fails.
pub fn halves_are_switched<T, E, Db, C>()
    ensures open { OpensHalf T E Db C }
    ensures open_sync { HalfIsSynced T E Db C }
    ensures close { ClosesHalf T E Db C }
    ensures close_sync { CloseIsSynced T E Db C }
{}
