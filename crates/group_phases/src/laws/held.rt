//! Laws of the calls on a device that holds what a state represents, in any format of databases of
//! type `Db` and commands of type `C`. `T` and `E` are the types of what a call returns.

ghost use Rattle.group_phases.specs.declared.phases.Flush.TheVariants.{Written, Stable, Opened, Durable, Followed, DurableFollowed};
ghost use Rattle.group_phases.specs.declared.phases.Check.TheVariants.{Ready, Switched, Live, Closing};
ghost use Rattle.group_phases.specs.HeldChecks.{HeldWhileChunkIsWritten, HeldWhileChunksAreSynced, HeldWhileHalfIsOpened, HeldWhileHalfIsClosed, HeldWhileHalfIsSynced};
ghost use Rattle.group_phases.specs.HeldTurns.{HeldWhenGroupIsPublished, HeldWhenSealIsPublished, HeldWhenPlanBegins, HeldUnderTheNewVersion};
ghost use Rattle.group_phases.specs.HeldFollowing.{HeldWhenFollowerIsStaged, HeldWhileFollowerIsWritten, HeldWhenFollowedIsPublished};
ghost use Rattle.group_phases.specs.HeldCommands.{HeldWhenAccepted, HeldWhenGroupIsStaged, HeldWhenSealIsStaged};
ghost use Rattle.group_phases.specs.HeldSteps.{HeldWhileLoadIsWritten, HeldWhileGateIsOpened, HeldWhileSynced, WritesLeaveFronts, SyncsLeaveFronts};

/// Each call of the flusher leaves a device that holds what the state then represents, in whatever
/// phase the checkpointer is.
pub fn flusher_calls_are_held<T, E, Db, C>()
    ensures write { HeldWhileLoadIsWritten T E Db C }
    ensures sync { HeldWhileSynced Written Stable T E Db C }
    ensures gate { HeldWhileGateIsOpened T E Db C }
    ensures gate_sync { HeldWhileSynced Opened Durable T E Db C }
{}

/// Each call of the checkpointer leaves a device that holds what the state then represents, in
/// whatever phase the flusher is.
pub fn checkpointer_calls_are_held<T, E, Db, C>()
    ensures chunk { HeldWhileChunkIsWritten T E Db C }
    ensures chunks_sync { HeldWhileChunksAreSynced T E Db C }
    ensures open { HeldWhileHalfIsOpened T E Db C }
    ensures open_sync { HeldWhileHalfIsSynced Switched Live T E Db C }
    ensures close { HeldWhileHalfIsClosed T E Db C }
    ensures close_sync { HeldWhileHalfIsSynced Closing Ready T E Db C }
{}

/// After a command is accepted, or a group or a seal is staged, the device holds what the state
/// then represents.
pub fn commands_are_held<Db, C>()
    ensures accepted { HeldWhenAccepted Db C }
    ensures group { HeldWhenGroupIsStaged Db C }
    ensures seal { HeldWhenSealIsStaged Db C }
{}

/// After a durable group or seal is published, a plan begins, or the new half's version counts, the
/// device holds what the state then represents.
pub fn turns_are_held<Db, C>()
    ensures group { HeldWhenGroupIsPublished Db C }
    ensures seal { HeldWhenSealIsPublished Db C }
    ensures plan { HeldWhenPlanBegins Db C }
    ensures version { HeldUnderTheNewVersion Db C }
{}

/// A group that follows the group in flight is staged after the tail's gate was written open, and
/// is written before that gate is synced. One sync then makes the gate durable and the following
/// group stable, and publishing leaves the following group in flight. After each, the device holds
/// what the state then represents, in whatever phase the checkpointer is.
pub fn followers_are_held<T, E, Db, C>()
    ensures staged { HeldWhenFollowerIsStaged Db C }
    ensures write { HeldWhileFollowerIsWritten T E Db C }
    ensures sync { HeldWhileSynced Followed DurableFollowed T E Db C }
    ensures published { HeldWhenFollowedIsPublished Db C }
{}

/// A stop within a write leaves what opens to a front that a stop before or after the write may
/// keep. A stop within a sync leaves what opens to a front that a stop before the sync may keep.
pub fn calls_leave_fronts<T, E, Db, C>()
    ensures write { WritesLeaveFronts T E Db C }
    ensures sync { SyncsLeaveFronts T E Db C }
{}
