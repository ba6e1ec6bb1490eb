//! Laws of a group that follows the group in flight, in any format of commands of type `C`. `T` and
//! `E` are the types of what a call returns.

ghost use Rattle.group_phases.specs.FollowingSteps.{WritesFollower, SyncsFollower, PublishesFollower, KeepsFollower};

/// The following group is written after the gate of the group in flight was written and before that
/// gate is synced. One sync then makes that gate durable and the following group stable. Where a
/// call fails, it leaves the parts of the phase before it.
pub fn followers_go_on<T, E, C>()
    ensures write { WritesFollower T E C }
    ensures sync { SyncsFollower T E C }
{}

/// A durable group that is followed becomes one of the tail's groups, and the following group is
/// then in flight at the phase `Stable`.
pub fn followers_are_published<C>()
    ensures { PublishesFollower C }
{}

/// The following group's part stays where the title and the tail's journal are untouched.
pub fn followers_stay_where_untouched<C>()
    ensures { KeepsFollower C }
{}
