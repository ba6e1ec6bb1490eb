//! The commit values that a run holds: at most one of the flusher's and one of the checkpointer's.

ghost use Rattle.std.specs.Prelude.{◌≡◌};
ghost use Rattle.group_recovery.specs.declared.holding.HeldGroup.TheVariants.{None as no_group};
ghost use Rattle.group_recovery.specs.declared.holding.HeldPlan.TheVariants.{None as no_plan};

use group_core::{
    Closing, Durable, DurableFollowed, Followed, Following, Laid, Live, Opened, Plan, Stable,
    Staged, Switched, Written,
};
use std::mem;

/// The flusher's value.
pub(crate) enum HeldGroup {
    /// No value held.
    None,
    Staged(Staged),
    Written(Written),
    Stable(Stable),
    Opened(Opened),
    Durable(Durable),
    Following(Following),
    Followed(Followed),
    DurableFollowed(DurableFollowed),
}

/// The checkpointer's value.
pub(crate) enum HeldPlan {
    /// No value held.
    None,
    Plan(Plan),
    Laid(Laid),
    Switched(Switched),
    Live(Live),
    Closing(Closing),
}

impl HeldGroup {
    /// Holds this value, where none is out.
    pub(crate) fn put(&mut self, held: HeldGroup)
        requires { self.old ≡ no_group }
        ensures { self.new ≡ held }
    {
        mem::replace(self, held).end();
    }

    /// Consumes a slot without a value.
    pub(crate) fn end(self)
        requires { self ≡ no_group }
    {
        let HeldGroup::None = self else {
            unreachable!();
        };
    }
}

impl HeldPlan {
    /// Holds this value, where none is out.
    pub(crate) fn put(&mut self, held: HeldPlan)
        requires { self.old ≡ no_plan }
        ensures { self.new ≡ held }
    {
        mem::replace(self, held).end();
    }

    /// Consumes a slot without a value.
    pub(crate) fn end(self)
        requires { self ≡ no_plan }
    {
        let HeldPlan::None = self else {
            unreachable!();
        };
    }
}
