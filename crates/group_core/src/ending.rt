//! The end of a state.

ghost use Rattle.sector_dev.specs.Disk.{IsHonest};
ghost use Rattle.sector_dev.specs.Image.{EveryImage};
ghost use Rattle.std.specs.Prelude.{◌≡◌, [], IfOk, OnOk, take};
ghost use Rattle.group_core.specs.Stops.{MayOpen, StepLeaves};
ghost use Rattle.group_core.specs.Showing.{IsFrontOf};
ghost use Rattle.group_core.specs.Ending.{Abandons, HandsOut, HoldsStoreOf, durable_of};

use crate::showcase::Showcase;
use crate::state::State;
use crate::values::Durable;
use group_phases::Flush;
use sector_dev::Device;

impl<D: Device, S: Showcase> State<D, S> {
    /// Abandons a durable group or seal, where the state has stopped: the group or seal is not
    /// published any more, and its value is spent. Where the state goes on, or it is not this
    /// value's turn, the value is returned. The call does not use the device, and takes no memory.
    pub fn abandon(&mut self, value: Durable) -> Result<(), Durable>
        ensures abandons { Abandons value result self.old self.new }
        ensures any_moment { StepLeaves self.old self.new }
    {
        let is_turn = self.flush == Flush::Durable && value.is_of(self.home, self.group.number);
        if !is_turn || !self.stopped {
            return Err(value);
        }
        self.group.spend(value);
        Ok(())
    }

    /// Returns the device, unless an outcome is still kept or a commit value is still out. In that
    /// case the state is returned. The call does not use the device, and takes no memory.
    pub fn into_device(self) -> Result<D, State<D, S>>
    where
        S: Drop,
        ensures answer { HandsOut D.disk result self }
        ensures left { OnOk result (IsHonest self.disk → EveryImage self.disk.history.now (MayOpen self)) }

        // With nothing pending, the device opens to the rows that are committed, at their place.
        ensures at_rest { IfOk result (λ device. IsHonest (D.disk device) → self.pending ≡ [] → HoldsStoreOf self.value (D.disk device)) }
    {
        if !self.kept.is_empty() || self.group.out || self.plan.out {
            return Err(self);
        }
        let (device, _show) = self.into_parts();
        Ok(device)
    }

    /// Ends the state, whatever is kept or out, and returns the device and the showcase. The call
    /// does not use the device.
    pub fn into_parts(self) -> (D, S)
        ensures device { D.disk result.0 ≡ self.disk }
        ensures show { S.value result.1 ≡ self.value }
        ensures list { S.list result.1 ≡ self.shown }

        // Memory was refused to the showcase only for commands that are durable.
        ensures owed { IsFrontOf (S.owed result.1) (take (durable_of self) self.pending) }
    {
        let State {
            alloc: _alloc,
            device,
            geometry: _geometry,
            home: _home,
            show,
            place: _place,
            tip: _tip,
            pending: _pending,
            kept: _kept,
            taken: _taken,
            following: _following,
            staged: _staged,
            staged_next: _staged_next,
            flush: _flush,
            group: _group,
            check: _check,
            plan: _plan,
            half: _half,
            gate: _gate,
            epoch: _epoch,
            version: _version,
            merge: _merge,
            written: _written,
            preparation: _preparation,
            stopped: _stopped,
        } = self;
        (device, show)
    }
}
