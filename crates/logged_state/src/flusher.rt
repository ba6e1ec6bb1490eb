//! The flusher's steps on the device.

ghost use Rattle.std.specs.Prelude.{◌≡◌};
ghost use Rattle.group_phases.specs.declared.phases.Flush.TheVariants.{Staged as staged, Written as written, Stable as stable};
ghost use Rattle.group_phases.specs.declared.phases.Flush.TheVariants.{Opened as opened, Doubtful as doubtful, Durable as durable};
ghost use Rattle.group_core.specs.Stops.{StepLeaves};
ghost use Rattle.group_core.specs.Steps.{FlushStep};
ghost use Rattle.group_core.specs.StepCalls.{StepCall, Sync, load_write, gate_write};

use crate::ghosts::name::StateName;
use crate::state::LoggedState;
use group_core::{
    AtOpened, AtStable, AtStaged, AtWritten, Durable, Opened, Showcase, Stable, Staged, StepError,
    Written,
};
use sector_dev::Device;

impl<D: Device, S: Showcase, B: StateName> LoggedState<D, S, B> {
    /// `State::write_group`.
    pub fn write_group(&mut self, value: Staged) -> Result<Written, StepError<AtStaged>>
        ensures step { FlushStep staged written staged value result self.old.state self.new.state }
        ensures call { StepCall (load_write self.old.state) result self.old.state.disk self.new.state.disk }
        ensures any_moment { StepLeaves self.old.state self.new.state }
        ensures log { self.new.log ≡ self.old.log }
    {
        self.state.write_group(value)
    }

    /// `State::sync_group`.
    pub fn sync_group(&mut self, value: Written) -> Result<Stable, StepError<AtWritten>>
        ensures step { FlushStep written stable written value result self.old.state self.new.state }
        ensures call { StepCall Sync result self.old.state.disk self.new.state.disk }
        ensures any_moment { StepLeaves self.old.state self.new.state }
        ensures log { self.new.log ≡ self.old.log }
    {
        self.state.sync_group(value)
    }

    /// `State::open_gate`.
    pub fn open_gate(&mut self, value: Stable) -> Result<Opened, StepError<AtStable>>
        ensures step { FlushStep stable opened doubtful value result self.old.state self.new.state }
        ensures call { StepCall (gate_write self.old.state) result self.old.state.disk self.new.state.disk }
        ensures any_moment { StepLeaves self.old.state self.new.state }
        ensures log { self.new.log ≡ self.old.log }
    {
        self.state.open_gate(value)
    }

    /// `State::sync_gate`.
    pub fn sync_gate(&mut self, value: Opened) -> Result<Durable, StepError<AtOpened>>
        ensures step { FlushStep opened durable opened value result self.old.state self.new.state }
        ensures call { StepCall Sync result self.old.state.disk self.new.state.disk }
        ensures any_moment { StepLeaves self.old.state self.new.state }
        ensures log { self.new.log ≡ self.old.log }
    {
        self.state.sync_gate(value)
    }
}
