//! Staging, and preparing and beginning a checkpoint.

ghost use Rattle.std.specs.Prelude.{◌≡◌};
ghost use Rattle.group_core.specs.Stops.{StepLeaves};
ghost use Rattle.group_core.specs.Staging.{Stages};
ghost use Rattle.group_core.specs.Beginning.{BeginsCheckpoint, PreparesCheckpoint};

use crate::ghosts::name::StateName;
use crate::state::LoggedState;
use group_core::{BeginError, Plan, Prepared, Showcase, StageError, Staged};
use sector_dev::Device;

impl<D: Device, S: Showcase, B: StateName> LoggedState<D, S, B> {
    /// `State::stage`.
    pub fn stage(&mut self) -> Result<Staged, StageError>
        ensures step { Stages result self.old.state self.new.state }
        ensures any_moment { StepLeaves self.old.state self.new.state }
        ensures log { self.new.log ≡ self.old.log }
    {
        self.state.stage()
    }

    /// `State::prepare`.
    pub fn prepare(&mut self) -> Result<Prepared, BeginError>
        ensures step { PreparesCheckpoint result self.old.state self.new.state }
        ensures any_moment { StepLeaves self.old.state self.new.state }
        ensures log { self.new.log ≡ self.old.log }
    {
        self.state.prepare()
    }

    /// `State::begin`.
    pub fn begin(&mut self) -> Result<Plan, BeginError>
        ensures step { BeginsCheckpoint result self.old.state self.new.state }
        ensures any_moment { StepLeaves self.old.state self.new.state }
        ensures log { self.new.log ≡ self.old.log }
    {
        self.state.begin()
    }
}
