//! The flusher's steps on the device.

ghost use Rattle.group_phases.specs.declared.phases.Flush.TheVariants.{Staged as staged, Written as written, Stable as stable};
ghost use Rattle.group_phases.specs.declared.phases.Flush.TheVariants.{Opened as opened, Doubtful as doubtful, Durable as durable};
ghost use Rattle.group_core.specs.Stops.{StepLeaves};
ghost use Rattle.group_core.specs.Steps.{FlushStep, TakesGroupTurn};
ghost use Rattle.group_core.specs.StepCalls.{StepCall, Sync, load_write, gate_write};

use crate::error::StepError;
use crate::phases::{AtDurable, AtOpened, AtStable, AtStaged, AtWritten};
use crate::showcase::Showcase;
use crate::state::State;
use crate::values::{Commit, Durable, Opened, Stable, Staged, Written};
use byte_lists::open_gate;
use group_phases::Flush;
use sector_dev::Device;

impl<D: Device, S: Showcase> State<D, S> {
    /// Writes what is staged after the tail's gate, in one write. While that gate is closed nothing
    /// of it counts, however much of it a stop keeps. A group's write ends with the next gate,
    /// closed: what was there before may read open, and would be read as a group's gate once the
    /// tail's gate is open.
    pub fn write_group(&mut self, value: Staged) -> Result<Written, StepError<AtStaged>>
        ensures step { FlushStep staged written staged value result self.old self.new }
        ensures call { StepCall (load_write self.old) result self.old.disk self.new.disk }
        ensures any_moment { StepLeaves self.old self.new }
    {
        let value = self.group_turn(Flush::Staged, value)?;
        let at = self.geometry.journal_at(self.half) + (self.gate + 1);
        match self.device.write(at, &self.staged) {
            Ok(()) => {
                self.flush = Flush::Written;
                Ok(value.at(AtWritten))
            }
            Err(_) => Err(self.group.fault(&mut self.stopped, value)),
        }
    }

    /// Syncs what was written. The payload must be on the disk before its gate can be: an open gate
    /// makes what is after it count.
    pub fn sync_group(&mut self, value: Written) -> Result<Stable, StepError<AtWritten>>
        ensures step { FlushStep written stable written value result self.old self.new }
        ensures call { StepCall Sync result self.old.disk self.new.disk }
        ensures any_moment { StepLeaves self.old self.new }
    {
        let value = self.group_turn(Flush::Written, value)?;
        match self.device.sync() {
            Ok(()) => {
                self.flush = Flush::Stable;
                Ok(value.at(AtStable))
            }
            Err(_) => Err(self.group.fault(&mut self.stopped, value)),
        }
    }

    /// Writes the tail's gate open. One byte of this sector decides, so a stop keeps the whole
    /// group or seal, or nothing of it. Where the write fails, it is not known whether the gate is
    /// open, and the state has stopped.
    pub fn open_gate(&mut self, value: Stable) -> Result<Opened, StepError<AtStable>>
        ensures step { FlushStep stable opened doubtful value result self.old self.new }
        ensures call { StepCall (gate_write self.old) result self.old.disk self.new.disk }
        ensures any_moment { StepLeaves self.old self.new }
    {
        let value = self.group_turn(Flush::Stable, value)?;
        let at = self.geometry.journal_at(self.half) + self.gate;
        match self.device.write(at, &open_gate()) {
            Ok(()) => {
                self.flush = Flush::Opened;
                Ok(value.at(AtOpened))
            }
            Err(_) => {
                self.flush = Flush::Doubtful;
                Err(self.group.fault(&mut self.stopped, value))
            }
        }
    }

    /// Syncs the gate: from then on every stop keeps what was in flight. A group counts as
    /// committed only once no stop can lose its gate, so this comes before `publish`.
    pub fn sync_gate(&mut self, value: Opened) -> Result<Durable, StepError<AtOpened>>
        ensures step { FlushStep opened durable opened value result self.old self.new }
        ensures call { StepCall Sync result self.old.disk self.new.disk }
        ensures any_moment { StepLeaves self.old self.new }
    {
        let value = self.group_turn(Flush::Opened, value)?;
        match self.device.sync() {
            Ok(()) => {
                self.flush = Flush::Durable;
                Ok(value.at(AtDurable))
            }
            Err(_) => Err(self.group.fault(&mut self.stopped, value)),
        }
    }

    /// Returns the value, where it is its turn and the state goes on. A state that has stopped
    /// spends the value.
    pub(crate) fn group_turn<P: Copy>(
        &mut self,
        phase: Flush,
        value: Commit<P>,
    ) -> Result<Commit<P>, StepError<P>>
        ensures turn { TakesGroupTurn phase value result self.old self.new }
        ensures any_moment { StepLeaves self.old self.new }
    {
        if self.flush != phase || !value.is_of(self.home, self.group.number) {
            return Err(StepError::Stranger(value));
        }
        if self.stopped {
            self.group.spend(value);
            return Err(StepError::Stopped);
        }
        Ok(value)
    }
}
