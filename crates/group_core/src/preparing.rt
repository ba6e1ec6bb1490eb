//! Preparing a checkpoint: the sealed half is read in pieces before its checkpoint is begun.

ghost use Rattle.group_core.specs.Stops.{StepLeaves};
ghost use Rattle.group_core.specs.Beginning.{IsPrepared, PreparesCheckpoint};

use crate::beginning::BeginError;
use crate::showcase::Showcase;
use crate::state::State;
use sector_dev::Device;
use store_open::SealedError;

/// How much of the sealed half is read after a piece of it was prepared.
#[derive(Clone, Copy, Debug, PartialEq, Eq)]
pub enum Prepared {
    /// A part of it: another call of `prepare` reads on.
    Part = 1,
    /// All of it: `begin` reads only what the first sectors of the checkpoint are made of.
    Whole = 2,
}

impl<D: Device, S: Showcase> State<D, S> {
    /// Reads the next piece of the sealed half, which is 64 sectors or, in the journal, as much
    /// more as the last group of the piece has, and keeps what `begin` needs of it. Once all is
    /// read, a call applies the next commands of the journal to the rows that they name. After a
    /// bounded number of calls all of that half is prepared. What is prepared, and whether anything
    /// is, makes no difference to what `begin` plans: it reads what is not prepared. The call only
    /// reads the device, and other steps may come between two of these calls. It is refused as
    /// `begin` is, in the same order. Where memory is refused, what was prepared is dropped.
    pub fn prepare(&mut self) -> Result<Prepared, BeginError>
        ensures step { PreparesCheckpoint result self.old self.new }
        ensures any_moment { StepLeaves self.old self.new }
    {
        self.may_begin()?;
        let half = self.half.other();
        match self
            .preparation
            .read_on(self.alloc, &mut self.device, self.geometry, half)
        {
            Ok(()) => Ok(self.prepared()),
            Err(SealedError::NoMemory) => Err(BeginError::NoMemory),
            Err(SealedError::Fault) => {
                self.stopped = true;
                Err(BeginError::Fault)
            }
            Err(SealedError::Damaged) => {
                self.stopped = true;
                Err(BeginError::Damaged)
            }
        }
    }

    /// How much of the sealed half is prepared.
    fn prepared(&self) -> Prepared
        ensures { IsPrepared result self.now.unprepared }
    {
        if self.preparation.is_whole() {
            Prepared::Whole
        } else {
            Prepared::Part
        }
    }
}
