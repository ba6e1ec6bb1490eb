//! The end of a run.

ghost use Rattle.std.specs.Prelude.{◌≡◌};
ghost use Rattle.group_recovery.specs.Winding.{WindsUp, ending_events};

use crate::events::Event;
use crate::run_state::Run;
use sector_dev::Device;

/// The events that stop a state and spend the values that are out.
fn endings() -> [Event; 15]
    ensures { result ≡ ending_events }
{
    [
        Event::Halt,
        Event::WriteFollowing,
        Event::SyncFollowed,
        Event::PublishFollowed,
        Event::WriteGroup,
        Event::SyncGroup,
        Event::OpenGate,
        Event::SyncGate,
        Event::Publish,
        Event::WriteChunk,
        Event::SyncChunks,
        Event::OpenHalf,
        Event::SyncHalf,
        Event::CloseHalf,
        Event::SyncClose,
    ]
}

impl<D: Device> Run<D> {
    /// Stops the state, spends the values that are out, redeems every ticket, and returns the
    /// device. Where nothing is pending then, the device opens to the committed rows. Where memory
    /// is refused for a durable group, or an outcome is kept whose ticket is not in the run, the
    /// run is returned.
    pub fn wind_up(self) -> Result<D, Run<D>>
        ensures { WindsUp D.disk result self }
    {
        let mut run = self;
        let alloc = run.alloc();
        let count = run.count();
        let endings = endings();
        run.stops_leave_fronts();
        for event in &endings {
            run.stops_leave_fronts();
            run.step(alloc, event);
        }
        for k in 0..count {
            run.stops_leave_fronts();
            run.step(alloc, &Event::Redeem(k));
        }
        run.into_device()
    }
}
