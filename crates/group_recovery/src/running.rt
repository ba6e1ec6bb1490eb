//! Runs of any list of events.

ghost use Rattle.std.specs.Prelude.{◌≡◌, ◌≤◌, length, IfOk, IfErr, OnErr};
ghost use Rattle.group_recovery.specs.RunSteps.{IsRun};
ghost use Rattle.group_recovery.specs.RunLeaves.{RunLeaves, lock_order};

use crate::events::{Event, Reply};
use crate::run_state::Run;
use sector_dev::Device;
use std::alloc::{AllocError, Global};

/// Makes these events, one after the other. An error means that there is no room for the replies,
/// and then no event was made. An empty list of events is never refused.
pub fn run<D: Device>(
    alloc: Global,
    run: Run<D>,
    events: &[Event],
) -> Result<(Run<D>, Vec<Reply>), (Run<D>, AllocError)>
    ensures runs { IfOk result (λ done. IsRun events.now done.1.items run done.0) }
    ensures leaves { IfOk result (λ done. RunLeaves run.state (lock_order run.state events.now done.1.items) done.0.state) }
    ensures same { IfErr result (λ refused. refused.0 ≡ run) }
    ensures memory { OnErr result (1 ≤ length events.now) }
{
    let mut replies = Vec::new(alloc);
    if let Err(refused) = replies.reserve(events.len()) {
        return Err((run, refused));
    }
    let mut run = run;
    run.stops_leave_fronts();
    for event in events {
        run.stops_leave_fronts();
        let reply = run.step(alloc, event);
        let _ = replies.push(reply);
    }
    Ok((run, replies))
}
