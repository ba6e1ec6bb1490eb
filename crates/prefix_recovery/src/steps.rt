//! The events of a run, one by one.

ghost use Rattle.std.specs.Prelude.{◌≡◌, ◌∷◌, [], length, IfOk, IfErr};
ghost use Rattle.group_recovery.specs.RunSteps.{IsRun};
ghost use Rattle.prefix_recovery.specs.Survival.{end_of};
ghost use Rattle.prefix_recovery.specs.TraceSteps.{trace_at, trace_after};

use crate::trace::Trace;
use group_recovery::{Event, Reply, Run, run as run_events};
use sector_dev::Device;
use std::alloc::{AllocError, Global};

/// A run without events, and its trace.
pub(crate) fn begin<D: Device>(alloc: Global, run: Run<D>) -> (Run<D>, Trace)
    ensures same { result.0 ≡ run }
    ensures trace { result.1 ≡ trace_at run }
{
    match run_events(alloc, run, &[]) {
        Ok((run, _replies)) => {
            let trace = Trace::start(&run);
            (run, trace)
        }
        Err((_run, _refused)) => unreachable!(),
    }
}

/// Makes an event, a list of one, after those of a trace. An error means that memory was refused
/// for the reply, and then the event was not made.
pub(crate) fn step<D: Device>(
    alloc: Global,
    run: Run<D>,
    trace: &Trace,
    event: &[Event],
) -> Result<(Run<D>, Reply, Trace), (Run<D>, AllocError)>
    requires one { length event.now ≡ 1 }
    requires ends { end_of trace.now ≡ run }
    ensures runs { IfOk result (λ done. IsRun event.now (done.1 ∷ []) run done.0) }
    ensures trace { IfOk result (λ done. done.2 ≡ trace_after trace.now event.now done.1 done.0) }
    ensures same { IfErr result (λ refused. refused.0 ≡ run) }
{
    let (run, replies) = match run_events(alloc, run, event) {
        Ok(done) => done,
        Err(refused) => return Err(refused),
    };
    let reply = only_reply(replies);
    let trace = trace.and(event, &reply, &run);
    Ok((run, reply, trace))
}

/// The one reply of a list.
fn only_reply(replies: Vec<Reply>) -> Reply
    requires { length replies.items ≡ 1 }
    ensures { replies.items ≡ result ∷ [] }
{
    let mut replies = replies;
    match replies.pop() {
        Some(reply) => reply,
        None => unreachable!(),
    }
}
