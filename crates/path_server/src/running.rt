//! A server from its first session to its last.

ghost use Rattle.std.specs.Prelude.{◌≡◌, IfNone, IfSome, IsSome, OnOk};
ghost use Rattle.sector_dev.specs.Disk.{IsHonest};
ghost use Rattle.sector_dev.specs.Image.{EveryImage};
ghost use Rattle.group_core.specs.Starting.{value_of_store};
ghost use Rattle.sector_dev.specs.Stretch.{Stretch};
ghost use Rattle.logged_state.specs.Left.{OpensToFrontOf, OpensToLog, OpensWithAll};
ghost use Rattle.logged_state.specs.Kept.{AllClaimsKept, AllShownKept};
ghost use Rattle.command_queue.specs.Orders.{commands_of, IsWithin, AreAllOf};

use crate::error::RunError;
use crate::options::Options;
use crate::reports::Reports;
use crate::server::Server;
use path_hub::{Ended, HubLeft, Reserved, with_workload};
use sector_dev::Device;
use server_front::{Listener, Listeners};
use std::alloc::Global;
use std::sync::Wait;
use std::thread::Threads;
use std::time::{Clock, Instant};

/// The home number of a server's state. A process runs one server.
const HOME: u64 = 1;

/// The parts of the system that the threads of a server use.
pub trait System: Wait + Clock + Threads + Copy + Drop + Send + Sync {}

impl<R: Wait + Clock + Threads + Copy + Drop + Send + Sync> System for R {}

/// Serves sessions over a store until the number that the options name has been started and has
/// ended. Returns that number, and the ended device with the log of all commands that were
/// accepted. An honest device opens to the store's rows and place after a front of that log with
/// all committed commands, whatever the sessions did and however the call ends. So it has each
/// command at its place that a session acknowledged: each session hands in the claims of those
/// commands at its end. At every moment since the store was opened a stop of the device would have
/// left a front of that log, and each of these commands from the moment of its commit on. Each
/// command of the log was handed in, in the log's order and once, by a sender: of a session, or of
/// the server's own purges. Where no log is left, nothing was served, and the device is the
/// store's. Errors:
///
/// - `Net`: the listener for sessions broke.
/// - `NoMemory`: the readers or a thread were not given.
///
/// Where the listener for requests of the numbers breaks, only their thread ends.
pub fn serve_store<R: System, L: Listener + Drop + Send, D: Device + Send, O: Reports + Sync>(
    rt: R,
    alloc: Global,
    listeners: Listeners<L>,
    store: Reserved<D>,
    options: &Options,
    reports: &O,
) -> (Ended<D>, Option<HubLeft>, Result<u64, RunError>)
    ensures left { IfSome result.1 (λ left. IsHonest (D.disk result.0)
        → EveryImage (D.disk result.0).history.now (OpensToLog (value_of_store store) left.log)) }
    ensures acknowledged { IfSome result.1 (λ left. IsHonest (D.disk result.0)
        → EveryImage (D.disk result.0).history.now (OpensWithAll (value_of_store store) left.acknowledged)) }
    ensures moments { IfSome result.1 (λ left.
        Stretch store.disk (D.disk result.0) (OpensToFrontOf (value_of_store store) left.log.commands 0)) }
    ensures since { IfSome result.1 (λ left. IsHonest store.disk
        → AllClaimsKept (value_of_store store) left.log (D.disk result.0).history left.acknowledged) }
    ensures looked { IfSome result.1 (λ left. IsHonest store.disk
        → AllShownKept (value_of_store store) left.log (D.disk result.0).history left.looked) }
    ensures queued { IfSome result.1 (λ left. IsWithin left.log.commands (commands_of left.queued)) }
    ensures sent { IfSome result.1 (λ left. AreAllOf left.queued left.senders) }
    ensures unmade { IfNone result.1 (D.disk result.0 ≡ store.disk) }
    ensures made { OnOk result.2 (IsSome result.1) }
{
    let begun = Instant::now(&rt).ok();
    let begun_at = seconds_since_1970(&rt);
    let server = Server::new(alloc, listeners, begun, begun_at, options, reports);
    let (device, left, attended) = with_workload(rt, alloc, store, HOME, &server);
    match attended {
        Ok(_) => (device, left, server.served()),
        Err(_) => (device, left, Err(RunError::NoMemory)),
    }
}

/// The number of seconds since 1970, or 0 where the clock cannot be read.
fn seconds_since_1970(clock: &impl Clock) -> u64 {
    match clock.since_1970() {
        Ok(since) => since.as_secs(),
        Err(_) => 0,
    }
}
