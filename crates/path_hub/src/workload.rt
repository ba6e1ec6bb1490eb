//! A hub with its two actors, and any number of threads beside them.

ghost use Rattle.std.specs.Prelude.{◌≡◌, ◌⊎◌, true, Option, IfErr, IfNone, IfSome, IsSome, OnOk};
ghost use Rattle.sector_dev.specs.Disk.{IsHonest};
ghost use Rattle.sector_dev.specs.Image.{EveryImage};
ghost use Rattle.group_core.specs.Starting.{value_of_store};
ghost use Rattle.group_core.specs.declared.submit_error.SubmitError.{SubmitError};
ghost use Rattle.path_db.specs.declared.command.Command.{Command};
ghost use Rattle.hub_claims.specs.declared.error.HubError.TheVariants.{NoMemory, NoReader};
ghost use Rattle.sector_dev.specs.Stretch.{Stretch};
ghost use Rattle.logged_state.specs.Left.{OpensToFrontOf, OpensToLog, OpensWithAll};
ghost use Rattle.logged_state.specs.Kept.{AllClaimsKept, AllShownKept};
ghost use Rattle.command_queue.specs.Orders.{commands_of, IsWithin, AreAllOf};

use crate::hub::Hub;
use crate::left::HubLeft;
use crate::new_name::NewName;
use command_queue::Senders;
use hub_claims::{HubError, HubName};
use logged_state::{Ended, Reserved};
use sector_dev::Device;
use std::alloc::Global;
use std::marker::Brand;
use std::sync::Wait;
use std::thread;
use std::thread::Threads;
use std::time::Clock;
use store_loops::{Notice, Watch, checkpointer_loop, flusher_loop};

/// The work of threads with a hub: tasks arrive one by one, and each is attended to in a thread of
/// its own. A workload cannot name a hub itself, so all that a task gets is of this hub.
pub trait Workload<D: Device, R: Wait + Clock> {
    /// What one thread attends to. A task is copied, so that the workload learns for which one no
    /// thread was given. What a thread alone may own, such as a connection, the workload keeps
    /// under the task's number until the thread takes it.
    type Task: Copy + Send;

    /// The next task, or `None` once no more are to come. The call may wait for one. It is made
    /// once the threads of both actors were given, and after the last task was given a thread or
    /// missed.
    fn next<N: HubName>(&self, hub: &Hub<D, N, R>) -> Option<Self::Task>;

    /// Attends to a task, in a thread of its own. Nothing else of a workload can hand in commands,
    /// nor can the hub by itself, since this call alone gets what begins a sender.
    fn attend<N: HubName>(&self, hub: &Hub<D, N, R>, senders: &Senders<N>, task: Self::Task);

    /// Notes that no thread was given for this task, so that nobody attends to it.
    fn miss<N: HubName>(&self, hub: &Hub<D, N, R>, task: Self::Task);

    /// Takes a notice of the flusher or of the checkpointer. Their threads call this, between two
    /// calls of the state.
    fn note<N: HubName>(&self, _hub: &Hub<D, N, R>, _notice: Notice) {}

    /// The flusher has ended, as the state has stopped: because a device failed, or because `stop`
    /// was called, as it is once all tasks have been attended to. The flusher's thread calls this,
    /// where both actors were given their threads.
    fn stopped(&self) {}

    /// The flusher has ended, as the state was halted: a step had refused the value of an actor as
    /// a stranger. Only a defect of the program leads there. The flusher's thread calls this in
    /// place of `stopped`.
    fn met_stranger(&self) {}
}

/// A workload that takes the notices of a hub's actors.
#[derive_where(Clone, Copy)]
struct Watching<'a, D: Device, N: HubName, R: Wait + Clock, C> {
    hub: &'a Hub<D, N, R>,
    workload: &'a C,
}

impl<D: Device, N: HubName, R: Wait + Clock, C: Workload<D, R>> Watch for Watching<'_, D, N, R, C> {
    fn note(&self, notice: Notice) {
        self.workload.note::<N>(self.hub, notice);
    }
}

/// Makes a hub over a store, starts the flusher, the checkpointer and a thread for each task, and
/// returns the number of tasks that were attended to (a count that stays at 2^64 - 1) once the last
/// of these threads has ended. Then the state is stopped and the actors end. The ended device is
/// returned in every case, and with it the log of all commands that the state accepted, if there
/// was a hub: an honest device opens to that log. Where the hub or an actor's thread is not given,
/// the error is `NoMemory` or `NoReader`. The caller gives each state of a process a home number of
/// its own.
pub fn with_workload<
    D: Device + Send,
    C: Workload<D, R> + Sync,
    R: Wait + Clock + Threads + Copy + Drop + Send + Sync,
>(
    rt: R,
    alloc: Global,
    store: Reserved<D>,
    home: u64,
    workload: &C,
) -> (Ended<D>, Option<HubLeft>, Result<u64, HubError>)
    // Whatever the threads did and however the call ends, a device that is honest opens to the log
    // that is left. Where none is left, no hub was made, and the device is the store's.
    ensures left { IfSome result.1 (λ left. IsHonest (D.disk result.0)
        → EveryImage (D.disk result.0).history.now (OpensToLog (value_of_store store) left.log)) }

    // That has each command at its place whose claim was handed in as acknowledged.
    ensures acknowledged { IfSome result.1 (λ left. IsHonest (D.disk result.0)
        → EveryImage (D.disk result.0).history.now (OpensWithAll (value_of_store store) left.acknowledged)) }

    // At every moment since the store was opened, what a stop of the device leaves opens to the
    // store's rows and place after a front of the log.
    ensures moments { IfSome result.1 (λ left.
        Stretch store.disk (D.disk result.0) (OpensToFrontOf (value_of_store store) left.log.commands 0)) }

    // It has each of these commands at its place from the moment on at which it was committed.
    ensures since { IfSome result.1 (λ left. IsHonest store.disk
        → AllClaimsKept (value_of_store store) left.log (D.disk result.0).history left.acknowledged) }

    // What a session was shown last, if it handed that in, is a front of the log that is committed.
    // From the moment on at which its last command was committed, a stop leaves a front of the log
    // that has it.
    ensures looked { IfSome result.1 (λ left. IsHonest store.disk
        → AllShownKept (value_of_store store) left.log (D.disk result.0).history left.looked) }

    // Each command of the log was handed in by a sender: the log is a part of what was handed in,
    // in the same order and each once.
    ensures queued { IfSome result.1 (λ left. IsWithin left.log.commands (commands_of left.queued)) }

    // What a sender had handed in, if it was given back, is all that was handed in of it.
    ensures sent { IfSome result.1 (λ left. AreAllOf left.queued left.senders) }
    ensures unmade { IfNone result.1 (D.disk result.0 ≡ store.disk) }
    ensures made { OnOk result.2 (IsSome result.1) }
    ensures why { IfErr result.2 (λ e. (e ≡ NoMemory) ⊎ (e ≡ NoReader)) }
{
    let Ok(name) = NewName::new(alloc) else {
        return (store.end(), None, Err(HubError::NoMemory));
    };
    named_workload::<Brand, D, C, R>(rt, alloc, name, store, home, workload)
}

/// An open hub, and what begins the senders of its queue.
struct OpenHub<D: Device, N: HubName, R: Wait + Clock> {
    hub: Hub<D, N, R>,
    senders: Senders<N>,
}

/// `with_workload` for one brand `N`, which ties readers and claims to this hub.
fn named_workload<
    N: HubName + Send + Sync,
    D: Device + Send,
    C: Workload<D, R> + Sync,
    R: Wait + Clock + Threads + Copy + Drop + Send + Sync,
>(
    rt: R,
    alloc: Global,
    name: NewName,
    store: Reserved<D>,
    home: u64,
    workload: &C,
) -> (Ended<D>, Option<HubLeft>, Result<u64, HubError>)
    requires opening { value_of_store store ≡ N.opening }
    requires start { store.disk ≡ N.start }
    requires log { name.log.table ≡ N.table }
    requires history { name.history.seen.book ≡ N.history }
    requires senders { name.history.desk.keeper.table_id ≡ N.senders }
    requires shown { name.shown.book ≡ N.shown }
    requires shut { N.shut ≡ true }
    requires refusals { (command : Command) (why : Option SubmitError) → N.refused command why ≡ true }
    ensures left { IfSome result.1 (λ left. IsHonest (D.disk result.0) → EveryImage (D.disk result.0).history.now (OpensToLog N.opening left.log)) }
    ensures acknowledged { IfSome result.1 (λ left. IsHonest (D.disk result.0)
        → EveryImage (D.disk result.0).history.now (OpensWithAll N.opening left.acknowledged)) }
    ensures moments { IfSome result.1 (λ left.
        Stretch N.start (D.disk result.0) (OpensToFrontOf N.opening left.log.commands 0)) }
    ensures since { IfSome result.1 (λ left. IsHonest N.start
        → AllClaimsKept N.opening left.log (D.disk result.0).history left.acknowledged) }
    ensures looked { IfSome result.1 (λ left. IsHonest N.start
        → AllShownKept N.opening left.log (D.disk result.0).history left.looked) }
    ensures queued { IfSome result.1 (λ left. IsWithin left.log.commands (commands_of left.queued)) }
    ensures sent { IfSome result.1 (λ left. AreAllOf left.queued left.senders) }
    ensures unmade { IfNone result.1 (D.disk result.0 ≡ store.disk) }
    ensures made { OnOk result.2 (IsSome result.1) }
    ensures why { IfErr result.2 (λ e. (e ≡ NoMemory) ⊎ (e ≡ NoReader)) }
{
    let open = match Hub::<D, N, R>::open(rt, alloc, name, store, home) {
        Ok((hub, senders)) => OpenHub { hub, senders },
        Err((store, refused)) => return (store.end(), None, Err(refused)),
    };
    let attended = run_with_waker(&rt, &open, workload);
    let OpenHub {
        hub,
        senders: _senders,
    } = open;
    let (device, left) = hub.close();
    (device, Some(left), attended)
}

/// Runs the waker's thread while the actors run and tasks are attended to, and then stops the
/// state.
fn run_with_waker<
    N: HubName + Send + Sync,
    D: Device + Send,
    C: Workload<D, R> + Sync,
    R: Wait + Clock + Threads + Drop + Send + Sync,
>(rt: &R, open: &OpenHub<D, N, R>, workload: &C) -> Result<u64, HubError>
    ensures { IfErr result (λ e. e ≡ NoMemory) }
{
    thread::scope(
        thread::scope_env(),
        rt,
        |waker| -> Result<u64, HubError>
            ensures { IfErr result (λ e. e ≡ NoMemory) }
        {
            if waker.spawn(move || run_waker(open)).is_err() {
                return Err(HubError::NoMemory);
            }
            let attended = run_with_checkpointer(open.hub.handle(), open, workload);
            open.hub.stop();
            attended
        },
    )
}

/// Runs both actors while tasks are attended to, and then stops them. The flusher starts last, so
/// that the workload is not called where the thread of an actor is not given.
fn run_with_checkpointer<
    N: HubName + Send + Sync,
    D: Device + Send,
    C: Workload<D, R> + Sync,
    R: Wait + Clock + Threads + Drop + Send + Sync,
>(rt: &R, open: &OpenHub<D, N, R>, workload: &C) -> Result<u64, HubError>
    ensures { IfErr result (λ e. e ≡ NoMemory) }
{
    thread::scope(
        thread::scope_env(),
        rt,
        |checkpointer| -> Result<u64, HubError>
            ensures { IfErr result (λ e. e ≡ NoMemory) }
        {
            if checkpointer
                .spawn(move || run_checkpointer(open, workload))
                .is_err()
            {
                return Err(HubError::NoMemory);
            }
            open.hub.expect_threads();
            let attended = run_with_flusher(open.hub.handle(), open, workload);
            open.hub.stop();
            attended
        },
    )
}

/// Runs the flusher while tasks are attended to, and then stops it.
fn run_with_flusher<
    N: HubName + Send + Sync,
    D: Device + Send,
    C: Workload<D, R> + Sync,
    R: Wait + Clock + Threads + Drop + Send + Sync,
>(rt: &R, open: &OpenHub<D, N, R>, workload: &C) -> Result<u64, HubError>
    ensures { IfErr result (λ e. e ≡ NoMemory) }
{
    thread::scope(
        thread::scope_env(),
        rt,
        |flusher| -> Result<u64, HubError>
            ensures { IfErr result (λ e. e ≡ NoMemory) }
        {
            if flusher.spawn(move || run_flusher(open, workload)).is_err() {
                return Err(HubError::NoMemory);
            }
            let attended = attend_all(open.hub.handle(), open, workload);
            open.hub.stop();
            Ok(attended)
        },
    )
}

/// Runs the checkpointer until the state stops.
fn run_checkpointer<N: HubName, D: Device, C: Workload<D, R>, R: Wait + Clock>(
    open: &OpenHub<D, N, R>,
    workload: &C,
) {
    let hub = &open.hub;
    checkpointer_loop(hub.handle(), hub, &Watching { hub, workload });
}

/// Wakes the threads whose commands are answered, until the state stops.
fn run_waker<N: HubName, D: Device, R: Wait + Clock>(open: &OpenHub<D, N, R>) {
    open.hub.changes.waker.run(open.hub.handle());
}

/// Runs the flusher until the state stops, and reports to the workload why it did.
fn run_flusher<N: HubName, D: Device, C: Workload<D, R>, R: Wait + Clock>(
    open: &OpenHub<D, N, R>,
    workload: &C,
) {
    let hub = &open.hub;
    flusher_loop(hub.handle(), hub, &Watching { hub, workload });
    if hub.has_stranger() {
        workload.met_stranger();
    } else {
        workload.stopped();
    }
}

/// Starts a thread for each task, and returns the number that were started once all have ended.
fn attend_all<
    N: HubName + Send + Sync,
    D: Device + Send,
    C: Workload<D, R> + Sync,
    R: Wait + Clock + Threads + Drop + Send + Sync,
>(rt: &R, open: &OpenHub<D, N, R>, workload: &C) -> u64 {
    thread::scope(thread::scope_env(), rt, |tasks| {
        let mut attended = 0u64;
        for _ in 0..u64::MAX {
            let Some(task) = workload.next::<N>(&open.hub) else {
                break;
            };
            if tasks.spawn(move || attend(open, workload, task)).is_ok() {
                attended = attended.saturating_add(1);
            } else {
                workload.miss::<N>(&open.hub, task);
            }
        }
        attended
    })
}

fn attend<N: HubName, D: Device, C: Workload<D, R>, R: Wait + Clock>(
    open: &OpenHub<D, N, R>,
    workload: &C,
    task: C::Task,
) {
    workload.attend::<N>(&open.hub, &open.senders, task)
}
