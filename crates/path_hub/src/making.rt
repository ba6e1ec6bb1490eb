//! Making a hub, and its end.

ghost use Rattle.std.specs.Prelude.{◌≡◌, ◌⊎◌, true, Option, IfOk, IfErr};
ghost use Rattle.sector_dev.specs.Disk.{IsHonest};
ghost use Rattle.sector_dev.specs.Image.{EveryImage};
ghost use Rattle.group_core.specs.Starting.{value_of_store};
ghost use Rattle.group_core.specs.declared.submit_error.SubmitError.{SubmitError};
ghost use Rattle.path_db.specs.declared.command.Command.{Command};
ghost use Rattle.hub_claims.specs.declared.error.HubError.TheVariants.{NoMemory, NoReader};
ghost use Rattle.sector_dev.specs.Stretch.{Stretch};
ghost use Rattle.logged_state.specs.Left.{OpensToFrontOf, OpensToLog, OpensWithAll};
ghost use Rattle.logged_state.specs.Kept.{AllClaimsKept, AllShownKept};
ghost use Rattle.command_queue.specs.Orders.{commands_of, IsWithin, AreAllOf};

use crate::guarded::{HubState, Locked};
use crate::handing::{AllUnderWay, MOST_UNDER_WAY, give_up_all};
use crate::hub::Hub;
use crate::left::HubLeft;
use crate::new_name::NewName;
use command_queue::{CommandQueue, NewQueue, Senders};
use hub_claims::{HubError, HubName};
use hub_readers::{Looks, ReaderError, open_readers};
use hub_waits::{Changes, HubStatus};
use logged_state::{Ended, Left, LoggedList, LoggedState, Reserved};
use sector_dev::Device;
use std::alloc::Global;
use std::marker::Brand;
use std::sync::atomic::AtomicBool;
use std::sync::{Mutex, Wait};
use std::thread::Threads;
use std::time::Clock;

/// A job with a hub. A job cannot name a hub itself, so all that it gets is of this hub.
pub trait HubJob<D: Device, R: Wait + Clock> {
    ghost use Rattle.atomic_table.specs.Seated.{TableId};

    /// The result of the job.
    type Out;

    /// Results that the job may give, by the table of the log of the hub's state. A claim that the
    /// job returns is of that table, and so is the log that is left.
    ghost does: { Self → Self.Out → TableId → Type 0 } = { λ _ _ _. Unit {0} };

    /// Does the job with a hub. What is handed in is a sender's, which the job begins.
    fn run<N: HubName + Send + Sync>(self, hub: &Hub<D, N, R>, senders: &Senders<N>) -> Self::Out
        ensures { does self result N.table };
}

/// Makes a hub over a store, and does the job with it. At the end the state is taken apart, and its
/// ended device is returned with the log of all commands that the state accepted. An honest device
/// opens to that log, with each command at its place whose claim was handed in as acknowledged. The
/// caller gives each state of a process a home number of its own. Where the hub cannot be made, the
/// store is returned unchanged, with the job.
pub fn with_hub<D: Device, J: HubJob<D, R>, R: Wait + Clock + Threads + Copy + Sync>(
    rt: R,
    alloc: Global,
    store: Reserved<D>,
    home: u64,
    job: J,
) -> Result<(J::Out, Ended<D>, HubLeft), (Reserved<D>, J, HubError)>
    ensures done { IfOk result (λ done. J.does job done.0 done.2.table) }
    ensures left { IfOk result (λ done. IsHonest (D.disk done.1) → EveryImage (D.disk done.1).history.now (OpensToLog (value_of_store store) done.2.log)) }
    ensures acknowledged { IfOk result (λ done. IsHonest (D.disk done.1)
        → EveryImage (D.disk done.1).history.now (OpensWithAll (value_of_store store) done.2.acknowledged)) }
    ensures moments { IfOk result (λ done.
        Stretch store.disk (D.disk done.1) (OpensToFrontOf (value_of_store store) done.2.log.commands 0)) }
    ensures since { IfOk result (λ done. IsHonest store.disk
        → AllClaimsKept (value_of_store store) done.2.log (D.disk done.1).history done.2.acknowledged) }
    ensures looked { IfOk result (λ done. IsHonest store.disk
        → AllShownKept (value_of_store store) done.2.log (D.disk done.1).history done.2.looked) }
    ensures queued { IfOk result (λ done. IsWithin done.2.log.commands (commands_of done.2.queued)) }
    ensures sent { IfOk result (λ done. AreAllOf done.2.queued done.2.senders) }
    ensures back { IfErr result (λ back. (back.0 ≡ store) × (back.1 ≡ job)) }
    ensures why { IfErr result (λ back. (back.2 ≡ NoMemory) ⊎ (back.2 ≡ NoReader)) }
{
    let Ok(name) = NewName::new(alloc) else {
        return Err((store, job, HubError::NoMemory));
    };
    do_with::<Brand, D, J, R>(rt, alloc, name, store, home, job)
}

/// `with_hub` for one brand `N`, which ties readers and claims to this hub.
fn do_with<
    N: HubName + Send + Sync,
    D: Device,
    J: HubJob<D, R>,
    R: Wait + Clock + Threads + Copy + Sync,
>(
    rt: R,
    alloc: Global,
    name: NewName,
    store: Reserved<D>,
    home: u64,
    job: J,
) -> Result<(J::Out, Ended<D>, HubLeft), (Reserved<D>, J, HubError)>
    requires opening { value_of_store store ≡ N.opening }
    requires start { store.disk ≡ N.start }
    requires log { name.log.table ≡ N.table }
    requires history { name.history.seen.book ≡ N.history }
    requires senders { name.history.desk.keeper.table_id ≡ N.senders }
    requires shown { name.shown.book ≡ N.shown }
    requires shut { N.shut ≡ true }
    requires refusals { (command : Command) (why : Option SubmitError) → N.refused command why ≡ true }
    ensures done { IfOk result (λ done. J.does job done.0 done.2.table) }
    ensures left { IfOk result (λ done. IsHonest (D.disk done.1) → EveryImage (D.disk done.1).history.now (OpensToLog N.opening done.2.log)) }
    ensures acknowledged { IfOk result (λ done. IsHonest (D.disk done.1)
        → EveryImage (D.disk done.1).history.now (OpensWithAll N.opening done.2.acknowledged)) }
    ensures moments { IfOk result (λ done.
        Stretch N.start (D.disk done.1) (OpensToFrontOf N.opening done.2.log.commands 0)) }
    ensures since { IfOk result (λ done. IsHonest N.start
        → AllClaimsKept N.opening done.2.log (D.disk done.1).history done.2.acknowledged) }
    ensures looked { IfOk result (λ done. IsHonest N.start
        → AllShownKept N.opening done.2.log (D.disk done.1).history done.2.looked) }
    ensures queued { IfOk result (λ done. IsWithin done.2.log.commands (commands_of done.2.queued)) }
    ensures sent { IfOk result (λ done. AreAllOf done.2.queued done.2.senders) }
    ensures back { IfErr result (λ back. (back.0 ≡ store) × (back.1 ≡ job)) }
    ensures why { IfErr result (λ back. (back.2 ≡ NoMemory) ⊎ (back.2 ≡ NoReader)) }
{
    let (hub, senders) = match Hub::<D, N, R>::open(rt, alloc, name, store, home) {
        Ok(made) => made,
        Err((store, refused)) => return Err((store, job, refused)),
    };
    let out = job.run::<N>(&hub, &senders);
    let (device, left) = hub.close();
    Ok((out, device, left))
}

impl<D: Device, N: HubName, R: Wait + Clock> Hub<D, N, R> {
    /// A hub of this name over a store, and what begins its senders, or the store again.
    #[tactic(auto, using(hub_waits::proofs::Numbers::are_of_a_state))]
    pub(crate) fn open(
        rt: R,
        alloc: Global,
        name: NewName,
        store: Reserved<D>,
        home: u64,
    ) -> Result<(Hub<D, N, R>, Senders<N>), (Reserved<D>, HubError)>
    where
        R: Threads + Copy + Sync,
        requires opening { value_of_store store ≡ N.opening }
        requires start { store.disk ≡ N.start }
        requires log { name.log.table ≡ N.table }
        requires history { name.history.seen.book ≡ N.history }
        requires senders { name.history.desk.keeper.table_id ≡ N.senders }
        requires shown { name.shown.book ≡ N.shown }
        requires shut { N.shut ≡ true }
        requires refusals { (command : Command) (why : Option SubmitError) → N.refused command why ≡ true }
        ensures back { IfErr result (λ back. back.0 ≡ store) }
        ensures why { IfErr result (λ back. (back.1 ≡ NoMemory) ⊎ (back.1 ≡ NoReader)) }
    {
        let Ok(collector) = name.log.collector::<N>() else {
            return Err((store, HubError::NoMemory));
        };
        let NewName {
            history,
            log,
            shown,
        } = name;
        let opened = open_readers::<N, R>(
            rt,
            alloc,
            shown,
            store.as_store().db(),
            store.as_store().place(),
        );
        let (show, mut readers) = match opened {
            Ok(made) => made,
            Err(ReaderError::NoMemory) => return Err((store, HubError::NoMemory)),
            Err(ReaderError::NoReader) => return Err((store, HubError::NoReader)),
        };
        let looks = show.no_looks();
        let Ok(under_way) = AllUnderWay::with_capacity(alloc, MOST_UNDER_WAY) else {
            show.close(looks);
            return Err((store, HubError::NoMemory));
        };
        let state = LoggedState::new(alloc, store, show, home, log);
        let status = HubStatus::new(state.numbers());
        let NewQueue {
            queue,
            senders,
            ended,
            submitted,
        } = CommandQueue::new(alloc, history);
        let hub = Hub {
            rt,
            alloc,
            queue: Mutex::new(queue),
            has_flusher: AtomicBool::new(false),
            state: Mutex::new(Locked {
                state,
                under_way,
                submitted,
            }),
            changes: Changes::new(),
            status,
            has_stranger: AtomicBool::new(false),
            own_reader: Mutex::new(readers.pop()),
            readers: Mutex::new(readers),
            acknowledged: Mutex::new(collector.empty_list()),
            looks: Mutex::new(looks),
            ended: Mutex::new(ended),
            collector,
        };
        Ok((hub, senders))
    }

    /// Ends the hub, which no one else has, and returns its device with the log of all commands
    /// that its state accepted. An honest device opens to that log, with each command at its place
    /// whose claim was handed in as acknowledged. What each session was shown last, if it handed
    /// that in, is a front of the log that no stop since its commit has lost. The log is a part of
    /// what was handed in at the queue. The call waits for readers that are within a lookup.
    pub(crate) fn close(self) -> (Ended<D>, HubLeft)
    where
        R: Drop,
        ensures left { IsHonest (D.disk result.0) → EveryImage (D.disk result.0).history.now (OpensToLog N.opening result.1.log) }
        ensures acknowledged { IsHonest (D.disk result.0) → EveryImage (D.disk result.0).history.now (OpensWithAll N.opening result.1.acknowledged) }
        ensures moments { Stretch N.start (D.disk result.0) (OpensToFrontOf N.opening result.1.log.commands 0) }
        ensures since { IsHonest N.start → AllClaimsKept N.opening result.1.log (D.disk result.0).history result.1.acknowledged }
        ensures looked { IsHonest N.start → AllShownKept N.opening result.1.log (D.disk result.0).history result.1.looked }
        ensures queued { IsWithin result.1.log.commands (commands_of result.1.queued) }
        ensures sent { AreAllOf result.1.queued result.1.senders }
        ensures table { result.1.table ≡ N.table }
    {
        let Hub {
            rt: _rt,
            alloc: _alloc,
            queue,
            has_flusher: _has_flusher,
            state,
            changes: _changes,
            status: _status,
            has_stranger: _has_stranger,
            readers: _readers,
            own_reader: _own_reader,
            collector: _collector,
            acknowledged,
            looks,
            ended,
        } = self;
        let Locked {
            state,
            under_way,
            submitted,
        } = state.into_inner();
        let queued = queue.into_inner().end(submitted, ended.into_inner());
        let (device, left) = close_state(
            state,
            under_way,
            acknowledged.into_inner(),
            looks.into_inner(),
        );
        (device, HubLeft::of(left, queued))
    }
}

/// Ends a hub's state, and returns its device with what is left of the state, and of who
/// acknowledged its commands and looked at what it showed.
fn close_state<D: Device, N: HubName, R: Wait + Clock + Drop>(
    state: HubState<D, N, R>,
    under_way: AllUnderWay<N>,
    acknowledged: LoggedList<N>,
    looks: Looks<N>,
) -> (Ended<D>, Left)
    ensures left { IsHonest (D.disk result.0) → EveryImage (D.disk result.0).history.now (OpensToLog N.opening result.1.log) }
    ensures acknowledged { IsHonest (D.disk result.0) → EveryImage (D.disk result.0).history.now (OpensWithAll N.opening result.1.acknowledged) }
    ensures moments { Stretch N.start (D.disk result.0) (OpensToFrontOf N.opening result.1.log.commands 0) }
    ensures since { IsHonest N.start → AllClaimsKept N.opening result.1.log (D.disk result.0).history result.1.acknowledged }
    ensures looked { IsHonest N.start → AllShownKept N.opening result.1.log (D.disk result.0).history result.1.looked }
    ensures commands { result.1.log.commands ≡ state.log.commands }
    ensures table { result.1.table ≡ N.table }
{
    let mut state = state;
    give_up_all(&mut state, under_way);
    let (device, show, log) = state.into_parts();
    let looked = show.close(looks);
    let (log, acknowledged) = log.unnamed_with(acknowledged);
    let mut left = Left::of(log, acknowledged, looked);
    left.prove_acknowledged();
    left.looks_are_kept();
    (device, left)
}
