//! The start of a state.

ghost use Rattle.std.specs.Prelude.{◌≡◌, ◌↔◌, [], IsTrue};
ghost use Rattle.sector_dev.specs.Disk.{IsHonest};
ghost use Rattle.sector_dev.specs.Image.{EveryImage};
ghost use Rattle.group_core.specs.Stops.{MayOpen};
ghost use Rattle.group_core.specs.Starting.{value_of_store, CanContinue, IsStarted, check_in};

use crate::bookkeeping::Turn;
use crate::showcase::Showcase;
use crate::state::State;
use ckpt_pair::area_room;
use ckpt_stream::Preparation;
use group_phases::{Check, Flush};
use path_records::written_rows_are_counted;
use rising_map::RisingMap;
use sector_dev::Device;
use std::alloc::Global;
use store_open::Store;

/// The turn before the first commit value of an actor.
const NO_TURN: Turn = Turn {
    number: 0,
    out: false,
};

impl<D: Device, S: Showcase> State<D, S> {
    /// Makes the state of a store that was opened, and whose rows are shown. The caller gives each
    /// state of a process a home number of its own. The state has stopped from its start where a
    /// checkpoint of the store has failed, and where its rows, or those up to its seal, have no
    /// room in a checkpoint area. The call takes no memory.
    pub fn new(alloc: Global, store: Store<D>, show: S, home: u64) -> State<D, S>
        requires shown { S.value show ≡ value_of_store store }
        requires unshown { S.list show ≡ [] }
        requires paid { S.owed show ≡ [] }
        ensures started { IsStarted store home result }
        ensures left { IsHonest store.disk → EveryImage store.disk.history.now (MayOpen result) }
    {
        written_rows_are_counted();
        let stopped = !goes_on(&store);
        let geometry = store.geometry();
        let place = store.place();
        let check = check_of(store.is_sealed());
        let half = store.tail_half();
        let gate = store.tail_gate();
        let epoch = store.epoch();
        let version = store.version();
        let (device, tip) = store.into_parts();
        State {
            alloc,
            device,
            geometry,
            home,
            show,
            place,
            tip,
            pending: Vec::new(alloc),
            kept: RisingMap::new(alloc),
            taken: 0,
            following: 0,
            staged: Vec::new(alloc),
            staged_next: Vec::new(alloc),
            flush: Flush::Resting,
            group: NO_TURN,
            check,
            plan: NO_TURN,
            half,
            gate,
            epoch,
            version,
            merge: None,
            written: 0,
            preparation: Preparation::new(),
            stopped,
        }
    }
}

/// Whether a state of the store goes on.
fn goes_on<D: Device>(store: &Store<D>) -> bool
    ensures { IsTrue result ↔ CanContinue store.now }
{
    if store.is_broken() {
        return false;
    }
    let most = area_room(store.geometry().checkpoint);
    store.db().encoded_len() <= most && (!store.is_sealed() || store.sealed_len() <= most)
}

/// The checkpointer's phase at the start: a sealed journal awaits its checkpoint.
fn check_of(sealed: bool) -> Check
    ensures { result ≡ check_in sealed }
{
    if sealed { Check::Sealed } else { Check::Ready }
}
