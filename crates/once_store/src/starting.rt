//! The start of a store in memory.

ghost use Rattle.std.specs.Prelude.{IfOk};
ghost use Rattle.once_store.specs.Starting.{IsFirst, IsFirstState};

use crate::memory_state::MemoryState;
use group_core::{PlainShow, State};
use sector_dev::MemDevice;
use std::alloc::{AllocError, Global};
use store_open::{Geometry, Store, format, open};

/// The sizes of each half's checkpoint area and journal, in sectors.
const SIZES: Geometry = Geometry {
    checkpoint: 4096,
    journal: 4096,
};
/// The home number of each state of this crate. No ticket or commit value leaves the crate, so that
/// all its states may have this one.
const LONE_HOME: u64 = 1;

/// A state of a new store, on a device of its own.
#[tactic(auto, using(crate::proofs::FirstStore::first_state))]
pub(crate) fn start(alloc: Global) -> Result<MemoryState, AllocError>
    ensures { IfOk result IsFirstState }
{
    let store = new_store(alloc)?;
    let Ok(rows) = store.db().try_clone() else {
        let _device = store.into_device();
        return Err(AllocError);
    };
    let show = PlainShow::new(rows, store.place());
    Ok(State::new(alloc, store, show, LONE_HOME))
}

/// A new store, with no rows at place 0.
fn new_store(alloc: Global) -> Result<Store<MemDevice>, AllocError>
    ensures { IfOk result IsFirst }
{
    let mut device = MemDevice::new(alloc, SIZES.sectors())?;
    let Ok(()) = format(&mut device, SIZES) else {
        unreachable!();
    };
    match open(alloc, device) {
        Ok(store) => Ok(store),
        // A new store on an honest device that does not fail opens wherever there is memory.
        Err((_device, _refused)) => Err(AllocError),
    }
}
