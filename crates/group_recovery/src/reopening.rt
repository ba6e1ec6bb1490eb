//! Opening a device again: after any stop, and of a state.

ghost use Rattle.std.specs.Prelude.{◌≡◌, [], false, IfOk, IfErr, OnOk};
ghost use Rattle.sector_dev.specs.Disk.{IsHonest, reads_of};
ghost use Rattle.sector_dev.specs.Image.{IsFromImage};
ghost use Rattle.sector_dev.specs.Stretch.{Stretch};
ghost use Rattle.store_open.specs.Open.{OpensAlike, ComesBack, disk_after};
ghost use Rattle.group_core.specs.Ending.{HasNothingOut};
ghost use Rattle.group_core.specs.Starting.{value_of_store};
ghost use Rattle.group_recovery.specs.Machine.{machine_of};
ghost use Rattle.group_recovery.specs.Reopening.{OpensToMachine, HasValueOf, IsReopened, ReopensMachines, RefusesNoStore, IsNotReopened, disk_left};

use group_core::{Showcase, State};
use sector_dev::Device;
use std::alloc::Global;
use store_open::{OpenError, Store, open};

/// Opens a device, after any stop. The store has the value that the stop left: an image has at most
/// one list of rows and place.
pub fn reopen<D: Device>(alloc: Global, device: D) -> Result<Store<D>, (D, OpenError)>
    ensures value { IfOk result (λ store. IsHonest (D.disk device) → HasValueOf (reads_of (D.disk device)) store) }
    ensures machine { IfOk result (λ store. IsHonest (D.disk device) → ReopensMachines (reads_of (D.disk device)) store) }
    ensures faults { IfOk result (λ store. store.disk.faults ≡ (D.disk device).faults) }
    ensures whole { IfOk result (λ store. store.broken ≡ false) }

    // A device that opens is refused only where the device fails or memory is refused.
    ensures refused { IfErr result (λ back. ComesBack back.1 (D.disk device) (D.disk back.0)) }
    ensures no_store { IfErr result (λ back. IsHonest (D.disk device) → RefusesNoStore back.1 (reads_of (D.disk device))) }

    // At every moment each image that a stop may leave is an image of the start, or opens with what
    // an image of the start opens with.
    ensures any_moment { Stretch (D.disk device) (disk_after D.disk result) (IsFromImage (D.disk device).history.now OpensAlike) }
{
    open(alloc, device)
}

/// Why the device of a state is not opened again.
pub enum NotReopened<D: Device, S: Showcase> {
    /// An outcome is still kept, or a commit value is still out. The state is returned.
    InUse(State<D, S>),
    /// The device is not opened. It is returned with the error.
    Refused(D, OpenError),
}

/// Takes the device out of a state, and opens it. The store has the committed rows after a front of
/// the pending commands. Where nothing is pending, those are the committed rows, at their place.
pub fn reopen_state<D: Device, S: Showcase>(
    alloc: Global,
    state: State<D, S>,
) -> Result<Store<D>, NotReopened<D, S>>
where
    S: Drop,
    ensures at_rest { IfOk result (λ store. IsHonest state.disk → state.pending ≡ [] → value_of_store store ≡ state.value) }
    ensures front { IfOk result (λ store. IsHonest state.disk → IsReopened (machine_of state) store) }
    ensures whole { IfOk result (λ store. store.broken ≡ false) }
    ensures settled { OnOk result (HasNothingOut state) }
    ensures refused { IfErr result (λ e. IsNotReopened D.disk e state) }

    // At every moment each image that a stop may leave opens to the committed rows, with a front of
    // the pending commands.
    ensures any_moment { Stretch state.disk (disk_left D.disk result) (OpensToMachine (machine_of state)) }
{
    state.stops_leave_fronts();
    let device = match state.into_device() {
        Ok(device) => device,
        Err(state) => return Err(NotReopened::InUse(state)),
    };
    match reopen(alloc, device) {
        Ok(store) => Ok(store),
        Err((device, e)) => Err(NotReopened::Refused(device, e)),
    }
}
