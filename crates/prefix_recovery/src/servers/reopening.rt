//! The opening of a device after a stop of a server.

ghost use Rattle.std.specs.Prelude.{ℕ, IfOk, IfErr};
ghost use Rattle.sector_dev.specs.Disk.{IsHonest};
ghost use Rattle.sector_dev.specs.Stretch.{Stretch};
ghost use Rattle.store_open.specs.Open.{disk_after};
ghost use Rattle.group_recovery.specs.Reopening.{SaysNothingOfTheImage};
ghost use Rattle.prefix_recovery.specs.servers.Survival.{HoldsStopAt, Recovers};
ghost use Rattle.prefix_recovery.specs.servers.Serving.{IsLeftAt, MayHoldAt, RecoversAgain};

use crate::servers::trace::ServerTrace;
use group_recovery::reopen;
use sector_dev::Device;
use std::alloc::Global;
use store_open::{OpenError, Store};

/// Opens a device after a stop of a server at any moment. A device that is not opened is returned
/// with the error, and may be opened again.
pub fn reopen_left<D: Device>(
    alloc: Global,
    trace: &ServerTrace<D>,
    device: D,
) -> Result<Store<D>, (D, OpenError)>
    ensures recovers { IfOk result (λ store. IsHonest (D.disk device) → Recovers trace.now (D.disk device) store) }

    // What a stop of the server leaves is refused only where the device fails or memory is refused.
    ensures refused { IfErr result (λ back.
        IsHonest (D.disk device) → (t : ℕ) → HoldsStopAt trace.now t (D.disk device) → SaysNothingOfTheImage back.1) }

    // The same holds after a stop of an opening, any number of times: a stop within this opening
    // leaves what opens to what the stop of the server left.
    ensures recovers_again { IfOk result (λ store. IsHonest (D.disk device) → RecoversAgain trace.now (D.disk device) store) }
    ensures refused_again { IfErr result (λ back.
        IsHonest (D.disk device) → (t : ℕ) → MayHoldAt trace.now t (D.disk device) → SaysNothingOfTheImage back.1) }
    ensures any_moment { (t : ℕ) → MayHoldAt trace.now t (D.disk device)
        → Stretch (D.disk device) (disk_after D.disk result) (IsLeftAt trace.now t) }
{
    trace.serves();
    reopen(alloc, device)
}
