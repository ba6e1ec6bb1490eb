//! A state over a device in memory.

ghost use Rattle.std.specs.Prelude.{◌≡◌};
ghost use Rattle.sector_dev.specs.Disk.{IsHonest};

use group_core::{PlainShow, State};
use sector_dev::MemDevice;

/// A store at work on a device in memory.
pub(crate) type MemoryState = State<MemDevice, PlainShow>;

/// A law. A device in memory is honest, and none of its calls has failed.
pub(crate) fn never_fails(state: &MemoryState)
    ensures faults { state.now.disk.faults ≡ 0 }
    ensures honest { IsHonest state.now.disk }
{
    let _device = state.device();
}
