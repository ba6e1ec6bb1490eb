//! A device with a gate before each sync.
ghost use Rattle.std.specs.Prelude.{◌≡◌, ◌+◌, ◌*◌, ◌%◌, ◌≤◌, length};
ghost use Rattle.byte_lists.specs.declared.format.TheConstants.{SECTOR};

use sector_dev::{DevError, Device};

/// The gate that a `HeldDevice` passes before each sync. A gate may count the syncs, or make them
/// wait.
pub trait Gate {
    /// One pass may change the first state into the second.
    ghost passed: { Self → Self → Type 0 };

    fn pass(&mut self)
        ensures { passed self.old self.new };
}

/// A device that passes its gate once before each sync. All other calls are passed on to another
/// device.
#[derive(Drop)]
pub struct HeldDevice<D, G> {
    device: D,
    gate: G,
}

impl<D, G> HeldDevice<D, G> {
    ghost use Rattle.test_fault_devices.specs.HeldDevice.{held_device, held_gate};

    /// A device that passes its calls on to `device`, and waits at `gate` before each sync.
    pub fn new(device: D, gate: G) -> HeldDevice<D, G>
        ensures device { held_device result ≡ device }
        ensures gate { held_gate result ≡ gate }
    {
        HeldDevice { device, gate }
    }

    /// The gate.
    pub fn gate(&self) -> &G
        ensures { result.now ≡ held_gate self.now }
    {
        &self.gate
    }

    /// Returns the device and the gate, and ends this device.
    pub fn into_parts(self) -> (D, G)
        ensures { result ≡ (held_device self, held_gate self) }
    {
        let HeldDevice { device, gate } = self;
        (device, gate)
    }
}

impl<D: Device, G: Gate> Device for HeldDevice<D, G> {
    ghost use Rattle.std.specs.Prelude.{◌≡◌, ◌+◌, ◌*◌, ◌%◌, ◌≤◌, length};
    ghost use Rattle.sector_dev.specs.Calls.{ReadCall, WriteCall, SyncCall};
    ghost use Rattle.test_fault_devices.specs.HeldDevice.{held_device, held_gate};

    ghost disk = { λ held. D.disk (held_device held) };

    ghost fits = { λ held. D.fits (held_device held) };

    ghost whole = { λ held. D.whole (held_device held) };

    fn sectors(&self) -> u64 {
        self.device.sectors()
    }

    fn read(&mut self, at: u64, into: &mut [u8]) -> Result<(), DevError>
        requires whole { length into.old % SECTOR ≡ 0 }
        requires inside { SECTOR * at + length into.old ≤ SECTOR * (D.disk (held_device self.old)).sectors }
        ensures read { ReadCall at into.new result (D.disk (held_device self.old)) (D.disk (held_device self.new)) }
        ensures gate { held_gate self.new ≡ held_gate self.old }
    {
        self.device.read(at, into)
    }

    fn write(&mut self, at: u64, bytes: &[u8]) -> Result<(), DevError>
        requires whole { length bytes.now % SECTOR ≡ 0 }
        requires inside { SECTOR * at + length bytes.now ≤ SECTOR * (D.disk (held_device self.old)).sectors }
        ensures write { WriteCall at bytes.now result (D.disk (held_device self.old)) (D.disk (held_device self.new)) }
        ensures gate { held_gate self.new ≡ held_gate self.old }
    {
        self.device.write(at, bytes)
    }

    fn sync(&mut self) -> Result<(), DevError>
        ensures sync { SyncCall result (D.disk (held_device self.old)) (D.disk (held_device self.new)) }
        ensures gate { G.passed (held_gate self.old) (held_gate self.new) }
    {
        self.gate.pass();
        self.device.sync()
    }

    fn faults(&self) -> u64 {
        self.device.faults()
    }
}
