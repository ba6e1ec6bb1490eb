//! Runs on a device that fails once, at each of its calls in turn, and works again after it.

use crate::failures::{FailingDevices, assert_fronts};
use crate::host::Host;
use crate::scripts::{long_script, short_script};
use sector_dev::{DevError, Device, MemDevice};
use std::alloc::Global;
use std::process::Abort;
use std::test::Fail;
use test_fault_devices::FaultDevice;

/// A device, with how many calls were made of it after its first fault.
#[derive(Drop)]
pub struct Watched<D> {
    device: D,
    late: u64,
}

impl<D: Device> Watched<D> {
    /// How many these are with one more.
    fn with_one(&self) -> u64 {
        if self.device.faults() == 0 {
            return 0;
        }
        self.late.saturating_add(1)
    }
}

impl<D: Device> Device for Watched<D> {
    ghost disk = { λ watched. D.disk watched.device };

    ghost fits = { λ watched. D.fits watched.device };

    ghost whole = { λ watched. D.whole watched.device };

    fn sectors(&self) -> u64 {
        self.device.sectors()
    }

    fn read(&mut self, at: u64, into: &mut [u8]) -> Result<(), DevError> {
        self.late = self.with_one();
        self.device.read(at, into)
    }

    fn write(&mut self, at: u64, bytes: &[u8]) -> Result<(), DevError> {
        self.late = self.with_one();
        self.device.write(at, bytes)
    }

    fn sync(&mut self) -> Result<(), DevError> {
        self.late = self.with_one();
        self.device.sync()
    }

    fn faults(&self) -> u64 {
        self.device.faults()
    }
}

/// One call fails.
pub struct Once;

impl FailingDevices for Once {
    type On = Watched<FaultDevice>;

    fn over(&self, memory: MemDevice, number: u64) -> Watched<FaultDevice> {
        Watched {
            device: FaultDevice::new(memory, number),
            late: 0,
        }
    }

    fn late(&self, device: &Watched<FaultDevice>) -> u64 {
        device.late
    }

    fn memory(&self, device: Watched<FaultDevice>) -> MemDevice {
        let Watched { device, .. } = device;
        device.into_mem()
    }
}

/// Has the run of the long script from a store of this version fail once, at each call.
fn assert_once(rt: &Host<impl Abort>, alloc: Global, version: u8) -> Result<(), Fail> {
    let script = long_script(rt, alloc, version)?;
    assert_fronts(rt, alloc, &script, &Once);
    Ok(())
}

/// The same of the short script.
fn assert_short_once(rt: &Host<impl Abort>, alloc: Global, version: u8) -> Result<(), Fail> {
    let script = short_script(rt, alloc, version)?;
    assert_fronts(rt, alloc, &script, &Once);
    Ok(())
}

#[test]
fn new_stores_fail_once(rt: HostRuntime) -> Result<(), Fail> {
    assert_once(&Host(&rt), rt.alloc(), 2)
}

#[test]
fn old_stores_fail_once(rt: HostRuntime) -> Result<(), Fail> {
    assert_once(&Host(&rt), rt.alloc(), 1)
}

#[test]
fn short_runs_of_new_stores_fail_once(rt: HostRuntime) -> Result<(), Fail> {
    assert_short_once(&Host(&rt), rt.alloc(), 2)
}

#[test]
fn short_runs_of_old_stores_fail_once(rt: HostRuntime) -> Result<(), Fail> {
    assert_short_once(&Host(&rt), rt.alloc(), 1)
}
