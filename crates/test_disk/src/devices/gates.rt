//! A device with a gate before each sync.
use crate::devices::calls::{assert_answer, assert_sectors};
use crate::host::Host;
use sector_dev::{DevError, Device, MemDevice};
use std::cell::Cell;
use std::test::Fail;
use test_fault_devices::{FaultDevice, Gate, HeldDevice};
use test_support::{TestHost, assert_same, assert_true};

#[derive(Drop)]
struct PassCounter {
    passes: u64,
}

impl Gate for PassCounter {
    ghost use Rattle.std.specs.Prelude.{◌≡◌, ◌+◌, min, ◌^◌, ◌-◌};

    ghost passed = { λ old new. new.passes ≡ min (old.passes + 1) (2 ^ 64 - 1) };

    fn pass(&mut self) {
        self.passes = self.passes.saturating_add(1);
    }
}

// Makes a call, of which the sixth one fails, and checks how many times the gate was passed by
// then.
fn assert_passes<D: Device>(
    rt: &impl TestHost,
    device: &mut HeldDevice<D, PassCounter>,
    number: u64,
    passes: u64,
) {
    assert_answer(rt, device, number, number < 5, &number);
    assert_same(rt, &device.gate().passes, &passes, &number);
}

// Checks the parts of the device after the calls.
fn assert_parts(rt: &impl TestHost, device: HeldDevice<FaultDevice, PassCounter>) {
    let (memory, counter) = device.into_parts();
    assert_same(rt, &counter.passes, &2, &"passes");
    let wanted = [(0, 0), (0x33, 0x33), (0x22, 0x22), (0x22, 0x22)];
    assert_sectors(rt, &mut memory.into_mem(), wanted, &"the calls");
}

#[test]
fn a_held_device_passes_its_gate_once_a_sync(rt: HostRuntime) -> Result<(), Fail> {
    let host = Host(&rt);
    let memory = FaultDevice::new(MemDevice::new(rt.alloc(), 4)?, 5);
    let mut device = HeldDevice::new(memory, PassCounter { passes: 0 });
    for (number, passes) in [(0, 0), (1, 1), (2, 1), (3, 1), (4, 1), (5, 2)] {
        assert_passes(&host, &mut device, number, passes);
    }
    assert_parts(&host, device);
    Ok(())
}

// Counts the syncs of a device where its gate sees it.
#[derive(Drop)]
struct SyncCounter<'a, D> {
    device: D,
    syncs: &'a Cell<u64>,
}

impl<'a, D: Device> Device for SyncCounter<'a, D> {
    ghost disk = { λ counter. D.disk counter.device };

    ghost fits = { λ counter. D.fits counter.device };

    ghost whole = { λ counter. D.whole counter.device };

    fn sectors(&self) -> u64 {
        self.device.sectors()
    }

    fn read(&mut self, at: u64, into: &mut [u8]) -> Result<(), DevError> {
        self.device.read(at, into)
    }

    fn write(&mut self, at: u64, bytes: &[u8]) -> Result<(), DevError> {
        self.device.write(at, bytes)
    }

    fn sync(&mut self) -> Result<(), DevError> {
        self.syncs.set(self.syncs.get().saturating_add(1));
        self.device.sync()
    }

    fn faults(&self) -> u64 {
        self.device.faults()
    }
}

// Notes at each pass how many syncs the device has had.
#[derive(Drop)]
struct Witness<'a> {
    syncs: &'a Cell<u64>,
    seen: u64,
}

impl<'a> Gate for Witness<'a> {
    ghost use Rattle.std.specs.Prelude.{⊤};

    ghost passed = { λ old new. ⊤ };

    fn pass(&mut self) {
        self.seen = self.syncs.get();
    }
}

// Checks that a sync succeeds, and that this number of syncs came before it when the gate was
// passed.
fn assert_sync<'a>(
    rt: &impl TestHost,
    device: &mut HeldDevice<SyncCounter<'a, MemDevice>, Witness<'a>>,
    syncs: &Cell<u64>,
    before: u64,
) {
    assert_true(rt, device.sync().is_ok(), "the device is synced");
    assert_same(rt, &device.gate().seen, &before, &"syncs at the pass");
    assert_same(rt, &syncs.get(), &before.saturating_add(1), &"syncs");
}

#[test]
fn a_gate_is_passed_before_its_sync(rt: HostRuntime) -> Result<(), Fail> {
    let host = Host(&rt);
    let syncs = Cell::new(0);
    let counter = SyncCounter {
        device: MemDevice::new(rt.alloc(), 4)?,
        syncs: &syncs,
    };
    let witness = Witness {
        syncs: &syncs,
        seen: 9,
    };
    let mut device = HeldDevice::new(counter, witness);
    for before in [0, 1, 2] {
        assert_sync(&host, &mut device, &syncs, before);
    }
    Ok(())
}

fn sent<T: Send>(value: T) -> T {
    value
}

#[test]
fn a_device_may_go_to_another_thread(rt: HostRuntime) -> Result<(), Fail> {
    let host = Host(&rt);
    let held = HeldDevice::new(MemDevice::new(rt.alloc(), 4)?, PassCounter { passes: 0 });
    let mut device = sent(held);
    assert_answer(&host, &mut device, 4, true, &4);
    let wanted = [(0, 0), (0x33, 0x33), (0, 0), (0, 0)];
    assert_sectors(&host, &mut device, wanted, &4);
    Ok(())
}
