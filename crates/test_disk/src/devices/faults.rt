//! A device of which one call fails.
use crate::devices::calls::{CALLS, assert_call, assert_sectors};
use crate::host::Host;
use sector_dev::{DevError, MemDevice};
use std::test::Fail;
use test_fault_devices::FaultDevice;
use test_support::TestHost;

// The number of the failing call, and the contents of the sectors 1, 2 and 3 then.
const FAULTS: [(u64, [u8; 3]); 7] = [
    (0, [0x33, 0x22, 0x22]),
    (1, [0x33, 0x22, 0x22]),
    (2, [0x33, 0x22, 0x22]),
    (3, [0x33, 0, 0]),
    (4, [0x11, 0x22, 0x22]),
    (5, [0x33, 0x22, 0x22]),
    (6, [0x33, 0x22, 0x22]),
];

// Makes the calls of a device of which this one fails, and checks the contents of the sectors 1, 2
// and 3 then.
fn assert_one_fails(rt: &impl TestHost, mut device: FaultDevice, failing: u64, sectors: [u8; 3]) {
    for number in 0..CALLS {
        let wanted = (number != failing, u64::from(failing <= number));
        assert_call(rt, &mut device, number, wanted, &failing);
    }
    let [one, two, three] = sectors;
    let wanted = [(0, 0), (one, one), (two, two), (three, three)];
    assert_sectors(rt, &mut device.into_mem(), wanted, &failing);
}

#[test]
fn one_call_fails_and_the_others_go_on(rt: HostRuntime) -> Result<(), Fail> {
    let host = Host(&rt);
    for (failing, sectors) in &FAULTS {
        let device = FaultDevice::new(MemDevice::new(rt.alloc(), 4)?, *failing);
        assert_one_fails(&host, device, *failing, *sectors);
    }
    Ok(())
}

#[test]
fn a_fault_has_a_number_and_a_text(rt: HostRuntime) -> Result<(), Fail> {
    let fault = DevError::Fault;
    let text = format!(in rt.alloc(); "{} {fault}", fault as u8)?;
    assert_eq!(rt; text.as_str(), "1 the device failed");
    Ok(())
}
