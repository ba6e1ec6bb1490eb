//! A device over a file in memory.
use crate::checks::done;
use crate::devices::calls::{CALLS, assert_answer, assert_call, assert_calls, assert_sectors};
use crate::host::Host;
use sector_dev::{CountedFile, Device, FileDevice, MemDevice, SECTOR};
use std::alloc::Global;
use std::test::Fail;
use test_fault_devices::{CachedFile, MemFile};
use test_support::{TestHost, assert_same, assert_true};

// A device over these bytes, of which one transfer moves at most `at_most`.
fn device_of(
    alloc: Global,
    bytes: Vec<u8>,
    at_most: usize,
) -> Result<FileDevice<CountedFile<MemFile>>, Fail> {
    let file = CountedFile::new(alloc, MemFile::new(bytes, at_most))?;
    Ok(FileDevice::new(file)?)
}

// Makes all calls, and checks the contents of the sectors then.
fn assert_written<D: Device>(rt: &impl TestHost, device: &mut D, at_most: usize) {
    assert_calls(rt, device, &at_most);
    let wanted = [(7, 7), (0x33, 0x33), (0x22, 0x22), (0x22, 0x22)];
    assert_sectors(rt, device, wanted, &at_most);
    assert_same(rt, &device.faults(), &0, &at_most);
}

#[test]
fn short_transfers_are_made_whole(rt: HostRuntime) {
    let host = Host(&rt);
    for at_most in [1, 100, 512, 4096] {
        // Four sectors and a part of one.
        let bytes = vec![in rt.alloc(); 7; 2100].expect(&rt, "bytes");
        let mut device = done(&rt, device_of(rt.alloc(), bytes, at_most));
        assert_written(&host, &mut device, at_most);
    }
}

// Whether each call succeeds, and the number of faults then: a sync moves no bytes.
const MOVES: [(bool, u64); 6] = [
    (false, 1),
    (true, 1),
    (false, 2),
    (false, 3),
    (false, 4),
    (true, 4),
];

#[test]
fn a_file_that_moves_nothing_is_a_fault(rt: HostRuntime) {
    let host = Host(&rt);
    let bytes = vec![in rt.alloc(); 7; 2048].expect(&rt, "bytes");
    let mut device = done(&rt, device_of(rt.alloc(), bytes, 0));
    for (number, wanted) in MOVES.iter().enumerate() {
        assert_call(&host, &mut device, number as u64, *wanted, &number);
    }
}

// The bytes of a file after this number of calls and a stop. One transfer moves at most 100 bytes.
fn bytes_after_stop(rt: &impl TestHost, alloc: Global, calls: u64) -> Result<Vec<u8>, Fail> {
    let bytes = vec![in alloc; 7; 2048]?;
    let file = CountedFile::new(alloc, CachedFile::new(alloc, bytes, 100)?)?;
    let mut device = FileDevice::new(file)?;
    for number in 0..calls {
        assert_answer(rt, &mut device, number, true, &calls);
    }
    Ok(device.into_file().into_calls().stop())
}

// The number of calls before a stop, and the byte that then fills each sector.
const KEPT: [(u64, [u8; 4]); 7] = [
    (0, [7, 7, 7, 7]),
    (1, [7, 7, 7, 7]),
    (2, [7, 0x11, 7, 7]),
    (3, [7, 0x11, 7, 7]),
    (4, [7, 0x11, 7, 7]),
    (5, [7, 0x11, 7, 7]),
    (6, [7, 0x33, 0x22, 0x22]),
];

#[test]
fn a_stop_loses_what_was_not_synced(rt: HostRuntime) -> Result<(), Fail> {
    let host = Host(&rt);
    for (calls, wanted) in &KEPT {
        let bytes = bytes_after_stop(&host, rt.alloc(), *calls)?;
        assert_true(&host, bytes.len() == 2048, "the file has its bytes");
        for (i, byte) in bytes.iter().enumerate() {
            assert_same(&host, byte, &wanted[i / SECTOR], &(*calls, i));
        }
    }
    Ok(())
}

// Checks that a sector of two devices has the same bytes.
fn assert_same_sector<A: Device, B: Device>(
    rt: &impl TestHost,
    one: &mut A,
    other: &mut B,
    at: u64,
) {
    let (mut first, mut second) = ([0; SECTOR], [1; SECTOR]);
    assert_true(rt, at < 4, "the devices have the sector");
    assert_true(rt, one.sectors() == 4, "the one has four sectors");
    assert_true(rt, other.sectors() == 4, "the other has four sectors");
    assert_true(rt, one.read(at, &mut first).is_ok(), "the one is read");
    assert_true(rt, other.read(at, &mut second).is_ok(), "the other is read");
    assert_same(rt, &first.as_slice(), &second.as_slice(), &at);
}

// Makes a call of two devices, and checks that it succeeds and that all sectors are the same then.
fn assert_agree<A: Device, B: Device>(rt: &impl TestHost, one: &mut A, other: &mut B, number: u64) {
    assert_answer(rt, one, number, true, &number);
    assert_answer(rt, other, number, true, &number);
    for at in 0..4 {
        assert_same_sector(rt, one, other, at);
    }
    assert_same(rt, &(one.faults(), other.faults()), &(0, 0), &number);
}

#[test]
fn a_device_over_a_file_agrees_with_one_in_memory(rt: HostRuntime) -> Result<(), Fail> {
    let host = Host(&rt);
    for at_most in [100, 4096] {
        let zeros = vec![in rt.alloc(); 0; 2048]?;
        let mut device = device_of(rt.alloc(), zeros, at_most)?;
        let mut memory = MemDevice::new(rt.alloc(), 4)?;
        for number in 0..CALLS {
            assert_agree(&host, &mut device, &mut memory, number);
        }
    }
    Ok(())
}
