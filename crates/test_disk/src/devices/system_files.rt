//! A device over a file of the system.
use crate::checks::done;
use crate::devices::calls::{assert_call, assert_calls, assert_sectors};
use crate::host::Host;
use sector_dev::{Device, FileDevice, SECTOR, SystemFile};
use std::fs;
use std::fs::OpenOptions;
use std::rt::Files;
use std::test::Fail;
use test_support::{TestHost, assert_same};

// Makes an empty folder.
fn make_folder<R: Files + Alloc>(rt: &R, folder: &str) -> Result<(), Fail> {
    let _ = fs::remove_dir_all(rt, folder);
    Ok(fs::create_dir(rt, folder)?)
}

// Makes a folder with one file of this number of sevens.
fn make_file<R: Files + Alloc>(rt: &R, folder: &str, path: &str, len: usize) -> Result<(), Fail> {
    make_folder(rt, folder)?;
    let sevens = vec![in rt.alloc(); 7; len]?;
    Ok(fs::write(rt, path, sevens.as_slice())?)
}

// A device over the file of this path.
fn device_over(
    rt: &HostRuntime,
    path: &str,
    options: &OpenOptions,
) -> Result<FileDevice<SystemFile>, Fail> {
    let file = options.open(rt, path)?;
    Ok(FileDevice::new(SystemFile::new(rt.alloc(), file)?)?)
}

// A device over the file of this path, which is opened for reading and writing.
fn open_device(rt: &HostRuntime, path: &str) -> Result<FileDevice<SystemFile>, Fail> {
    device_over(rt, path, OpenOptions::new().read(true).write(true))
}

// Makes all calls, and checks that no call of the system fails.
fn assert_written(rt: &impl TestHost, mut device: FileDevice<SystemFile>) {
    assert_calls(rt, &mut device, &"a file");
    assert_same(rt, &device.into_file().failures(), &0, &"failures");
}

// Checks that a file has the bytes that the calls write, and its sevens.
fn assert_kept(rt: &impl TestHost, bytes: &[u8]) {
    assert_same(rt, &bytes.len(), &2100, &"bytes");
    for (i, byte) in bytes.iter().enumerate() {
        let wanted = match i / SECTOR {
            1 => 0x33,
            2 | 3 => 0x22,
            _ => 7,
        };
        assert_same(rt, byte, &wanted, &i);
    }
}

#[test]
fn a_file_keeps_what_was_written(rt: HostRuntime) {
    let host = Host(&rt);
    let folder = "device_tests_kept";
    let path = "device_tests_kept/device";
    done(&rt, make_file(&rt, folder, path, 2100));
    let device = done(&rt, open_device(&rt, path));
    assert_written(&host, device);
    let bytes = fs::read(&rt, path).expect(&rt, "the file is read");
    assert_kept(&host, &bytes);
    fs::remove_dir_all(&rt, folder).expect(&rt, "the folder goes");
}

// Cuts the file of this path short.
fn cut(rt: &HostRuntime, path: &str) -> Result<(), Fail> {
    let file = OpenOptions::new().write(true).open(rt, path)?;
    Ok(file.set_len(600)?)
}

// Checks that reads of a device of four sectors fail, two of them in all.
fn assert_cut(rt: &impl TestHost, mut device: FileDevice<SystemFile>) {
    for faults in [1, 2] {
        assert_call(rt, &mut device, 2, (false, faults), &faults);
    }
    assert_same(rt, &device.sectors(), &4, &"sectors");
    assert_same(rt, &device.into_file().failures(), &2, &"failures");
}

#[test]
fn a_file_cut_short_is_a_fault(rt: HostRuntime) {
    let host = Host(&rt);
    let folder = "device_tests_cut";
    let path = "device_tests_cut/device";
    done(&rt, make_file(&rt, folder, path, 2048));
    let mut device = done(&rt, open_device(&rt, path));
    assert_sectors(&host, &mut device, [(7, 7); 4], &"before the cut");
    done(&rt, cut(&rt, path));
    assert_cut(&host, device);
    fs::remove_dir_all(&rt, folder).expect(&rt, "the folder goes");
}

// Whether each call succeeds, and the number of faults then: the writes fail.
const REFUSED: [(bool, u64); 6] = [
    (false, 1),
    (true, 1),
    (true, 1),
    (false, 2),
    (false, 3),
    (true, 3),
];

// Makes all calls, and checks that the writes fail, and change nothing.
fn assert_refused(rt: &impl TestHost, mut device: FileDevice<SystemFile>) {
    for (number, wanted) in REFUSED.iter().enumerate() {
        assert_call(rt, &mut device, number as u64, *wanted, &number);
    }
    assert_sectors(rt, &mut device, [(7, 7); 4], &"after the calls");
    assert_same(rt, &device.into_file().failures(), &3, &"failures");
}

// A file that is open for reading only: its writes fail.
#[test]
fn a_write_that_the_system_refuses_is_a_fault(rt: HostRuntime) {
    let host = Host(&rt);
    let folder = "device_tests_refused";
    let path = "device_tests_refused/device";
    done(&rt, make_file(&rt, folder, path, 2048));
    let device = done(&rt, device_over(&rt, path, OpenOptions::new().read(true)));
    assert_refused(&host, device);
    fs::remove_dir_all(&rt, folder).expect(&rt, "the folder goes");
}
