//! Files that others cut, unlink or replace while a device is over them, and the notes of what
//! failed.
use crate::checks::done;
use crate::host::Host;
use sector_dev::{Device, FaultKind, FileDevice, FileFault, LastFault, PositionedFile, SystemFile};
use std::fs;
use std::fs::{File, OpenOptions};
use std::process::Abort;
use std::rt::Files;
use std::test::Fail;
use test_support::{TestHost, assert_same, assert_true};

// What another program does with a file.
#[derive(Clone, Copy, Debug)]
enum Change {
    Nothing,
    Cut,
    Unlink,
    Replace,
}

// Makes this change.
fn make_change<R: Files<File = File>>(rt: &R, path: &str, made: Change) -> Result<(), Fail> {
    match made {
        Change::Nothing => {}
        Change::Cut => OpenOptions::new().write(true).open(rt, path)?.set_len(600)?,
        Change::Unlink => fs::remove_file(rt, path)?,
        Change::Replace => {
            fs::write(rt, "device_tests_changed/other", &[7; 2048])?;
            fs::rename(rt, "device_tests_changed/other", path)?;
        }
    }
    Ok(())
}

// Writes the second of four sectors, and checks whether a sync succeeds then.
fn assert_synced(rt: &impl TestHost, device: &mut FileDevice<SystemFile>, is_ok: bool) {
    assert_true(rt, device.sectors() == 4, "the device has four sectors");
    assert_true(rt, device.write(1, &[0x11; 512]).is_ok(), "it is written");
    assert_same(rt, &device.sync().is_ok(), &is_ok, &"sync");
    assert_same(rt, &device.faults(), &u64::from(!is_ok), &"faults");
}

// A file of the system, which is opened for reading and writing.
fn system_file<R: AllocGlobal + Files<File = File>>(
    rt: &R,
    path: &str,
) -> Result<SystemFile, Fail> {
    let file = OpenOptions::new().read(true).write(true).open(rt, path)?;
    Ok(SystemFile::new(rt.alloc(), file)?)
}

// Changes a file of four sectors under its device, and checks what its next sync returns.
fn assert_changed<R: AllocGlobal + Files<File = File> + Abort>(
    rt: &R,
    device: &mut FileDevice<SystemFile>,
    last: &LastFault,
    made: Change,
    kind: Option<FaultKind>,
) -> Result<(), Fail> {
    let host = Host(rt);
    assert_synced(&host, device, true);
    assert_same(&host, &last.get(), &None, &"before the change");
    make_change(rt, "device_tests_changed/device", made)?;
    assert_synced(&host, device, kind.is_none());
    let wanted = kind.map(|kind| FileFault { kind, errno: None });
    assert_same(&host, &last.get(), &wanted, &made);
    Ok(())
}

// Makes a file of four sectors, and checks what is noticed of a change of it.
fn assert_noticed<R: AllocGlobal + Files<File = File> + Abort>(
    rt: &R,
    made: Change,
    kind: Option<FaultKind>,
) -> Result<(), Fail> {
    let path = "device_tests_changed/device";
    fs::write(rt, path, &[7; 2048])?;
    let file = system_file(rt, path)?;
    let last = file.last_fault()?;
    let mut device = FileDevice::new(file)?;
    assert_changed(rt, &mut device, &last, made, kind)
}

#[test]
fn a_file_that_others_change_is_a_fault(rt: HostRuntime) {
    let folder = "device_tests_changed";
    let _ = fs::remove_dir_all(&rt, folder);
    fs::create_dir(&rt, folder).expect(&rt, "the folder is made");
    done(&rt, assert_noticed(&rt, Change::Nothing, None));
    done(&rt, assert_noticed(&rt, Change::Cut, Some(FaultKind::Cut)));
    let unlinked = Some(FaultKind::Unlinked);
    done(&rt, assert_noticed(&rt, Change::Unlink, unlinked));
    done(&rt, assert_noticed(&rt, Change::Replace, unlinked));
    fs::remove_dir_all(&rt, folder).expect(&rt, "the folder goes");
}

// Checks the text of a failure.
fn assert_text<R: AllocGlobal + Abort>(rt: &R, fault: FileFault, wanted: &str) -> Result<(), Fail> {
    let text = format!(in rt.alloc(); "{fault}")?;
    assert_eq!(rt; text.as_str(), wanted);
    Ok(())
}

// The failures of a file that has no room, and no sync.
const NO_ROOM: FileFault = FileFault {
    kind: FaultKind::Write,
    errno: Some(28),
};

const NO_SYNC: FileFault = FileFault {
    kind: FaultKind::Sync,
    errno: Some(22),
};

const CUT: FileFault = FileFault {
    kind: FaultKind::Cut,
    errno: None,
};

// Checks that a write and a sync of such a file fail, and are noted.
fn assert_noted(rt: &impl TestHost, file: &mut SystemFile, last: &LastFault) {
    let has_failed = file.write_at(0, &[0x11; 512]).is_err();
    assert_true(rt, has_failed, "the write fails");
    assert_same(rt, &last.get(), &Some(NO_ROOM), &"the write");
    assert_true(rt, file.sync_data().is_err(), "the sync fails");
    assert_same(rt, &last.get(), &Some(NO_SYNC), &"the sync");
}

// Checks the same of the system's file without room, whose note stays when the file is gone.
fn assert_full_noted<R: AllocGlobal + Files<File = File> + Abort>(rt: &R) -> Result<(), Fail> {
    let mut file = system_file(rt, "/dev/full")?;
    let last = file.last_fault()?;
    assert_noted(&Host(rt), &mut file, &last);
    drop(file);
    assert_same(&Host(rt), &last.get(), &Some(NO_SYNC), &"the sync");
    Ok(())
}

// The file has no room, and then no sync.
#[test]
fn the_last_failure_is_noted(rt: HostRuntime) {
    done(&rt, assert_full_noted(&rt));
    let text = "a write of the file failed: No space left on device (os error 28)";
    done(&rt, assert_text(&rt, NO_ROOM, text));
    done(&rt, assert_text(&rt, CUT, "the file was cut"));
}

fn sent<T: Send>(value: T) -> T {
    value
}

// The device goes to another thread, and what fails in it is seen from there too.
#[test]
fn a_device_over_a_file_may_go_to_another_thread(rt: HostRuntime) {
    let host = Host(&rt);
    let file = OpenOptions::new()
        .read(true)
        .open(&rt, "/dev/null")
        .expect(&rt, "the file is opened");
    let file = SystemFile::new(rt.alloc(), file).expect(&rt, "a file of the system");
    let last = sent(file.last_fault().expect(&rt, "the note of faults"));
    let device = sent(FileDevice::new(file).expect(&rt, "a device over the file"));
    let found = (device.sectors(), last.get());
    assert_same(&host, &found, &(0, None), &"sectors and fault");
}
