//! Files that are opened by one process alone.
use crate::checks::{assert_bytes, done};
use crate::host::Host;
use device_files::{create, open, open_to_read};
use sector_dev::{PositionedFile, SystemFile};
use std::fs::File;
use std::io::ErrorKind::{self, InvalidInput, NotFound, WouldBlock};
use std::process::Abort;
use std::rt::Files;
use std::test::Fail;
use std::{fs, io};
use test_support::{TestHost, assert_same, assert_true};

// Makes a folder with one file of these bytes.
fn make_file(rt: &HostRuntime, folder: &str, path: &str, bytes: &[u8]) -> Result<(), Fail> {
    let _ = fs::remove_dir_all(rt, folder);
    fs::create_dir(rt, folder)?;
    Ok(fs::write(rt, path, bytes)?)
}

// Checks that what this says is not opened, with this kind of error.
fn assert_not_opened(
    rt: &impl TestHost,
    what: &str,
    opened: io::Result<SystemFile>,
    wanted: ErrorKind,
) {
    let kind = opened.err().map(|error| error.kind());
    assert_same(rt, &kind, &Some(wanted), &what);
}

// Checks that a file has these bytes.
fn assert_file<R: AllocGlobal + Files<File = File> + Abort>(
    rt: &R,
    path: &str,
    wanted: &[u8],
    what: &str,
) -> Result<(), Fail> {
    let bytes = fs::read(rt, path)?;
    assert_bytes(&Host(rt), &bytes, wanted, what);
    Ok(())
}

// Checks that a file is not opened for writing and not made anew.
fn assert_held<R: AllocGlobal + Files<File = File> + Abort>(rt: &R, path: &str, what: &str) {
    assert_not_opened(&Host(rt), what, open(rt, path), WouldBlock);
    assert_not_opened(&Host(rt), "a new file", create(rt, path, 512), WouldBlock);
}

// Opens a file, and checks that nobody opens it beside that.
fn assert_opened_once<R: AllocGlobal + Files<File = File> + Abort>(
    rt: &R,
    path: &str,
) -> Result<(), Fail> {
    let _first = open(rt, path)?;
    assert_held(rt, path, "a second writer");
    assert_not_opened(&Host(rt), "a reader", open_to_read(rt, path), WouldBlock);
    assert_file(rt, path, &[7; 600], "the file")
}

#[test]
fn a_file_is_opened_once_at_a_time(rt: HostRuntime) {
    let folder = "device_tests_once";
    let path = "device_tests_once/device";
    done(&rt, make_file(&rt, folder, path, &[7; 600]));
    done(&rt, assert_opened_once(&rt, path));
    drop(open(&rt, path).expect(&rt, "the file is opened"));
    fs::remove_dir_all(&rt, folder).expect(&rt, "the folder goes");
}

// Checks that a reader reads the file of 600 bytes, and does not write it.
fn assert_reads(rt: &impl TestHost, reader: &mut SystemFile) -> Result<(), Fail> {
    assert_same(rt, &reader.size()?, &600, &"size");
    let is_refused = reader.write_at(0, &[1; 512]).is_err();
    assert_true(rt, is_refused, "a reader does not write");
    Ok(())
}

// Opens a file to be read twice, and checks that nobody writes it beside that.
fn assert_readers<R: AllocGlobal + Files<File = File> + Abort>(
    rt: &R,
    path: &str,
) -> Result<(), Fail> {
    let mut first = open_to_read(rt, path)?;
    let _second = open_to_read(rt, path)?;
    assert_held(rt, path, "a writer");
    assert_reads(&Host(rt), &mut first)
}

#[test]
fn readers_stand_beside_each_other(rt: HostRuntime) {
    let folder = "device_tests_readers";
    let path = "device_tests_readers/device";
    done(&rt, make_file(&rt, folder, path, &[7; 600]));
    done(&rt, assert_readers(&rt, path));
    done(&rt, assert_file(&rt, path, &[7; 600], "the file"));
    fs::remove_dir_all(&rt, folder).expect(&rt, "the folder goes");
}

// Makes a file, and checks that it has these zeros while it is open. Returns the file.
fn made<R: AllocGlobal + Files<File = File> + Abort>(
    rt: &R,
    path: &str,
    zeros: &[u8],
    what: &str,
) -> Result<SystemFile, Fail> {
    let made = create(rt, path, zeros.len() as u64)?;
    assert_same(&Host(rt), &made.failures(), &0, &"failures");
    assert_file(rt, path, zeros, what)?;
    Ok(made)
}

#[test]
fn a_file_is_made_of_zeros(rt: HostRuntime) {
    let folder = "device_tests_made";
    let path = "device_tests_made/device";
    done(&rt, make_file(&rt, folder, path, &[7; 600]));
    let first = done(&rt, made(&rt, path, &[0; 1024], "the file that was there"));
    let path = "device_tests_made/other";
    let other = done(&rt, made(&rt, path, &[0; 512], "the new file"));
    drop((first, other));
    fs::remove_dir_all(&rt, folder).expect(&rt, "the folder goes");
}

#[test]
fn only_files_and_block_devices_are_opened(rt: HostRuntime) {
    let host = Host(&rt);
    let folder = "device_tests_kinds";
    let path = "device_tests_kinds/device";
    done(&rt, make_file(&rt, folder, path, &[]));
    assert_not_opened(&host, "a folder", open_to_read(&rt, folder), InvalidInput);
    assert_not_opened(&host, "/dev/null", open(&rt, "/dev/null"), InvalidInput);
    assert_not_opened(
        &host,
        "/dev/full",
        create(&rt, "/dev/full", 512),
        InvalidInput,
    );
    let missing = "device_tests_kinds/missing/device";
    assert_not_opened(&host, "what is missing", open(&rt, missing), NotFound);
    assert_not_opened(
        &host,
        "a file in no folder",
        create(&rt, missing, 512),
        NotFound,
    );
    fs::remove_dir_all(&rt, folder).expect(&rt, "the folder goes");
}
