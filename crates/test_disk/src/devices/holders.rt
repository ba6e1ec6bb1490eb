//! Which process has a file locked, by lists that a test writes.
use crate::checks::done;
use crate::host::Host;
use device_files::holder_of;
use std::alloc::{Allocator, Global};
use std::fs::{File, Metadata, OpenOptions};
use std::path::PathBuf;
use std::process::Abort;
use std::rt::Files;
use std::test::Fail;
use std::{fs, io};
use test_support::assert_same;

// The system's list of locks.
const LOCKS: &str = "/proc/locks";

// The list of a test, in its place.
const LIST: &str = "device_tests_holders/list";

// A system whose list of locks is that of a test, and whose files have the number 0 on the device
// 00:00.
#[derive(Clone, Copy)]
struct Listed<R: Abort>(R);

impl<R: AllocGlobal + Abort> Alloc for Listed<R> {
    type A = Global;

    fn alloc(&self) -> Global {
        self.0.alloc()
    }
}

impl<R: Files<File = File> + Abort> Files for Listed<R> {
    type File = File;

    type Dir = R::Dir;

    fn open_file(&self, how: &OpenOptions, path: &str) -> io::Result<File> {
        self.0
            .open_file(how, if path == LOCKS { LIST } else { path })
    }

    fn open_dir(&self, path: &str) -> io::Result<R::Dir> {
        self.0.open_dir(path)
    }

    fn metadata(&self, _path: &str) -> io::Result<Metadata> {
        Ok(Metadata::of_file(0))
    }

    fn symlink_metadata(&self, path: &str) -> io::Result<Metadata> {
        self.0.symlink_metadata(path)
    }

    fn copy(&self, from: &str, to: &str) -> io::Result<u64> {
        self.0.copy(from, to)
    }

    fn rename(&self, from: &str, to: &str) -> io::Result<()> {
        self.0.rename(from, to)
    }

    fn remove_file(&self, path: &str) -> io::Result<()> {
        self.0.remove_file(path)
    }

    fn create_dir(&self, path: &str) -> io::Result<()> {
        self.0.create_dir(path)
    }

    fn remove_dir(&self, path: &str) -> io::Result<()> {
        self.0.remove_dir(path)
    }

    fn remove_dir_all<B: Allocator>(&self, alloc: B, path: &str) -> io::Result<()> {
        self.0.remove_dir_all(alloc, path)
    }

    fn canonicalize<B: Allocator>(&self, alloc: B, path: &str) -> io::Result<PathBuf<B>> {
        self.0.canonicalize(alloc, path)
    }
}

// Lists, each with the process that has the file 0 of the device 00:00 locked.
const LISTS: &[(&str, Option<u32>)] = &[
    ("", None),
    ("1: FLOCK  ADVISORY  WRITE 71 00:00:0 0 EOF\n", Some(71)),
    ("1: FLOCK  ADVISORY  READ 71 00:00:0 0 EOF\n", Some(71)),
    ("1: FLOCK  ADVISORY  WRITE 71 00:00:1 0 EOF\n", None),
    ("1: FLOCK  ADVISORY  WRITE 71 00:01:0 0 EOF\n", None),
    ("1: FLOCK  ADVISORY  WRITE 71 01:00:0 0 EOF\n", None),
    ("1: FLOCK  ADVISORY  WRITE 71 fe:1a:0 0 EOF\n", None),
    (
        "1: FLOCK  ADVISORY  WRITE 71 00:28:0 0 EOF\n2: FLOCK  ADVISORY  WRITE 72 00:00:0 0 EOF\n",
        Some(72),
    ),
    ("1: POSIX  ADVISORY  WRITE 71 00:00:0 0 EOF\n", None),
    ("1: -> FLOCK  ADVISORY  WRITE 71 00:00:0 0 EOF\n", None),
    ("1: FLOCK  ADVISORY  WRITE 71 00:0\n", None),
    ("1: FLOCK  ADVISORY  WRITE 71\n", None),
];

// Checks each list.
fn assert_lists<R: AllocGlobal + Files<File = File> + Abort + Copy>(rt: &R) -> Result<(), Fail> {
    for (list, wanted) in LISTS {
        fs::write(rt, LIST, list.as_bytes())?;
        let found = holder_of(&Listed(*rt), "device");
        assert_same(&Host(rt), &found, wanted, list);
    }
    Ok(())
}

#[test]
fn a_lock_is_of_a_file_on_its_device(rt: HostRuntime) {
    let folder = "device_tests_holders";
    let _ = fs::remove_dir_all(&rt, folder);
    fs::create_dir(&rt, folder).expect(&rt, "a folder");
    done(&rt, assert_lists(&rt));
    fs::remove_dir_all(&rt, folder).expect(&rt, "the folder goes");
}
