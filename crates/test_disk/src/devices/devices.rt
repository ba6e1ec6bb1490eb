//! A device over the system's `/dev/full`, whose writes fail, and over its `/dev/null`, which has
//! no bytes to read.
ghost use Rattle.std.specs.Prelude.{◌≡◌};

use crate::devices::calls::assert_call;
use crate::host::Host;
use sector_dev::{CountedFile, FileCalls, FileDevice, FileStatus};
use std::fs::{File, OpenOptions};
use std::io;
use std::test::Fail;
use test_support::{TestHost, assert_same};

// A file of the system that reports four sectors. The two files report that they have none.
#[derive(Drop)]
struct FourSectors {
    file: File,
}

impl FileCalls for FourSectors {
    ghost use Rattle.std.specs.Prelude.{false, [], ⊤};
    ghost use Rattle.std.proofs.Common.{arith};

    ghost state = { λ _. record { is_honest = false; bytes = []; dirty = []; past = []; failures = 0 } };

    ghost returned_status = { λ _ status. ⊤ };

    ghost bytes = { λ four honest i. Prim.omega arith };

    fn status(&self) -> io::Result<FileStatus> {
        Ok(FileStatus {
            len: 2048,
            links: self.file.status()?.links,
        })
    }

    fn read_once(&self, offset: u64, into: &mut [u8]) -> io::Result<usize> {
        self.file.read_once(offset, into)
    }

    fn write_once(&mut self, offset: u64, bytes: &[u8]) -> io::Result<usize> {
        self.file.write_once(offset, bytes)
    }

    fn sync_once(&mut self) -> io::Result<()> {
        self.file.sync_once()
    }
}

// Whether each call succeeds, and the number of faults then: the system has no sync of either
// device.
const FULL: [(bool, u64); 6] = [
    (false, 1),
    (false, 2),
    (true, 2),
    (false, 3),
    (false, 4),
    (false, 5),
];

const NULL: [(bool, u64); 6] = [
    (true, 0),
    (false, 1),
    (false, 2),
    (true, 2),
    (true, 2),
    (false, 3),
];

// A device over this file.
fn device_over(rt: &HostRuntime, path: &str) -> Result<FileDevice<CountedFile<FourSectors>>, Fail> {
    let file = OpenOptions::new().read(true).write(true).open(rt, path)?;
    let file = CountedFile::new(rt.alloc(), FourSectors { file })?;
    Ok(FileDevice::new(file)?)
}

// Makes all calls, and checks the result of each, and that the file counts the same faults as the
// device.
fn assert_answers(
    rt: &impl TestHost,
    mut device: FileDevice<CountedFile<FourSectors>>,
    wanted: &[(bool, u64); 6],
) {
    for (number, wanted) in wanted.iter().enumerate() {
        assert_call(rt, &mut device, number as u64, *wanted, &number);
    }
    let failures = device.into_file().failures();
    assert_same(rt, &failures, &wanted[5].1, &"failures");
}

#[test]
fn a_device_without_room_is_a_fault(rt: HostRuntime) -> Result<(), Fail> {
    let host = Host(&rt);
    assert_answers(&host, device_over(&rt, "/dev/full")?, &FULL);
    Ok(())
}

#[test]
fn a_device_without_bytes_is_a_fault(rt: HostRuntime) -> Result<(), Fail> {
    let host = Host(&rt);
    assert_answers(&host, device_over(&rt, "/dev/null")?, &NULL);
    Ok(())
}
