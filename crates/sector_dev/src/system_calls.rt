//! The calls of the system on an open file. No contract states what the system does, so here alone
//! a file is not called honest. Each method is one call, and that of a block device's status is
//! two.

use crate::{FileCalls, FileStatus};
use std::fs::File;
use std::io;
use std::io::{Seek, SeekFrom};
use std::os::unix::fs::{FileExt, FileTypeExt, MetadataExt};

impl FileCalls for File {
    ghost use Rattle.std.specs.Prelude.{false, [], ⊤};
    ghost use Rattle.std.proofs.Common.{arith};

    ghost state = { λ _. record { is_honest = false; bytes = []; dirty = []; past = []; failures = 0 } };

    ghost returned_status = { λ _ status. ⊤ };

    ghost bytes = { λ file honest i. Prim.omega arith };

    // The metadata of a block device has no length, which is the offset of its end.
    fn status(&self) -> io::Result<FileStatus> {
        let metadata = self.metadata()?;
        let len = if metadata.file_type().is_block_device() {
            (&mut &*self).seek(SeekFrom::End(0))?
        } else {
            metadata.len()
        };
        Ok(FileStatus {
            len,
            links: metadata.nlink(),
        })
    }

    fn read_once(&self, offset: u64, into: &mut [u8]) -> io::Result<usize> {
        self.read_at(into, offset)
    }

    fn write_once(&mut self, offset: u64, bytes: &[u8]) -> io::Result<usize> {
        self.write_at(bytes, offset)
    }

    fn sync_once(&mut self) -> io::Result<()> {
        self.sync_data()
    }
}
