//! A file that is locked, before anything in it is changed.

ghost use Rattle.std.specs.Prelude.{◌≡◌, IfOk};
ghost use Rattle.sector_dev.specs.CountedFile.{calls_of, failures_of};
ghost use Rattle.device_files.specs.Descriptor.{IsAboveStandard};

use crate::creating::{Room, check_len, forget_cached, set_zeros};
use crate::opening::{DeviceKind, above_standard, check_path, check_writable, device_kind};
use sector_dev::SystemFile;
use std::alloc::Global;
use std::fs::{File, OpenOptions};
use std::rt::Files;
use std::{fs, io};

/// A file or a block device that this process alone may read and write, as it was found. Its
/// descriptor is above standard error's.
#[derive(Drop)]
pub struct LockedFile {
    file: File,
    kind: DeviceKind,
    ghost above: { IsAboveStandard file },
}

impl LockedFile {
    /// Opens and locks the file of a path. Where there is none, an empty one is made; one that
    /// exists is unchanged. Where another process has it open by a function of this library, the
    /// error is `WouldBlock`. A block device that takes no writes is refused, as by `open`.
    pub fn open<R: AllocGlobal + Files<File = File>>(rt: &R, path: &str) -> io::Result<LockedFile> {
        check_path(rt, path)?;
        let file = OpenOptions::new()
            .read(true)
            .write(true)
            .create(true)
            .open(rt, path)?;
        let file = above_standard(file)?;
        file.try_lock()?;
        let kind = device_kind(&file)?;
        if let DeviceKind::Block = kind {
            check_writable(&file)?;
        }
        Ok(LockedFile { file, kind })
    }

    /// Whether it is a file, whose length can be set, and no block device.
    pub fn is_file(&self) -> bool {
        matches!(self.kind, DeviceKind::File)
    }

    /// The file as it was found, to look at it. It shares the lock, which lasts as long as one of
    /// both.
    pub fn as_found(&self, alloc: Global) -> io::Result<SystemFile>
        ensures failures { IfOk result (λ file. failures_of file ≡ 0) }
        ensures above { IfOk result (λ file. IsAboveStandard (calls_of file)) }
    {
        let file = above_standard(self.file.try_clone()?)?;
        forget_cached(&file);
        SystemFile::new(alloc, file)
    }

    /// The file, cut to nothing and then of `len` zero bytes, which have room as `room` says. The
    /// file, its length and its name in its folder are synced before the call returns `Ok`. Where
    /// there is no room now, the file is left with no bytes. Where the process may not write as
    /// long a file, the error is `FileTooLarge`, and the file is unchanged. A block device is
    /// unchanged, whatever `len` is.
    pub fn into_zeros<R: AllocGlobal + Files<File = File>>(
        self,
        rt: &R,
        path: &str,
        len: u64,
        room: Room,
    ) -> io::Result<SystemFile>
        ensures failures { IfOk result (λ file. failures_of file ≡ 0) }
        ensures above { IfOk result (λ file. IsAboveStandard (calls_of file)) }
    {
        let LockedFile { file, kind } = self;
        match kind {
            DeviceKind::File => {
                check_len(rt, len)?;
                set_zeros(&file, len, room)?;
                sync_folder(rt, path)?;
            }
            DeviceKind::Block => forget_cached(&file),
        }
        SystemFile::new(rt.alloc(), file)
    }
}

// Syncs the folder that has the name of a file, which may be another one than the path's where the
// path is a link.
fn sync_folder<R: AllocGlobal + Files<File = File>>(rt: &R, path: &str) -> io::Result<()> {
    let path = fs::canonicalize(rt, path)?;
    match path.parent() {
        Some(folder) => File::open(rt, folder)?.sync_all(),
        None => Ok(()),
    }
}
