//! What a server begins with, and the opening of its store.
//!
//! Only this file has a device that code can write, and no function of it may wait.

ghost use Rattle.std.specs.Prelude.{◌≡◌, IfErr, IfOk};
ghost use Rattle.sector_dev.specs.Disk.{IsHonest, reads_of};
ghost use Rattle.sector_dev.specs.FileDevice.{file_disk};
ghost use Rattle.sector_dev.specs.Image.{IsFromImage};
ghost use Rattle.sector_dev.specs.Stretch.{Stretch};
ghost use Rattle.store_open.specs.Open.{IsOpened, OpensAlike};
ghost use Rattle.cli_program.specs.Serving.{RefusesStore};

use crate::addresses::listen;
use clap::ArgMatches;
use cli_commands::Failure;
use cli_words::DEVICE;
use path_hub::Reserved;
use sector_dev::{Device, FileDevice, LastFault, PositionedFile, SystemFile};
use server_front::Listeners;
use std::fs::File;
use std::marker::Model;
use std::net::{Net, TcpListener, TcpStream};
use std::rt::Files;
use std::sync::Arc;
use std::thread::Threads;
use store_open::open_in_threads;

/// What a server begins with, over a file of any kind.
#[derive(Drop)]
pub(crate) struct Site<'a, F: PositionedFile> {
    /// The path of the device's file.
    pub(crate) path: &'a str,
    // This file alone has it, until its store is reserved.
    device: FileDevice<F>,
    /// What failed last in that file.
    pub(crate) last_fault: Arc<LastFault>,
    /// Where the server listens, or why it does not, which is said once the store is open.
    listeners: ListenersOr<'a>,
}

/// Where a server listens, or why it does not.
pub(crate) type ListenersOr<'a> = Result<Listeners<TcpListener>, Failure<'a>>;

/// The device of a store that is not opened. Contracts see the device. No call of it writes.
#[derive(Drop)]
pub(crate) struct Unopened<D: Device> {
    device: D,
}

impl<D: Device> Model for Unopened<D> {
    ghost Value = { D };

    ghost view = { λ u. u.device };
}

impl<'a> Site<'a, SystemFile> {
    /// Opens the file of the words, and listens at their addresses.
    pub(crate) fn of_words<
        R: AllocGlobal + Files<File = File> + Net<Listener = TcpListener, Stream = TcpStream>,
    >(rt: &R, words: &ArgMatches<'a>) -> Result<Site<'a, SystemFile>, Failure<'a>> {
        let path = words.get_str(DEVICE).unwrap_or("");
        let no_file = |error| Failure::File(path, error);
        let file = device_files::open(rt, path).map_err(no_file)?;
        let Ok(last_fault) = file.last_fault() else {
            return Err(Failure::Memory);
        };
        let device = FileDevice::new(file).map_err(no_file)?;
        Ok(Site {
            path,
            device,
            last_fault,
            listeners: listen(rt, words),
        })
    }
}

impl<'a, F: PositionedFile + Drop> Site<'a, F> {
    /// Opens the store of the device, whose rows are read in threads, and reserves it: from then on
    /// its state alone has the device. Returns it with the listeners. Where the store is refused,
    /// it returns the device, and why.
    pub(crate) fn open<R: AllocGlobal + Threads + Sync>(
        self,
        rt: &R,
    ) -> Result<(Reserved<FileDevice<F>>, ListenersOr<'a>), (Unopened<FileDevice<F>>, Failure<'a>)>
        ensures opened { IfOk result (λ opened. IsHonest (file_disk self.entry.device) → IsOpened (reads_of (file_disk self.entry.device)) opened.0) }
        ensures any_moment { IfOk result (λ opened.
            Stretch (file_disk self.entry.device) opened.0.disk (IsFromImage (file_disk self.entry.device).history.now OpensAlike)) }
        ensures listeners { IfOk result (λ opened. opened.1 ≡ self.entry.listeners) }
        ensures refused { IfErr result (λ back. RefusesStore self.entry.path.now (file_disk self.entry.device) back.1 (file_disk back.0)) }
    {
        let Site {
            path,
            device,
            last_fault: _last_fault,
            listeners,
        } = self;
        match open_in_threads(rt, rt.alloc(), device) {
            Ok(store) => {
                let (store, _release) = Reserved::of(store);
                Ok((store, listeners))
            }
            Err((device, error)) => {
                Err((Unopened { device }, Failure::Store(path, error.into())))
            }
        }
    }
}
