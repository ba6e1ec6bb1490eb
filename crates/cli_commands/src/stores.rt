//! The commands over the file of a device.

ghost use Rattle.std.specs.Prelude.{◌≡◌, ◌<◌, ◌^◌, ℕ, List, Some, None, codes};
ghost use Rattle.std.specs.Str.Parse.{IsNumeral, digits_value, without_leading_plus};
ghost use Rattle.clap.specs.Words.{found_of, one_text};
ghost use Rattle.store_layout.specs.Geometry.{geometry_view};
ghost use Rattle.cli_store.specs.Sizes.{sizes_for};
ghost use Rattle.cli_commands.specs.Options.{IsNumberOf};

use crate::failure::Failure;
use crate::opened::{Site, device_over};
use crate::progress::{MEBIBYTE, Progress};
use clap::ArgMatches;
use cli_store::{
    Consent, Fault, Wishes, ask, copy, decide, format, show, show_layout, sizes_for, status,
    upgrade, vacant,
};
use cli_words::{CHECKPOINT, DEVICE, FORCE, JOURNAL, JSON, LAYOUT, NEW, RESERVE, ROWS, TARGET};
use device_files::{LockedFile, Room, open, open_to_read};
use row_lines::RowForm;
use sector_dev::{FileDevice, SECTOR, SystemFile};
use std::alloc::Global;
use std::fs;
use std::fs::File;
use std::io::{BufWriter, Error, ErrorKind, Read, Write};
use std::os::unix::fs::MetadataExt;
use std::rt::Files;
use std::time::Clock;
use store_open::{Geometry, OpenError, read_geometry};

/// The least length of a file that is announced, in bytes: zeros for a shorter one are written
/// within a second or so.
const LONG: u64 = 256 * MEBIBYTE;

/// Makes a file, whose former contents are dropped where it exists, and a store on it. On a block
/// device only the store is made. Where a store is there, that is done only if the options say so,
/// or whoever is asked agrees; `is_terminal` says that a person can be asked. The file is locked
/// before it is looked at, and nothing of a store that is kept is written. No clause says what the
/// file has then: those of `ask` and `format` say it of any device.
pub fn format_file<'a, R: AllocGlobal + Files<File = File> + Eprint, I: Read, O: Write>(
    rt: &R,
    options: &ArgMatches<'a>,
    input: &mut I,
    output: &mut O,
    is_terminal: bool,
) -> Result<(), Failure<'a>> {
    let path = path_of(options);
    let file = LockedFile::open(rt, path).map_err(|error| Failure::File(path, error))?;
    let wishes = Wishes {
        is_new: options.get_flag(NEW),
        is_forced: options.get_flag(FORCE),
        is_terminal,
    };
    if decide(wishes) != Consent::Given {
        ask_for(rt.alloc(), path, &file, wishes, input, output)?;
    }
    make_store(rt, options, file, output)
}

/// Makes a store of the size that the options say in a file, if they ask for a new one and there is
/// no such file, or one without bytes. All else is left as it is. The file is locked before it is
/// looked at. No clause says what the file has then: those of `format` say it of any device.
pub fn make_where_none<'a, R: AllocGlobal + Files<File = File>>(
    rt: &R,
    options: &ArgMatches<'a>,
) -> Result<(), Failure<'a>> {
    let path = path_of(options);
    if !options.get_flag(NEW) || has_bytes(rt, path) {
        return Ok(());
    }
    let file = LockedFile::open(rt, path).map_err(|error| Failure::File(path, error))?;
    if !file.is_file() || has_bytes(rt, path) {
        return Ok(());
    }
    let geometry = sizes_for(options.get_one::<u32>(ROWS).unwrap_or(1));
    let len = geometry.sectors().saturating_mul(SECTOR as u64);
    let (mut device, site) = device_over(path, file.into_zeros(rt, path, len, Room::Later))?;
    let made = store_open::format(&mut device, geometry);
    site.said_of(made.map_err(Fault::Format))
}

/// Whether there is a file that has bytes at a path, or what is no file.
fn has_bytes<R: Files<File = File>>(rt: &R, path: &str) -> bool {
    match fs::metadata(rt, path) {
        Ok(found) => !found.is_file() || found.len() > 0,
        Err(_) => false,
    }
}

/// Asks whether a store may be made on a file, which is only read.
fn ask_for<'a, I: Read, O: Write>(
    alloc: Global,
    path: &'a str,
    file: &LockedFile,
    wishes: Wishes,
    input: &mut I,
    output: &mut O,
) -> Result<(), Failure<'a>> {
    let (mut device, site) = device_over(path, file.as_found(alloc))?;
    site.said_of(ask(alloc, path, &mut device, wishes, input, output))
}

/// Makes a store of the sizes that the options say on a file, and whatever was there is lost. The
/// file gets all its room at once where the options say so, which is announced where it takes long.
fn make_store<'a, R: AllocGlobal + Files<File = File> + Eprint, O: Write>(
    rt: &R,
    options: &ArgMatches<'a>,
    file: LockedFile,
    output: &mut O,
) -> Result<(), Failure<'a>> {
    let path = path_of(options);
    let geometry = sizes_of(
        options,
        Geometry {
            checkpoint: 0,
            journal: 0,
        },
    );
    let room = if options.get_flag(RESERVE) {
        Room::Now
    } else {
        Room::Later
    };
    let (mut device, site) = zeros_for(rt, path, file, geometry, room)?;
    site.said_of(format(rt.alloc(), &mut device, geometry, output))
}

/// The sizes that the options say, and those that they leave out from other sizes.
fn sizes_of(options: &ArgMatches<'_>, others: Geometry) -> Geometry
    ensures left_out { one_text (found_of options.now) (codes "rows") ≡ None
        → IsNumberOf (found_of options.now) (codes "checkpoint") 32 others.checkpoint result.checkpoint
        × IsNumberOf (found_of options.now) (codes "journal") 32 others.journal result.journal }
    ensures rows { (text : List ℕ) → one_text (found_of options.now) (codes "rows") ≡ Some text
        → IsNumeral 10 (without_leading_plus text) → digits_value 10 (without_leading_plus text) < 2 ^ 32
        → geometry_view result ≡ sizes_for (digits_value 10 (without_leading_plus text)) }
{
    match options.get_one::<u32>(ROWS) {
        Some(rows) => sizes_for(rows),
        None => Geometry {
            checkpoint: options
                .get_one::<u32>(CHECKPOINT)
                .unwrap_or(others.checkpoint),
            journal: options.get_one::<u32>(JOURNAL).unwrap_or(others.journal),
        },
    }
}

/// Makes a file, whose former contents are dropped where it exists and has no store, and on it a
/// store with the rows and the place of another file's store, which is only read, beside other
/// processes that read it. Sizes that are left out are those of the other store. The new file gets
/// all its room at once where the options say so, or where the other one has all of its own.
/// Standard error says each second how far it has come. No clause says what the files have then:
/// those of `copy` say it of any devices.
pub fn copy_file<'a, R: AllocGlobal + Files<File = File> + Clock + Eprint, O: Write>(
    rt: &R,
    options: &ArgMatches<'a>,
    output: &mut O,
) -> Result<(), Failure<'a>> {
    let path = path_of(options);
    let (mut from, old) = device_over(path, open_to_read(rt, path))?;
    let geometry = match read_geometry(&mut from) {
        Ok(Some(geometry)) => sizes_of(options, geometry),
        Ok(None) => return Err(old.failure(Fault::Open(OpenError::NotAStore))),
        Err(_) => return Err(old.failure(Fault::Open(OpenError::Device))),
    };
    let target = options.get_str(TARGET).unwrap_or("");
    let room = room_of(rt, options, path);
    let (to, new) = empty_device(rt, path, target, geometry, room)?;
    let mut from = Progress::over(rt, from, path, "read");
    let mut to = Progress::over(rt, to, target, "wrote");
    match copy(rt.alloc(), &mut from, &mut to, geometry, output) {
        Err(Fault::Open(error)) => Err(old.failure(Fault::Open(error))),
        copied => new.said_of(copied),
    }
}

/// When a copy of the file at a path gets its room: at once where the options say so, or where the
/// file system has given that file all of its own.
fn room_of<R: Files<File = File>>(rt: &R, options: &ArgMatches<'_>, path: &str) -> Room {
    if options.get_flag(RESERVE) || has_its_room(rt, path) {
        Room::Now
    } else {
        Room::Later
    }
}

/// Whether the file system has given a file room for all its bytes. A file system counts room in
/// blocks of 512 bytes. One of which nothing can be said has none, and so has what is no file.
fn has_its_room<R: Files<File = File>>(rt: &R, path: &str) -> bool {
    match fs::metadata(rt, path) {
        Ok(found) => {
            found.is_file() && found.len() > 0 && found.blocks() >= found.len().div_ceil(512)
        }
        Err(_) => false,
    }
}

/// A device over a file of zeros with room for a store of these sizes, or over a block device. The
/// file gets the room at once where that is asked for, which is announced where it takes long. A
/// file that has a store is refused, and left as it is. So is the file at `old`, which this process
/// has open.
fn empty_device<'a, R: AllocGlobal + Files<File = File> + Eprint>(
    rt: &R,
    old: &str,
    path: &'a str,
    geometry: Geometry,
    room: Room,
) -> Result<(FileDevice<SystemFile>, Site<'a>), Failure<'a>> {
    let file = LockedFile::open(rt, path).map_err(|error| Failure::File(
        path,
        no_target(rt, old, path, error),
    ))?;
    let (mut device, site) = device_over(path, file.as_found(rt.alloc()))?;
    site.said_of(vacant(&mut device))?;
    zeros_for(rt, path, file, geometry, room)
}

/// A device over a file of zeros with room for a store of these sizes, or over a block device. That
/// the file gets its room at once is announced where it takes long.
fn zeros_for<'a, R: AllocGlobal + Files<File = File> + Eprint>(
    rt: &R,
    path: &'a str,
    file: LockedFile,
    geometry: Geometry,
    room: Room,
) -> Result<(FileDevice<SystemFile>, Site<'a>), Failure<'a>> {
    let len = geometry.sectors().saturating_mul(SECTOR as u64);
    if room == Room::Now && len >= LONG && file.is_file() {
        let _ = eprintln!(rt; "pathd: {path}: writes {} MiB of zeros", len / MEBIBYTE);
    }
    device_over(path, file.into_zeros(rt, path, len, room))
}

/// Why a file is not opened while this process reads the one at `old`: it may be that file, on
/// which this process has a lock.
fn no_target<R: Files<File = File>>(rt: &R, old: &str, path: &str, error: Error) -> Error {
    if error.kind() == ErrorKind::WouldBlock && is_one_file(rt, old, path) {
        return Error::new(ErrorKind::InvalidInput, "OLD and NEW are one file");
    }
    error
}

/// Whether two paths have one file. One of which nothing can be said has another.
fn is_one_file<R: Files<File = File>>(rt: &R, one: &str, other: &str) -> bool {
    match (fs::metadata(rt, one), fs::metadata(rt, other)) {
        (Ok(one), Ok(other)) => one.dev() == other.dev() && one.ino() == other.ino(),
        _ => false,
    }
}

/// Prints the rows of a file's store and its place, or the layout of the file, which is then opened
/// for reading alone. No clause says what is printed: those of `show` and `show_layout` say it of
/// any device.
pub fn show_file<'a, R: AllocGlobal + Files<File = File>, O: Write>(
    rt: &R,
    options: &ArgMatches<'a>,
    output: &mut O,
) -> Result<(), Failure<'a>> {
    let path = path_of(options);
    let is_layout = options.get_flag(LAYOUT);
    let opened = if is_layout {
        open_to_read(rt, path)
    } else {
        open(rt, path)
    };
    let (device, site) = device_over(path, opened)?;
    let Ok(mut output) = BufWriter::new(rt.alloc(), output) else {
        return Err(Failure::Memory);
    };
    let shown = if is_layout {
        show_regions(rt.alloc(), device, &mut output)
    } else {
        show_rows(
            rt.alloc(),
            device,
            form_in(options, RowForm::Text),
            &mut output,
        )
    };
    let flushed = output.flush();
    site.said_of(shown)?;
    flushed.map_err(|_| Failure::Output)
}

/// Prints the layout of a device.
fn show_regions<O: Write>(
    alloc: Global,
    mut device: FileDevice<SystemFile>,
    output: &mut O,
) -> Result<(), Fault> {
    show_layout(alloc, &mut device, output)
}

/// Prints the rows of a device's store, and as text its place.
fn show_rows<O: Write>(
    alloc: Global,
    device: FileDevice<SystemFile>,
    form: RowForm,
    output: &mut O,
) -> Result<(), Fault> {
    match show(alloc, device, form, output) {
        Ok(_device) => Ok(()),
        Err((_device, fault)) => Err(fault),
    }
}

/// The form in which the options want rows: as JSON, or as this text.
pub(crate) fn form_in(options: &ArgMatches<'_>, text: RowForm) -> RowForm {
    if options.get_flag(JSON) {
        RowForm::Json
    } else {
        text
    }
}

/// Prints the status of a file's store. The file is opened for reading alone. No clause says what
/// is printed: that of `status` says it of any device.
pub fn status_of_file<'a, R: AllocGlobal + Files<File = File>, O: Write>(
    rt: &R,
    options: &ArgMatches<'a>,
    output: &mut O,
) -> Result<(), Failure<'a>> {
    let path = path_of(options);
    let (mut device, site) = device_over(path, open_to_read(rt, path))?;
    site.said_of(status(rt.alloc(), &mut device, output))
}

/// Brings a file's store to the version that is written. No clause says what the file has then:
/// those of `upgrade` say it of any device.
pub fn upgrade_file<'a, R: AllocGlobal + Files<File = File>, O: Write>(
    rt: &R,
    options: &ArgMatches<'a>,
    output: &mut O,
) -> Result<(), Failure<'a>> {
    let path = path_of(options);
    let (device, site) = device_over(path, open(rt, path))?;
    match upgrade(rt.alloc(), device, output) {
        Ok(_device) => Ok(()),
        Err((_device, fault)) => Err(site.failure(fault)),
    }
}

/// The path of the device's file.
fn path_of<'a>(options: &ArgMatches<'a>) -> &'a str {
    options.get_str(DEVICE).unwrap_or("")
}
