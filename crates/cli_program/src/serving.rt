//! The command that serves sessions over TCP.

ghost use Rattle.std.specs.Prelude.{◌≡◌, Err, IfOk, IfErr, IfNone, IfSome, IsSome, IsOk, IsErr, OnOk, OnErr};
ghost use Rattle.sector_dev.specs.FileDevice.{file_disk, file_state};
ghost use Rattle.cli_program.specs.Failures.{failure_of};
ghost use Rattle.cli_program.specs.Serving.{LeavesUnserved, RefusesStore, ServesFile, told_by};

use crate::notices::Notices;
use crate::server_options::options_of;
use crate::site::{Site, Unopened};
use crate::starting::{say_addresses, say_opened, say_overfull, say_wildcards, say_without_cores};
use crate::system::{Host, System};
use crate::usage::UsageFiles;
use clap::ArgMatches;
use cli_commands::{Failure, make_where_none};
use cli_words::{CORES, LOG_PRIORITY, QUIET, STOP_ON_END_OF_INPUT};
use command_queue::Queued;
use path_hub::Ended;
use path_server::{Options, RunError, serve_store};
use prefix_recovery::ServerTrace;
use sector_dev::{FileDevice, PositionedFile, SystemFile};
use std::io::{Read, Write};
use std::snapshot::Snapshot;
use std::time::Instant;
use std::{io, thread};

/// Serves the sessions of a store. Prints `ready` once peers are answered, and the number of
/// sessions at the end. The core ASes and the key are judged before the file is opened, and before
/// a store is made where the words ask for that. The server listens before the store is opened, so
/// that peers that come early wait for the store.
pub(crate) fn serve_file<'a, R: System, I: Read + Drop + Send + 'static, O: Write>(
    rt: &R,
    words: &ArgMatches<'a>,
    input: I,
    output: &mut O,
) -> Result<(), Failure<'a>> {
    let options = options_of(rt.alloc(), words)?;
    make_where_none(rt, words)?;
    let site = Site::of_words(rt, words)?;
    let count = serve_noted(rt, words, site, &options, input, output)?;
    print_served(output, count).map_err(|_| Failure::Output)
}

/// Serves the sessions of a store, with lines on standard error. Returns the number of sessions.
fn serve_noted<'a, R: System, I: Read + Drop + Send + 'static, O: Write>(
    rt: &R,
    words: &ArgMatches<'a>,
    site: Site<'a, SystemFile>,
    options: &Options,
    input: I,
    output: &mut O,
) -> Result<u64, Failure<'a>> {
    let (is_quiet, is_marked) = (words.get_flag(QUIET), words.get_flag(LOG_PRIORITY));
    let usage = UsageFiles::open(rt);
    let Ok(notices) = Notices::new(rt, is_quiet, is_marked, &site.last_fault, usage) else {
        return Err(Failure::Memory);
    };
    match words.get_str(CORES) {
        Some(list) => say_wildcards(rt.alloc(), &notices, list),
        None => say_without_cores(rt.alloc(), &notices),
    }
    let input = words.get_flag(STOP_ON_END_OF_INPUT).then_some(input);
    let served = serve_beside(rt, site, options, &notices, input, output);
    notices.end();
    served
}

/// Serves the sessions of a store in a thread of its own, and meanwhile announces that it does.
/// Returns the number of sessions. Memory is refused where no thread is given.
fn serve_beside<'a, R: System, I: Read + Drop + Send + 'static, O: Write>(
    rt: &R,
    site: Site<'a, SystemFile>,
    options: &Options,
    notices: &Notices<R>,
    input: Option<I>,
    output: &mut O,
) -> Result<u64, Failure<'a>> {
    thread::scope(thread::scope_env(), rt, |threads| {
        let Ok(serving) = threads.spawn(move || {
            let served = count_of(serve_site(site, options, notices));
            notices.note_over();
            served
        }) else {
            return Err(Failure::Memory);
        };
        let announced = announce(notices, input, output);
        if announced.is_err() {
            notices.ask_for_end();
        }
        let served = serving.join(rt);
        announced?;
        served
    })
}

/// How the serving of an opened store has ended.
#[derive(Drop)]
struct SiteEnd<'a, F: PositionedFile> {
    /// The device.
    device: Ended<FileDevice<F>>,
    /// What the server left, if the store was served.
    left: Option<ServerLeft<F>>,
    /// The number of sessions that were served, or why not all of them were.
    served: Result<u64, Failure<'a>>,
}

/// What a server has left.
#[derive(Drop)]
struct ServerLeft<F: PositionedFile> {
    /// Its trace. `prefix_recovery::reopen_left` says what it opens to after a stop at any moment.
    trace: ServerTrace<FileDevice<F>>,
    /// All commands that were handed in at its queue.
    queued: Queued,
}

/// Opens the store of a device and serves its sessions. It ends in one of three ways:
///
/// - The store is refused. The device is as it was found, and the failure is that of its contents
///   (`RefusesStore`).
/// - The store is opened and not served: there are no listeners, or no server was made. Nothing was
///   written since the opening, and the failure says why (`LeavesUnserved`).
/// - The store is served, which leaves the server's trace with the log of all commands that were
///   accepted. What a stop at any moment leaves of an honest file opens to the rows that it had at
///   the start after a front of that log, with each acknowledged command from its commit on
///   (`ServesFile`).
fn serve_site<'a, R: Host, F: PositionedFile + Drop + Send>(
    site: Site<'a, F>,
    options: &Options,
    notices: &Notices<R>,
) -> Result<SiteEnd<'a, F>, (Unopened<FileDevice<F>>, Failure<'a>)>
    ensures served { IfOk result (λ end. IfSome end.left (λ left.
        ServesFile (file_disk site.entry.device) left.trace left.queued (file_state end.device) (file_disk end.device))) }
    ensures unserved { IfOk result (λ end. IfNone end.left
        (LeavesUnserved (file_disk site.entry.device) site.entry.listeners end.served (file_disk end.device))) }
    ensures unopened { IfErr result (λ back. RefusesStore site.entry.path.now (file_disk site.entry.device) back.1 (file_disk back.0)) }
    ensures made { IfOk result (λ end. OnOk end.served (IsSome end.left)) }
{
    let rt = notices.host();
    let begun = Instant::now(rt).ok();
    let path = site.path;
    let (store, listeners) = site.open(rt)?;
    say_opened(rt, notices, path, store.as_store(), begun);
    let listeners = match listeners {
        Ok(listeners) => listeners,
        Err(failure) => {
            return Ok(SiteEnd {
                device: store.end(),
                left: None,
                served: Err(failure),
            });
        }
    };
    say_addresses(rt.alloc(), notices, path, store.as_store(), &listeners);
    say_overfull(notices, store.as_store());
    let start = Snapshot::of(store.as_store());
    let (device, left, served) = serve_store(rt, rt.alloc(), listeners, store, options, notices);
    device.device().covers_images();
    let left = match left {
        Some(left) => {
            let (left, queued) = left.into_parts();
            let trace = ServerTrace::of(start, left, device.device());
            Some(ServerLeft { trace, queued })
        }
        None => None,
    };
    Ok(SiteEnd {
        device,
        left,
        served: after_serving(notices, served),
    })
}

/// The number of sessions that a site has served, or why not all of them were.
fn count_of<'a, F: PositionedFile + Drop>(
    end: Result<SiteEnd<'a, F>, (Unopened<FileDevice<F>>, Failure<'a>)>,
) -> Result<u64, Failure<'a>>
    ensures opened { IfOk end.entry (λ end. result ≡ end.served) }
    ensures unopened { IfErr end.entry (λ back. result ≡ Err back.1) }
{
    match end {
        Ok(end) => end.served,
        Err((_device, failure)) => Err(failure),
    }
}

/// The number of sessions that were served, which is said, or why the server failed.
fn after_serving<'a, R: Host>(
    notices: &Notices<R>,
    served: Result<u64, RunError>,
) -> Result<u64, Failure<'a>>
    ensures told { result ≡ told_by served }
    ensures served { OnOk result (IsOk served) }
    ensures failed { OnErr result (IsErr served) }
{
    match served {
        Ok(count) => {
            notices.say("ended".to_string(notices.host().alloc()));
            Ok(count)
        }
        Err(error) => Err(failure_of(error)),
    }
}

/// Why a server ended early.
fn failure_of<'a>(error: RunError) -> Failure<'a>
    ensures { result ≡ failure_of error }
{
    match error {
        RunError::NoMemory => Failure::ServerMemory,
        RunError::Net => Failure::BrokenListener,
    }
}

/// Prints that peers are answered, once they are and the lines of the start are printed. From then
/// on the end of the input, if there is one, ends the server.
fn announce<'a, R: Host, I: Read + Drop + Send + 'static, O: Write>(
    notices: &Notices<R>,
    input: Option<I>,
    output: &mut O,
) -> Result<(), Failure<'a>> {
    if !notices.wait_until_ready() {
        return Ok(());
    }
    notices.flush();
    print_ready(output).map_err(|_| Failure::Output)?;
    match input {
        Some(input) => notices.end_with(input).map_err(|_| Failure::Memory),
        None => Ok(()),
    }
}

/// Prints that peers are answered.
fn print_ready<O: Write>(output: &mut O) -> io::Result<()> {
    writeln!(output, "ready")?;
    output.flush()
}

/// Prints the number of sessions that were served.
fn print_served<O: Write>(output: &mut O, count: u64) -> io::Result<()> {
    writeln!(output, "served {count}")?;
    output.flush()
}
