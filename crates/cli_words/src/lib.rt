//! The words of the program's command line, as `clap` reads them.
//!
//! To the layer above, `command` is the program's command with those within it that have the names
//! of `ONCE`, `FORMAT`, `COPY`, `SHOW`, `STATUS`, `UPGRADE`, `RUN` and `ASK`, and `read` reads
//! words by it, as a `CommandLine`; what their options say is read by `clap`, but that numbers are
//! decimal digits alone.
#![tactic(auto)]

mod command_line;
mod reading;
mod request;

ghost use Rattle.std.specs.Prelude.{◌≡◌, [], ◌∷◌, ◌++◌, codes, IfOk, IsOkAnd};
ghost use Rattle.clap.specs.Words.{subcommand_names};
ghost use Rattle.clap.specs.declared.builder.command.Command.TheViews.{out-Command};

use clap::{Arg, ArgAction, Command, value_parser};
pub use command_line::{CommandLine, Subcommand};
pub use reading::{read, request_in, words_in};
pub use request::Request;
use std::alloc::{AllocError, Global};
use store_layout::{LEAST_CHECKPOINT, LEAST_JOURNAL, MOST_SECTORS};

/// The name of the command that answers one session.
pub const ONCE: &str = "once";

/// The name of its option with the core ASes.
pub const CORES: &str = "cores";

/// The name of its option with the moment, in half seconds since 1970.
pub const NOW: &str = "now";

/// The name of its option with the key by which signatures are checked, as hexadecimal text.
pub const KEY: &str = "key";

/// The name of its flag for hexadecimal input and output.
pub const HEX: &str = "hex";

/// The name of the command that makes a store.
pub const FORMAT: &str = "format";

/// The name of the command that makes a store with the rows of another.
pub const COPY: &str = "copy";

/// The name of the command that prints what a store has.
pub const SHOW: &str = "show";

/// The name of the command that prints the status of a store.
pub const STATUS: &str = "status";

/// The name of the command that brings a store to the version that is written.
pub const UPGRADE: &str = "upgrade";

/// The name of the command that serves sessions over TCP.
pub const RUN: &str = "run";

/// The name of its option with the socket address.
pub const LISTEN: &str = "listen";

/// The name of its option with the socket address at which its numbers are answered.
pub const STATUS_LISTEN: &str = "status";

/// The name of its option with the socket address for sessions that only look up.
pub const LOOKUPS: &str = "lookups";

/// The name of its option with the number of their seats.
pub const LOOKUP_SEATS: &str = "lookup-seats";

/// The name of its option with the number of sessions.
pub const SESSIONS: &str = "sessions";

/// The name of its option with the seconds that a peer may be silent.
pub const IDLE: &str = "idle";

/// The name of its option with the number of sessions that one address may have open.
pub const PEER_SESSIONS: &str = "peer-sessions";

/// The name of its option with the seconds by which a time may lie in the future.
pub const FUTURE: &str = "future";

/// The name of its option with the number of seats that commands under way leave to others.
pub const SPARE: &str = "spare";

/// The greatest value of `LOOKUP_SEATS` and of `SPARE`, as the server has it: of its 64 seats 8 are
/// always for sessions that may have commands.
pub const MOST_SEATS: i64 = 56;

/// The name of its flag by which lists are answered.
pub const LISTS: &str = "lists";

/// The name of its option with the seconds for which a peer that has ended its side is awaited.
pub const LEAVE: &str = "leave";

/// The name of its option with the status of a failure that a server meets again.
pub const FINAL_STATUS: &str = "final-status";

/// The name of its option with the seconds from one purge of the server's own to the next, and of
/// the request that drops what has expired.
pub const PURGE: &str = "purge";

/// The name of its option with the seconds for which these purges keep what has expired.
pub const PURGE_GRACE: &str = "purge-grace";

/// The name of its flag by which the end of standard input ends the server.
pub const STOP_ON_END_OF_INPUT: &str = "stop-on-end-of-input";

/// The name of its option with the seconds that open sessions have at such an end.
pub const GRACE: &str = "grace";

/// The name of its flag that turns off the lines on standard error.
pub const QUIET: &str = "quiet";

/// The name of its flag by which the lines on standard error have their priorities.
pub const LOG_PRIORITY: &str = "log-priority";

/// The name of the command that asks a server.
pub const ASK: &str = "ask";

/// The name of its argument with the server's socket address.
pub const SERVER: &str = "server";

/// The name of its argument with the name of the request.
pub const REQUEST: &str = "request";

/// The name of its argument with the words after the name of the request.
pub const WORDS: &str = "words";

/// The name of its option with the seconds that a connection or a reply may take.
pub const TIMEOUT: &str = "timeout";

/// The name of its option with the seconds for which a server is awaited.
pub const WAIT: &str = "wait";

/// The name of its flag by which a purge is one command.
pub const AT_ONCE: &str = "at-once";

/// The name of the request for the segments between two ASes.
pub const LOOKUP: &str = "lookup";

/// The name of the request for all segments of some types.
pub const LIST: &str = "list";

/// The name of the request that registers segments.
pub const REGISTER: &str = "register";

/// The name of the request that drops one segment.
pub const REMOVE: &str = "remove";

/// The names of all requests.
const REQUESTS: &[&str] = &[LOOKUP, LIST, REGISTER, PURGE, REMOVE];

/// The most words after the name of a request.
const MOST_WORDS: usize = 3;

/// The name of the flag for lines of JSON.
pub const JSON: &str = "json";

/// The name of the argument with the path of a device's file.
pub const DEVICE: &str = "device";

/// The name of the argument with the path of the file to which a store is copied.
pub const TARGET: &str = "target";

/// The name of the option with the size of a checkpoint area, in sectors.
pub const CHECKPOINT: &str = "checkpoint";

/// The name of the option with the size of a journal, in sectors.
pub const JOURNAL: &str = "journal";

/// The name of the option with the number of rows for which a store has room.
pub const ROWS: &str = "rows";

/// The most such rows: a sector of a checkpoint area is reserved for each, and one more.
const MOST_ROWS: u32 = MOST_SECTORS - 1;

/// The name of the flag by which a store is made only where none is, by `FORMAT` or by `RUN`.
pub const NEW: &str = "new";

/// The name of the flag by which a store that is there is lost without asking.
pub const FORCE: &str = "force";

/// The name of the flag by which a file gets all its room at once.
pub const RESERVE: &str = "reserve";

/// The name of the flag for the layout of a device.
pub const LAYOUT: &str = "layout";

/// The version of the program, and the versions of the store's format that it reads.
pub const VERSION: &str = "1.0-rc1 (format versions 1 and 2)";

/// What the help says of the core ASes.
const CORES_HELP: &str =
    "The core ASes, as ISD-AS texts joined by commas; without it no AS is core";

/// What follows the options in the help of the command that serves sessions.
const RUN_NOTES: &str = concat!(
    "DEV is a file or a block device with a store that `pathd format` has made. ADDR is an address{n}",
    "or a name, and a port, as 127.0.0.1:30252 or localhost:30252. SECONDS are whole seconds.{n}{n}",
    "Example:{n}",
    "  pathd run store --listen 127.0.0.1:30252 --cores 1-ff00:0:110,2-64512 --idle 60",
);

/// What follows the options in the help of the command that asks a server.
const ASK_NOTES: &str = concat!(
    "Requests:{n}",
    "  lookup SRC DST             The segments that a lookup from SRC to DST finds{n}",
    "  list [TYPE [START [END]]]  All segments, or those of a type whose ends START and END cover{n}",
    "  register FILE              Register the segments of lines that --json has printed; - is standard input{n}",
    "  purge [T]                  Drop what expires by T or has expired now, in steps{n}",
    "  remove TYPE ID             Drop one segment{n}{n}",
    "SRC, DST, START and END are ISD-AS texts; a part that is 0 covers all. TYPE is up, down or core.{n}",
    "T is in half seconds since 1970. ID has 64 hexadecimal digits.{n}{n}",
    "Example:{n}",
    "  pathd ask 127.0.0.1:30252 lookup 1-ff00:0:110 1-ff00:0:111",
);

/// The help on the flag for the room of a file.
const RESERVE_HELP: &str =
    "Write zeros over the whole file, so that the disk gives it all its room";

/// What the help says of lines of JSON.
const JSON_HELP: &str = "Print lines of JSON, which have all of a segment";

/// What the help says of the key.
const KEY_HELP: &str = "Check signatures by this key of a test profile; without it all are trusted";

/// What the help says of the size of a checkpoint area.
const CHECKPOINT_HELP: &str = "The sectors of a checkpoint area, 2 to 1048576";

/// What the help says of the size of a journal.
const JOURNAL_HELP: &str = "The sectors of a journal, 516 to 1048576";

/// What the help says of the number of rows.
const ROWS_HELP: &str =
    "Reserve a sector of a checkpoint area for each of this number of rows, and a journal to match";

/// The program's commands and their options.
pub fn command<'a>(alloc: Global) -> Result<Command<'a>, AllocError>
    ensures { IfOk result (λ command. subcommand_names command
        ≡ codes "once" ∷ codes "format" ∷ codes "copy" ∷ codes "show" ∷ codes "status" ∷ codes "upgrade" ∷ codes "run" ∷ codes "ask" ∷ []) }
{
    let command = bare_command(alloc)?;
    let command = with_subcommand(command, once_command(alloc))?;
    let command = with_subcommand(command, format_command(alloc))?;
    let command = with_subcommand(command, copy_command(alloc))?;
    let command = with_subcommand(command, show_command(alloc))?;
    let command = with_subcommand(command, status_command(alloc))?;
    let command = with_subcommand(command, upgrade_command(alloc))?;
    let command = with_subcommand(command, run_command(alloc))?;
    with_subcommand(command, ask_command(alloc))
}

/// A command of the program by itself, for its usage.
fn command_of<'a>(alloc: Global, subcommand: Subcommand) -> Result<Command<'a>, AllocError> {
    match subcommand {
        Subcommand::Once => once_command(alloc)?.bin_name("pathd once"),
        Subcommand::Format => format_command(alloc)?.bin_name("pathd format"),
        Subcommand::Copy => copy_command(alloc)?.bin_name("pathd copy"),
        Subcommand::Show => show_command(alloc)?.bin_name("pathd show"),
        Subcommand::Status => status_command(alloc)?.bin_name("pathd status"),
        Subcommand::Upgrade => upgrade_command(alloc)?.bin_name("pathd upgrade"),
        Subcommand::Run => run_command(alloc)?.bin_name("pathd run"),
        Subcommand::Ask => ask_command(alloc)?.bin_name("pathd ask"),
    }
}

/// The program's command, with none within it.
fn bare_command<'a>(alloc: Global) -> Result<Command<'a>, AllocError>
    ensures { IfOk result (λ command. subcommand_names command ≡ []) }
{
    let command = Command::new(alloc, "pathd")
        .about("A path segment server for the core ASes of a SCION network")
        .version(VERSION)
        .bin_name("pathd")?
        .subcommand_required(true);
    Ok(command)
}

/// Puts a command after those within another. Where memory for that command was refused, the
/// error is passed on, so that a caller has one way out for both.
fn with_subcommand<'a>(
    command: Command<'a>,
    subcommand: Result<Command<'a>, AllocError>,
) -> Result<Command<'a>, AllocError>
    ensures { IfOk result (λ new. IsOkAnd subcommand.entry
        (λ sub. subcommand_names new ≡ subcommand_names command.entry ++ (out-Command sub).name.now ∷ [])) }
{
    let subcommand = subcommand?;
    command.subcommand(subcommand)
}

/// A command with a name, and what the help says of it.
fn bare<'a>(
    alloc: Global,
    name: &'static str,
    about: &'static str,
) -> Result<Command<'a>, AllocError>
    ensures { IfOk result (λ command. (out-Command command).name.now ≡ name.now) }
{
    Ok(Command::new(alloc, name).about(about))
}

/// Gives the command with a name an argument. Where memory for the command was refused, the error
/// is passed on, so that a caller has one way out for all.
fn with_arg<'a>(
    command: Result<Command<'a>, AllocError>,
    name: &str,
    arg: Arg<'a>,
) -> Result<Command<'a>, AllocError>
    requires { IfOk command (λ old. (out-Command old).name.now ≡ name.now) }
    ensures { IfOk result (λ new. (out-Command new).name.now ≡ name.now) }
{
    let _name = name;
    command?.arg(arg)
}

/// Gives the command with a name an argument, or passes the error on where memory for either was
/// refused.
fn with_made_arg<'a>(
    command: Result<Command<'a>, AllocError>,
    name: &str,
    arg: Result<Arg<'a>, AllocError>,
) -> Result<Command<'a>, AllocError>
    requires { IfOk command (λ old. (out-Command old).name.now ≡ name.now) }
    ensures { IfOk result (λ new. (out-Command new).name.now ≡ name.now) }
{
    let arg = arg?;
    with_arg(command, name, arg)
}

/// The command that answers one session.
fn once_command<'a>(alloc: Global) -> Result<Command<'a>, AllocError>
    ensures { IfOk result (λ command. (out-Command command).name.now ≡ codes "once") }
{
    let about = "Answers one session from standard input to standard output";
    let now = "The moment, in half seconds since 1970 [default: 0]";
    let hex = "Read hexadecimal text, and print each reply as a line of it";
    let command = bare(alloc, ONCE, about);
    let command = with_arg(command, ONCE, option(alloc, CORES, "LIST", CORES_HELP));
    let command = with_arg(command, ONCE, number(option(alloc, NOW, "T", now)));
    let command = with_arg(command, ONCE, option(alloc, KEY, "HEX", KEY_HELP));
    with_arg(command, ONCE, flag(alloc, HEX, hex))
}

/// The command that makes a store.
fn format_command<'a>(alloc: Global) -> Result<Command<'a>, AllocError>
    ensures { IfOk result (λ command. (out-Command command).name.now ≡ codes "format") }
{
    let about =
        "Makes a file of 1 + 2 * (C + 1 + J) sectors with an empty store; one that is there is lost";
    let command = bare(alloc, FORMAT, about);
    let command = with_arg(command, FORMAT, device_argument(alloc));
    let command = with_arg(command, FORMAT, checkpoint_option(alloc));
    let command = with_arg(command, FORMAT, journal_option(alloc));
    let command = with_made_arg(command, FORMAT, rows_option(alloc));
    with_consent(alloc, command)
}

/// The command that makes a store with the rows of another.
fn copy_command<'a>(alloc: Global) -> Result<Command<'a>, AllocError>
    ensures { IfOk result (λ command. (out-Command command).name.now ≡ codes "copy") }
{
    let about =
        "Makes a store with the rows and the place of another, of other sizes where these are given";
    let command = bare(alloc, COPY, about);
    let command = with_arg(command, COPY, source_argument(alloc));
    let command = with_arg(command, COPY, target_argument(alloc));
    let command = with_arg(command, COPY, checkpoint_option(alloc));
    let command = with_arg(command, COPY, journal_option(alloc));
    let command = with_made_arg(command, COPY, rows_option(alloc));
    with_arg(command, COPY, flag(alloc, RESERVE, RESERVE_HELP))
}

/// Gives the command that makes a store the flags for one that is there, and for the file's room.
fn with_consent<'a>(
    alloc: Global,
    command: Result<Command<'a>, AllocError>,
) -> Result<Command<'a>, AllocError>
    requires { IfOk command (λ old. (out-Command old).name.now ≡ codes "format") }
    ensures { IfOk result (λ new. (out-Command new).name.now ≡ codes "format") }
{
    let new = "Refuse where a store is";
    let force = "Lose a store that is there, without asking";
    let command = with_arg(command, FORMAT, flag(alloc, NEW, new));
    let force = flag(alloc, FORCE, force).conflicts_with(NEW);
    let command = with_made_arg(command, FORMAT, force);
    with_arg(command, FORMAT, flag(alloc, RESERVE, RESERVE_HELP))
}

/// The command that prints what a store has.
fn show_command<'a>(alloc: Global) -> Result<Command<'a>, AllocError>
    ensures { IfOk result (λ command. (out-Command command).name.now ≡ codes "show") }
{
    let about = "Opens a store, and prints its rows and its place";
    let layout = "Draw what stands where instead, and change nothing";
    let command = bare(alloc, SHOW, about);
    let command = with_arg(command, SHOW, device_argument(alloc));
    let command = with_arg(command, SHOW, flag(alloc, LAYOUT, layout));
    let json = flag(alloc, JSON, JSON_HELP).conflicts_with(LAYOUT);
    with_made_arg(command, SHOW, json)
}

/// The command that prints the status of a store.
fn status_command<'a>(alloc: Global) -> Result<Command<'a>, AllocError>
    ensures { IfOk result (λ command. (out-Command command).name.now ≡ codes "status") }
{
    let about = "Prints the numbers of a store, a line each, and changes nothing";
    with_arg(bare(alloc, STATUS, about), STATUS, device_argument(alloc))
}

/// The command that brings a store to the version that is written.
fn upgrade_command<'a>(alloc: Global) -> Result<Command<'a>, AllocError>
    ensures { IfOk result (λ command. (out-Command command).name.now ≡ codes "upgrade") }
{
    let about = "Opens a store, and writes it in version 2 where it is of version 1";
    with_arg(bare(alloc, UPGRADE, about), UPGRADE, device_argument(alloc))
}

/// The command that serves sessions over TCP.
fn run_command<'a>(alloc: Global) -> Result<Command<'a>, AllocError>
    ensures { IfOk result (λ command. (out-Command command).name.now ≡ codes "run") }
{
    let command = with_arg(bare_run(alloc), RUN, device_argument(alloc));
    let command = with_new(alloc, command);
    let command = with_addresses(alloc, command);
    let command = with_arg(command, RUN, option(alloc, CORES, "LIST", CORES_HELP));
    let command = with_arg(command, RUN, option(alloc, KEY, "HEX", KEY_HELP));
    let command = with_lookups(alloc, command);
    let command = with_limits(alloc, command);
    let command = with_refusals(alloc, command);
    with_end(alloc, with_purges(alloc, command))
}

/// That command, with no options.
fn bare_run<'a>(alloc: Global) -> Result<Command<'a>, AllocError>
    ensures { IfOk result (λ command. (out-Command command).name.now ≡ codes "run") }
{
    let about = "Opens a store, and serves sessions over TCP";
    Ok(Command::new(alloc, RUN).about(about).after_help(RUN_NOTES))
}

/// Gives the command that serves sessions the options for a store that it makes.
fn with_new<'a>(
    alloc: Global,
    command: Result<Command<'a>, AllocError>,
) -> Result<Command<'a>, AllocError>
    requires { IfOk command (λ old. (out-Command old).name.now ≡ codes "run") }
    ensures { IfOk result (λ new. (out-Command new).name.now ≡ codes "run") }
{
    let new = "Make a store of --rows first where DEV is no file, or one without bytes";
    let rows = option(
        alloc,
        ROWS,
        "N",
        "The rows for which a store that is made has room",
    );
    let command = with_arg(command, RUN, flag(alloc, NEW, new));
    with_arg(command, RUN, within(rows, 1, i64::from(MOST_ROWS)))
}

/// Gives the command that serves sessions the options for its socket addresses.
fn with_addresses<'a>(
    alloc: Global,
    command: Result<Command<'a>, AllocError>,
) -> Result<Command<'a>, AllocError>
    requires { IfOk command (λ old. (out-Command old).name.now ≡ codes "run") }
    ensures { IfOk result (λ new. (out-Command new).name.now ≡ codes "run") }
{
    let listen = "The address to listen at, as 127.0.0.1:30252; port 0 is any free one";
    let status =
        "The address to answer GET /metrics at, with the server's numbers, and GET / with plots";
    let listen = option(alloc, LISTEN, "ADDR", listen).required(true);
    let command = with_arg(command, RUN, listen);
    with_arg(command, RUN, option(alloc, STATUS_LISTEN, "ADDR", status))
}

/// Gives the command that serves sessions the options for sessions that only look up.
fn with_lookups<'a>(
    alloc: Global,
    command: Result<Command<'a>, AllocError>,
) -> Result<Command<'a>, AllocError>
    requires { IfOk command (λ old. (out-Command old).name.now ≡ codes "run") }
    ensures { IfOk result (λ new. (out-Command new).name.now ≡ codes "run") }
{
    let lookups = "A further address to listen at, for sessions whose commands are refused";
    let seats = "The number of the 64 seats that are for these sessions, 1 to 56 [default: 16]";
    let seats = option(alloc, LOOKUP_SEATS, "SEATS", seats);
    let command = with_arg(command, RUN, option(alloc, LOOKUPS, "ADDR", lookups));
    with_arg(command, RUN, within(seats, 1, MOST_SEATS))
}

/// Gives the command that serves sessions the options for how many and how long.
fn with_limits<'a>(
    alloc: Global,
    command: Result<Command<'a>, AllocError>,
) -> Result<Command<'a>, AllocError>
    requires { IfOk command (λ old. (out-Command old).name.now ≡ codes "run") }
    ensures { IfOk result (λ new. (out-Command new).name.now ≡ codes "run") }
{
    let sessions = "End after this number of sessions; 0 is no end [default: 0]";
    let peers =
        "Refuse a session of an address that has this number open; 0 is no bound [default: 0]";
    let idle =
        "End a session whose peer is silent for this number of seconds; 0 is no end [default: 300]";
    let leave =
        "Await commits for this number of seconds once the peer has ended its side; 0 is no end [default: 0]";
    let command = with_arg(command, RUN, number(option(alloc, SESSIONS, "N", sessions)));
    let command = with_arg(
        command,
        RUN,
        number(option(alloc, PEER_SESSIONS, "N", peers)),
    );
    let command = with_arg(command, RUN, seconds(alloc, IDLE, idle));
    with_arg(command, RUN, seconds(alloc, LEAVE, leave))
}

/// Gives the command that serves sessions the options for what it refuses.
fn with_refusals<'a>(
    alloc: Global,
    command: Result<Command<'a>, AllocError>,
) -> Result<Command<'a>, AllocError>
    requires { IfOk command (λ old. (out-Command old).name.now ≡ codes "run") }
    ensures { IfOk result (λ new. (out-Command new).name.now ≡ codes "run") }
{
    let future =
        "Refuse a time more than this number of seconds after now; 0 is no bound [default: 0]";
    let spare =
        "Keep this number of the 64 seats for sessions without commands under way, 0 to 56 [default: 0]";
    let command = with_arg(command, RUN, seconds(alloc, FUTURE, future));
    let spare = within(option(alloc, SPARE, "SEATS", spare), 0, MOST_SEATS);
    let command = with_arg(command, RUN, spare);
    let lists = "Answer lists of segments; without it a list ends its session";
    with_arg(command, RUN, flag(alloc, LISTS, lists))
}

/// Gives the command that serves sessions the options for its own purges.
fn with_purges<'a>(
    alloc: Global,
    command: Result<Command<'a>, AllocError>,
) -> Result<Command<'a>, AllocError>
    requires { IfOk command (λ old. (out-Command old).name.now ≡ codes "run") }
    ensures { IfOk result (λ new. (out-Command new).name.now ≡ codes "run") }
{
    let purge =
        "Drop expired segments each time after this number of seconds; 0 is never [default: 0]";
    let grace =
        "Keep segments for this number of seconds past their expiry in these purges [default: 0]";
    let command = with_arg(command, RUN, seconds(alloc, PURGE, purge));
    with_arg(command, RUN, seconds(alloc, PURGE_GRACE, grace))
}

/// Gives the command that serves sessions the options for its end and its lines.
fn with_end<'a>(
    alloc: Global,
    command: Result<Command<'a>, AllocError>,
) -> Result<Command<'a>, AllocError>
    requires { IfOk command (λ old. (out-Command old).name.now ≡ codes "run") }
    ensures { IfOk result (λ new. (out-Command new).name.now ≡ codes "run") }
{
    let stop = "End once standard input has ended: no new session, and --grace for the open ones";
    let grace = "The seconds that open sessions have at such an end [default: 10]";
    let quiet = "Print nothing on standard error but why the program ends";
    let priority = "Begin each line on standard error with its priority, as <3>, for a journal";
    let status = "The status of a failure that a restart would not mend, 1 to 255 [default: 1]";
    let command = with_arg(command, RUN, flag(alloc, STOP_ON_END_OF_INPUT, stop));
    let command = with_arg(command, RUN, seconds(alloc, GRACE, grace));
    let command = with_arg(command, RUN, flag(alloc, QUIET, quiet));
    let command = with_arg(command, RUN, flag(alloc, LOG_PRIORITY, priority));
    with_arg(command, RUN, final_status_option(alloc, status))
}

/// The command that asks a server.
fn ask_command<'a>(alloc: Global) -> Result<Command<'a>, AllocError>
    ensures { IfOk result (λ command. (out-Command command).name.now ≡ codes "ask") }
{
    let timeout =
        "The seconds that the connection and each reply may take, at least 1 [default: 10]";
    let wait = "Try again for this number of seconds until the server answers [default: 0]";
    let at_once = "Purge by one command, and not in steps; others wait until it is done";
    let command = with_arg(bare_ask(alloc), ASK, server_argument(alloc));
    let command = with_arg(command, ASK, request_argument(alloc));
    let command = with_arg(command, ASK, request_words(alloc));
    let command = with_arg(command, ASK, flag(alloc, JSON, JSON_HELP));
    let command = with_arg(command, ASK, flag(alloc, AT_ONCE, at_once));
    let timeout = within(
        option(alloc, TIMEOUT, "SECONDS", timeout),
        1,
        i64::from(u32::MAX),
    );
    let command = with_arg(command, ASK, timeout);
    with_arg(command, ASK, seconds(alloc, WAIT, wait))
}

/// That command, with no options.
fn bare_ask<'a>(alloc: Global) -> Result<Command<'a>, AllocError>
    ensures { IfOk result (λ command. (out-Command command).name.now ≡ codes "ask") }
{
    let about = "Asks a server, and prints what it answers";
    Ok(Command::new(alloc, ASK).about(about).after_help(ASK_NOTES))
}

/// The address of a server.
fn server_argument<'a>(alloc: Global) -> Arg<'a> {
    Arg::new(alloc, SERVER)
        .value_name("ADDR")
        .help("The address of the server, as 127.0.0.1:30252 or localhost:30252")
        .required(true)
        .action(ArgAction::Set)
}

/// The name of a request.
fn request_argument<'a>(alloc: Global) -> Arg<'a> {
    Arg::new(alloc, REQUEST)
        .value_name("REQUEST")
        .help("The request")
        .value_parser(REQUESTS)
        .required(true)
        .action(ArgAction::Set)
}

/// The words after the name of a request.
fn request_words<'a>(alloc: Global) -> Arg<'a> {
    Arg::new(alloc, WORDS)
        .value_name("WORD")
        .help("The words of the request")
        .num_args(0..=MOST_WORDS)
        .action(ArgAction::Append)
}

/// The path of a device's file.
fn device_argument<'a>(alloc: Global) -> Arg<'a> {
    Arg::new(alloc, DEVICE)
        .value_name("DEV")
        .help("The file of the device")
        .required(true)
        .action(ArgAction::Set)
}

/// The path of the file of the store that is copied.
fn source_argument<'a>(alloc: Global) -> Arg<'a> {
    device_argument(alloc)
        .value_name("OLD")
        .help("The file of the store")
}

/// The path of the file of a copy.
fn target_argument<'a>(alloc: Global) -> Arg<'a> {
    Arg::new(alloc, TARGET)
        .value_name("NEW")
        .help("The file of the copy, without a store")
        .required(true)
        .action(ArgAction::Set)
}

/// An option that takes one value.
fn option<'a>(
    alloc: Global,
    name: &'static str,
    value_name: &'static str,
    help: &'static str,
) -> Arg<'a> {
    Arg::new(alloc, name)
        .long(name)
        .value_name(value_name)
        .help(help)
        .action(ArgAction::Set)
}

/// An option that takes no value.
fn flag<'a>(alloc: Global, name: &'static str, help: &'static str) -> Arg<'a> {
    Arg::new(alloc, name)
        .long(name)
        .help(help)
        .action(ArgAction::SetTrue)
}

/// An option whose value is a number.
fn number<'a>(option: Arg<'a>) -> Arg<'a> {
    option.value_parser(value_parser!(u64))
}

/// An option whose value is a number of seconds.
fn seconds<'a>(alloc: Global, name: &'static str, help: &'static str) -> Arg<'a> {
    option(alloc, name, "SECONDS", help).value_parser(value_parser!(u32))
}

/// An option whose value is a number of this range.
fn within<'a>(option: Arg<'a>, least: i64, most: i64) -> Arg<'a> {
    option.value_parser(value_parser!(u32).range(least..=most))
}

/// The option with the status of a failure that a server meets again.
fn final_status_option<'a>(alloc: Global, help: &'static str) -> Arg<'a> {
    option(alloc, FINAL_STATUS, "N", help).value_parser(value_parser!(u8).range(1..))
}

/// The option with the sectors of a checkpoint area.
fn checkpoint_option<'a>(alloc: Global) -> Arg<'a> {
    let option = option(alloc, CHECKPOINT, "C", CHECKPOINT_HELP);
    within(option, i64::from(LEAST_CHECKPOINT), i64::from(MOST_SECTORS))
}

/// The option with the sectors of a journal.
fn journal_option<'a>(alloc: Global) -> Arg<'a> {
    let option = option(alloc, JOURNAL, "J", JOURNAL_HELP);
    within(option, i64::from(LEAST_JOURNAL), i64::from(MOST_SECTORS))
}

/// The option by which the sizes follow from a number of rows.
fn rows_option<'a>(alloc: Global) -> Result<Arg<'a>, AllocError> {
    let option = option(alloc, ROWS, "N", ROWS_HELP);
    within(option, 1, i64::from(MOST_ROWS))
        .conflicts_with(CHECKPOINT)?
        .conflicts_with(JOURNAL)
}
