//! Why the words of a command line are not carried out, with what a user has to know of it.

ghost use Rattle.std.specs.Prelude.{◌≡◌};
ghost use Rattle.std.specs.IoError.{error_kind};
ghost use Rattle.cli_commands.specs.Failures.{ended_by, is_lasting, is_lasting_fault, is_lasting_kind, or_memory};

use crate::ending::Ended;
use cli_ask::{AskError, AskFault, WordError};
use cli_once::SessionFault;
use cli_store::Fault as StoreFault;
use cli_words::{CORES, KEY};
use isd_as::IaError;
use sector_dev::FileFault;
use std::fmt::{Display, Formatter};
use std::io::ErrorKind;
use std::{fmt, io};
use store_open::OpenError;

/// Why the words of a command line are not carried out. The program prints this as a line on
/// standard error before that of `Ended`. No clause says which text it has.
#[derive(Clone, Copy)]
pub enum Failure<'a> {
    /// A text of the core ASes is none.
    Core(&'a str, IaError),
    /// The key is none. Its text is not shown.
    Key,
    /// The text of an option is no socket address.
    Address(&'static str, &'a str),
    /// A device's file is not opened or made.
    File(&'a str, io::Error),
    /// A device's store is not made, opened or changed.
    Store(&'a str, StoreFault),
    /// A device's store is not made, opened or changed, as this failed in the device's file.
    Device(&'a str, StoreFault, FileFault),
    /// The program does not listen at an address.
    Listen(&'a str, io::Error),
    /// A word of a request is not what it has to be.
    Word(&'a str, WordError),
    /// The text of a server's address is no socket address.
    Peer(&'a str),
    /// A server at an address has not answered.
    Asked(&'a str, AskError),
    /// The server ended before its sessions were served, because memory was refused to it.
    ServerMemory,
    /// The server ended before its sessions were served, because its listener broke.
    BrokenListener,
    /// A session of `once` ended.
    Session(SessionFault),
    /// Memory was refused, or a thread was not given.
    Memory,
    /// Standard output could not be written.
    Output,
}

impl Failure<'_> {
    /// How the program ends.
    pub fn ended(&self) -> Ended
        ensures { result ≡ ended_by self.now }
    {
        match self {
            Failure::Core(_, error) => Ended::Session(SessionFault::Text(*error)),
            Failure::Key => Ended::Session(SessionFault::Hex),
            Failure::Address(_, _) | Failure::Peer(_) | Failure::BrokenListener => Ended::Net,
            Failure::Word(_, error) => Ended::Ask(AskFault::Word(error.number())),
            Failure::Asked(_, error) => Ended::Ask(error.fault()),
            Failure::Listen(_, error) => or_for_memory(error, Ended::Net),
            Failure::File(_, error) => or_for_memory(error, Ended::Store(StoreFault::File)),
            Failure::Store(_, fault) | Failure::Device(_, fault, _) => Ended::Store(*fault),
            Failure::Session(fault) => Ended::Session(*fault),
            Failure::Memory | Failure::ServerMemory => Ended::Session(SessionFault::Memory),
            Failure::Output => Ended::Session(SessionFault::Output),
        }
    }
}

/// Whether a store that could not be opened for this reason cannot be opened later, unless it is
/// changed: it is none, or is damaged.
fn is_lasting_fault(fault: StoreFault) -> bool
    ensures { result ≡ is_lasting_fault fault }
{
    match fault {
        StoreFault::Open(OpenError::NotAStore | OpenError::Pair(_) | OpenError::Journal(_)) => true,
        StoreFault::Open(OpenError::Device | OpenError::NoMemory)
        | StoreFault::Format(_)
        | StoreFault::Copy(_)
        | StoreFault::Checkpoint(_)
        | StoreFault::File
        | StoreFault::Taken
        | StoreFault::Declined
        | StoreFault::Memory
        | StoreFault::Output => false,
    }
}

/// Whether the system refuses a file or an address by an error of this kind until an operator has
/// changed something: there is none, the program may not have it, its file system is read-only, or
/// it is longer than the program may write.
fn is_lasting_kind(kind: ErrorKind) -> bool
    ensures { result ≡ is_lasting_kind kind }
{
    matches!(
        kind,
        ErrorKind::NotFound
            | ErrorKind::PermissionDenied
            | ErrorKind::ReadOnlyFilesystem
            | ErrorKind::FileTooLarge
            | ErrorKind::InvalidInput
    )
}

/// How the program ends where the system refuses a file or an address: as for any other want of
/// memory, or as for another refusal.
fn or_for_memory(error: &io::Error, other: Ended) -> Ended
    ensures { result ≡ or_memory (error_kind error.now) other }
{
    match error.kind() {
        ErrorKind::OutOfMemory => Ended::Session(SessionFault::Memory),
        _ => other,
    }
}

impl Failure<'_> {
    /// Whether a server that is started again fails so, too, until its words, its file or its store
    /// are changed.
    pub fn is_lasting(&self) -> bool
        ensures { result ≡ is_lasting self.now }
    {
        match self {
            Failure::Core(_, _) | Failure::Key | Failure::Address(_, _) => true,
            Failure::File(_, error) | Failure::Listen(_, error) => is_lasting_kind(error.kind()),
            Failure::Store(_, fault) | Failure::Device(_, fault, _) => is_lasting_fault(*fault),
            Failure::Word(_, _)
            | Failure::Peer(_)
            | Failure::Asked(_, _)
            | Failure::ServerMemory
            | Failure::BrokenListener
            | Failure::Session(_)
            | Failure::Memory
            | Failure::Output => false,
        }
    }
}

impl Display for Failure<'_> {
    fn fmt<W: fmt::Write>(&self, f: &mut Formatter<W>) -> fmt::Result {
        match self {
            Failure::Core(text, IaError::BadText) => write!(f, "--{CORES}: '{text}' is no ISD-AS"),
            Failure::Core(text, IaError::TooLarge) => {
                write!(f, "--{CORES}: a number of '{text}' is too large")
            }
            Failure::Key => write!(f, "--{KEY}: no hexadecimal text of at most 64 bytes"),
            Failure::Address(option, text) => {
                write!(
                    f,
                    "--{option}: '{text}' is no socket address, as 127.0.0.1:30252"
                )
            }
            Failure::Word(word, error) => write!(f, "'{word}' {error}"),
            Failure::Peer(text) => write!(f, "'{text}' is no socket address, as 127.0.0.1:30252"),
            Failure::Asked(text, error) => write!(f, "{text}: {error}"),
            Failure::File(path, error) => write_no_file(f, path, error),
            Failure::Store(path, fault) => write_store_failure(f, path, *fault),
            Failure::Device(path, fault, cause) => {
                write_store_failure(f, path, *fault)?;
                write!(f, ": {}", *cause)
            }
            Failure::Listen(text, error) => write!(f, "cannot listen at {text}: {error}"),
            Failure::ServerMemory => write!(f, "the server ended: out of memory"),
            Failure::BrokenListener => write!(f, "the server ended: the listener is broken"),
            Failure::Session(fault) => write_no_session(f, *fault),
            Failure::Memory => write!(f, "out of memory, or of threads"),
            Failure::Output => write!(f, "cannot write standard output"),
        }
    }
}

/// Writes why a device's file is not opened or made.
fn write_no_file<W: fmt::Write>(
    f: &mut Formatter<W>,
    path: &str,
    error: &io::Error,
) -> fmt::Result {
    // The lock of the file would have to be waited for.
    if error.kind() == ErrorKind::WouldBlock {
        return write!(f, "cannot open {path}: another process has it open");
    }
    write!(f, "cannot open {path}: {error}")
}

/// Writes why a device's store is not made, opened or changed, or not printed.
fn write_store_failure<W: fmt::Write>(
    f: &mut Formatter<W>,
    path: &str,
    fault: StoreFault,
) -> fmt::Result {
    match fault {
        StoreFault::Format(error) => write!(f, "cannot format {path}: {error}"),
        StoreFault::Copy(error) => write!(f, "cannot make a copy at {path}: {error}"),
        StoreFault::Open(error) => write!(f, "cannot open {path}: {error}"),
        StoreFault::Checkpoint(error) => write!(f, "cannot upgrade {path}: {error}"),
        StoreFault::File => write!(f, "cannot open {path}"),
        StoreFault::Taken => write!(f, "{path} has a store, and is left as it is"),
        StoreFault::Declined => write!(f, "{path} is left as it is, as the answer was not yes"),
        StoreFault::Memory => write!(f, "cannot open {path}: out of memory"),
        StoreFault::Output => write!(f, "cannot write standard output"),
    }
}

/// Writes why a session of `once` ended, or did not begin.
fn write_no_session<W: fmt::Write>(f: &mut Formatter<W>, fault: SessionFault) -> fmt::Result {
    match fault {
        SessionFault::Text(error) => write!(f, "--{CORES}: {error}"),
        SessionFault::Hex => write!(f, "standard input is no hexadecimal text"),
        SessionFault::Frame(error) => write!(f, "the session ended: {error}"),
        SessionFault::Memory => write!(f, "out of memory"),
        SessionFault::Output => write!(f, "cannot write standard output"),
    }
}
