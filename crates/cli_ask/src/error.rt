//! Why a question has no answer.

ghost use Rattle.std.specs.Prelude.{◌≡◌, Some};
ghost use Rattle.cli_ask.specs.Faults.{ask_fault_of};

use crate::codes::{NamedCode, digit};
use crate::registering::MOST_LINE_TEXT;
use row_lines::LineError;
use std::alloc::AllocError;
use std::{fmt, io};

/// Why a question has no answer, with what a user has to know of it.
#[derive(Clone, Copy, Debug)]
pub enum AskError {
    /// Memory was refused.
    NoMemory,
    /// An answer could not be printed.
    Output,
    /// No connection was made.
    Connect(io::Error),
    /// The connection failed, or a call of it.
    Broken(io::Error),
    /// The server has ended the connection before the first byte of a reply.
    Ended,
    /// The server has ended the connection before a whole reply, or takes no bytes.
    Cut,
    /// The server has ended the connection before the first byte of the first page of a list.
    NoLists,
    /// A reply, or the way to the server, took too long.
    Timeout,
    /// A reply is none that a server sends.
    Faulty,
    /// A reply is one to another request.
    Unasked,
    /// The lines to register cannot be read.
    Input(io::Error),
    /// The line of this number, from 1 on, has no segment.
    Line(u64, LineError),
    /// The line of this number, from 1 on, is longer than a line may be.
    LongLine(u64),
    /// The server has refused the request by this code.
    Refused(u8),
    /// The server has refused the line of this number, from 1 on, by this code.
    RefusedLine(u64, u8),
}

impl AskError {
    /// How the program ends by this error.
    pub fn fault(&self) -> AskFault
        ensures { result ≡ ask_fault_of self.now }
    {
        match self {
            AskError::NoMemory => AskFault::Memory,
            AskError::Output => AskFault::Output,
            AskError::Connect(_) => AskFault::Connect,
            AskError::Broken(_) | AskError::Ended | AskError::Cut | AskError::NoLists => {
                AskFault::Cut
            }
            AskError::Timeout => AskFault::Timeout,
            AskError::Faulty | AskError::Unasked => AskFault::Reply,
            AskError::Input(_) => AskFault::Input,
            AskError::Line(number, _) | AskError::LongLine(number) => AskFault::Line(*number),
            AskError::Refused(code) | AskError::RefusedLine(_, code) => AskFault::Refused(*code),
        }
    }
}

impl fmt::Display for AskError {
    fn fmt<W: fmt::Write>(&self, f: &mut fmt::Formatter<W>) -> fmt::Result {
        match self {
            AskError::NoMemory => write!(f, "out of memory"),
            AskError::Output => write!(f, "cannot write standard output"),
            AskError::Connect(error) => write!(f, "cannot connect: {error}"),
            AskError::Broken(error) => write!(f, "the connection failed: {error}"),
            AskError::Ended | AskError::Cut => {
                write!(f, "the server ended the connection before its reply")
            }
            AskError::NoLists => write!(f, "the server does not list: run it with --lists"),
            AskError::Timeout => write!(f, "no reply within the time of --timeout"),
            AskError::Faulty => write!(f, "the reply is not well formed"),
            AskError::Unasked => write!(f, "the reply is one to another request"),
            AskError::Input(error) => write!(f, "cannot read the segments: {error}"),
            AskError::Line(number, error) => write!(f, "line {number}: {error}"),
            AskError::LongLine(number) => {
                write!(f, "line {number}: it is longer than {MOST_LINE_TEXT} bytes")
            }
            AskError::Refused(code) => {
                write!(f, "the server refused the request by {}", NamedCode(*code))
            }
            AskError::RefusedLine(number, code) => {
                write!(
                    f,
                    "the server refused line {number} by {}",
                    NamedCode(*code)
                )
            }
        }
    }
}

impl From<AllocError> for AskError {
    ghost use Rattle.cli_ask.specs.declared.error.AskError.TheVariants.{NoMemory};

    ghost from_gives = { λ _ e. e ≡ NoMemory };

    fn from(_error: AllocError) -> AskError {
        AskError::NoMemory
    }
}

/// What ends a question. The program prints its text after `error: `.
#[derive(Clone, Copy, Debug, PartialEq, Eq)]
pub enum AskFault {
    /// Memory was refused.
    Memory,
    /// An answer could not be printed.
    Output,
    /// A word of the request is not what it has to be; words are counted from 1.
    Word(u8),
    /// No connection was made.
    Connect,
    /// The connection ended or failed before a whole reply.
    Cut,
    /// A reply, or the way to the server, took too long.
    Timeout,
    /// A reply is none that a server sends to this request.
    Reply,
    /// The lines to register cannot be read.
    Input,
    /// The line of this number, from 1 on, has no segment, or is too long.
    Line(u64),
    /// The server has refused a request by this code.
    Refused(u8),
}

impl fmt::Display for AskFault {
    ghost use Rattle.cli_ask.specs.Faults.{ask_fault_text};

    ghost output = { λ fault. Some (ask_fault_text fault) };

    fn fmt<W: fmt::Write>(&self, f: &mut fmt::Formatter<W>) -> fmt::Result {
        match self {
            AskFault::Memory => write!(f, "memory"),
            AskFault::Output => write!(f, "output"),
            AskFault::Word(number) => write!(f, "word {number}"),
            AskFault::Connect => write!(f, "connect"),
            AskFault::Cut => write!(f, "cut"),
            AskFault::Timeout => write!(f, "timeout"),
            AskFault::Reply => write!(f, "reply"),
            AskFault::Input => write!(f, "input"),
            AskFault::Line(number) => write!(f, "line {number}"),
            AskFault::Refused(code) => {
                write!(f, "refused 0x{}{}", digit(*code / 16), digit(*code % 16))
            }
        }
    }
}
