//! Registering the segments of lines.

ghost use Rattle.std.specs.Prelude.{◌≡◌, ◌≤◌, Some, true, IfOk, IfSome, take, vec_len};
ghost use Rattle.cli_ask.specs.declared.registering.TheConstants.{MOST_LINE};
ghost use Rattle.cli_ask.specs.Registering.{first_fault};

use crate::answers::{PIECE, next_reply};
use crate::error::AskError;
use crate::lines::print_ack;
use crate::link::Link;
use crate::request::{frame_of, registration_of};
use byte_lists::drop_front;
use row_lines::{LineError, RowForm, read_line};
use session_core::{MOST_AHEAD, Message, Reply};
use std::alloc::{AllocError, Global};
use std::io;
use std::io::{ErrorKind, Read, Write};

/// The most bytes of a line: the digits of the longest segment, and what is around them.
const MOST_LINE: usize = 65_536;

/// That number, as it is printed.
pub(crate) const MOST_LINE_TEXT: &str = "65,536";

/// Hears which lines were refused.
pub trait Refusals {
    /// The line of this number, from 1 on, was refused by this code.
    fn refused(&mut self, line: u64, code: u8);
}

/// Registers the segments of an input, a line each, as `list` and `show` print them by `--json`. Up
/// to `MOST_AHEAD` registrations are sent ahead, each of one line, and the line of each
/// acknowledgement is printed in the order of the lines. After a line that is refused, that has no
/// segment, that is too long or that can't be read, no further one is sent; the replies that are
/// under way are read and printed. The error is that of the first such line. A fault of the link,
/// of the output or of memory ends the run at once, and so does a reply of another kind.
pub fn register<L: Link, I: Read, W: Write, N: Refusals>(
    alloc: Global,
    link: &mut L,
    input: &mut I,
    form: RowForm,
    writer: &mut W,
    refusals: &mut N,
) -> Result<(), AskError> {
    let mut lines = Lines::new(alloc);
    let mut run = Run {
        sent: 0,
        answered: 0,
        fault: None,
        is_over: false,
    };
    for _ in 0..u64::MAX {
        send_ahead(alloc, link, input, &mut lines, &mut run)?;
        if run.answered == run.sent {
            break;
        }
        let reply = next_reply(alloc, link)?;
        let line = run.answered.saturating_add(1);
        run.answered = line;
        match reply {
            Reply::Registered(ack) => print_ack(alloc, form, &ack, writer)?,
            Reply::Refused(code) => {
                refusals.refused(line, code.0);
                run.stop(LineFault {
                    line,
                    error: AskError::RefusedLine(line, code.0),
                });
            }
            _ => return Err(AskError::Unasked),
        }
    }
    match run.fault {
        Some(fault) => Err(fault.error),
        None => Ok(()),
    }
}

/// The error of a line, whose number is from 1 on.
#[derive(Clone, Copy)]
struct LineFault {
    line: u64,
    error: AskError,
}

/// How far a run is: how many lines were sent, and how many replies were read.
#[derive(Drop)]
struct Run {
    sent: u64,
    answered: u64,
    /// Why no further line is sent.
    fault: Option<LineFault>,
    /// No further line is sent.
    is_over: bool,
}

impl Run {
    /// Notes why no further line is sent. Of two faults that of the line that comes first is kept:
    /// a line without a segment is seen before the replies to the lines before it.
    fn stop(&mut self, fault: LineFault)
        ensures { self.new ≡ record self.old { fault = Some (first_fault self.old.fault fault); is_over = true } }
    {
        self.is_over = true;
        self.fault = match self.fault {
            Some(before) if before.line <= fault.line => Some(before),
            _ => Some(fault),
        };
    }

    /// Whether another line may be sent.
    fn has_room(&self) -> bool {
        !self.is_over && self.sent.saturating_sub(self.answered) < MOST_AHEAD as u64
    }
}

/// Sends lines while there is room for them. Each line has a time of its own, which begins once the
/// line was read: how long the input takes is no time of the server.
fn send_ahead<L: Link, I: Read>(
    alloc: Global,
    link: &mut L,
    input: &mut I,
    lines: &mut Lines,
    run: &mut Run,
) -> Result<(), AskError> {
    for _ in 0..MOST_AHEAD {
        if !run.has_room() {
            break;
        }
        let line = run.sent.saturating_add(1);
        match next_frame(alloc, input, lines, line) {
            Ok(Some(frame)) => {
                link.begin()?;
                link.send(frame.as_slice())?;
                run.sent = line;
            }
            Ok(None) => run.is_over = true,
            Err(AskError::NoMemory) => return Err(AskError::NoMemory),
            Err(error) => run.stop(LineFault { line, error }),
        }
    }
    Ok(())
}

/// The frame of the registration of the next line, which has this number.
fn next_frame<I: Read>(
    alloc: Global,
    input: &mut I,
    lines: &mut Lines,
    number: u64,
) -> Result<Option<Vec<u8>>, AskError> {
    let Some(line) = lines.next(input, number)? else {
        return Ok(None);
    };
    match read_line(alloc, line.as_slice()) {
        Ok((kind, segment)) => {
            let body = registration_of(alloc, kind, &segment)?;
            let frame = frame_of(alloc, &Message::Register(body.as_slice()))?;
            Ok(Some(frame))
        }
        Err(LineError::NoMemory) => Err(AskError::NoMemory),
        Err(error) => Err(AskError::Line(number, error)),
    }
}

/// The lines of an input that comes in pieces.
#[derive(Drop)]
struct Lines {
    /// What was read after the lines that were given.
    bytes: Vec<u8>,
    is_ended: bool,
}

impl Lines {
    /// No lines yet.
    fn new(alloc: Global) -> Lines {
        Lines {
            bytes: Vec::new(alloc),
            is_ended: false,
        }
    }

    /// The next line, which has this number, without its end. Bytes after the last end of a line
    /// are a line, too. A line above `MOST_LINE` bytes is refused as `LongLine`, however the input
    /// is cut.
    fn next<I: Read>(&mut self, input: &mut I, number: u64) -> Result<Option<Vec<u8>>, AskError>
        ensures most { IfOk result (λ next. IfSome next (λ line. vec_len line ≤ MOST_LINE)) }
    {
        for _ in 0..u64::MAX {
            let end = self.bytes.iter().position(|byte| *byte == b'\n');
            let len = end.unwrap_or(self.bytes.len());
            if len > MOST_LINE {
                return Err(AskError::LongLine(number));
            }
            if end.is_some() || (self.is_ended && len > 0) {
                return Ok(Some(self.take_line(len)?));
            }
            if self.is_ended {
                return Ok(None);
            }
            self.read_on(input)?;
        }
        Err(AskError::Input(io::Error::from(ErrorKind::Interrupted)))
    }

    /// Takes this number of bytes as a line, and drops its end.
    fn take_line(&mut self, len: usize) -> Result<Vec<u8>, AllocError>
        ensures { IfOk result (λ line. line.items ≡ take len self.old.bytes.items) }
    {
        let alloc = *self.bytes.allocator();
        let (line, rest) = self.bytes.split_at(len.min(self.bytes.len()));
        let used = line.len() + usize::from(!rest.is_empty());
        let line = Vec::from_slice(alloc, line)?;
        drop_front(&mut self.bytes, used);
        Ok(line)
    }

    /// Reads once.
    fn read_on<I: Read>(&mut self, input: &mut I) -> Result<(), AskError> {
        let mut piece = [0; PIECE];
        match input.read(&mut piece) {
            Ok(0) => self.is_ended = true,
            Ok(count) => self.bytes.extend_from_slice(&piece[..count])?,
            Err(error) if error.kind() == ErrorKind::Interrupted => {}
            Err(error) => return Err(AskError::Input(error)),
        }
        Ok(())
    }
}
