//! The visit of a peer that asks for the numbers of a server. No call waits for the peer.

ghost use Rattle.std.specs.Prelude.{◌≡◌, ◌≢◌, ◌<◌, ◌++◌, [], length, Ok, IfSome, IfOk, OnOk, OnErr, string_bytes};
ghost use Rattle.status_page.specs.Request.{IsAsked};
ghost use Rattle.status_server.specs.Requests.{IsPieceTaken};
ghost use Rattle.status_server.specs.VisitSteps.{IfAsks, IsReadOn, IsSentOn, IsWhole};
ghost use Rattle.status_server.specs.declared.visit.Stage.TheVariants.{Reading, Sending, Parting};

use libc::net::{POLLIN, POLLOUT};
use libc::types::pollfd;
use paced_stream::Deadline;
use status_page::{Asked, read_head};
use std::alloc::{AllocError, Global};
use std::io;
use std::io::{ErrorKind, Read, Write};
use std::net::{Shutdown, TcpStream};
use std::os::fd::AsRawFd;
use std::time::{Clock, Duration};

/// The most bytes of one read of a request.
const PIECE: usize = 1_024;

/// The most bytes of the head of a request, rounded up to a whole read.
const MOST_HEAD: usize = 4_096;

/// The longest time until the first byte, in milliseconds. A request is sent at once, and may be
/// lost and sent again, after a second by TCP's first estimate.
const SILENCE: u64 = 2_000;

/// The longest time of a visit, in milliseconds: a second beside the time until its first byte.
const LONGEST: u64 = SILENCE + 1_000;

/// What is done in a visit.
#[derive(Clone, Copy, Debug, PartialEq, Eq)]
pub(crate) enum Stage {
    /// The request is read.
    Reading,
    /// The answer is sent.
    Sending,
    /// The answer is sent, and input is dropped until the peer closes the connection.
    Parting,
}

/// What comes of a step of a visit.
#[derive(Clone, Copy, Debug, PartialEq, Eq)]
pub(crate) enum VisitStep {
    /// The peer asks for this.
    Asks(Asked),
    /// The next step is made once the connection can be read or written.
    Waits,
    /// The connection has to be closed.
    Over,
}

/// The connection of a peer, whose request is read by and by, and answered by and by. After
/// `VisitStep::Asks` the visit sends what `answer_by` gives it, or nothing.
#[derive(Drop)]
pub(crate) struct Visit {
    stream: TcpStream,
    stage: Stage,
    /// What the peer has sent of its request.
    head: Vec<u8>,
    /// What is still to be sent of the answer.
    rest: Vec<u8>,
    silence: Deadline,
    deadline: Deadline,
    ghost reading: { stage ≡ Reading → length head.items < 4096 },
    ghost sent: { stage ≡ Parting → rest.items ≡ [] },
    ghost small: { length head.items < 5120 },
}

impl Visit {
    ghost use Rattle.status_server.specs.Visits.{IsNew};

    /// The visit of a peer that has just come. The error is the system's or the clock's.
    pub(crate) fn new(clock: &impl Clock, alloc: Global, stream: TcpStream) -> io::Result<Visit>
        ensures { IfOk result IsNew }
    {
        stream.set_nonblocking(true)?;
        Ok(Visit {
            stream,
            stage: Stage::Reading,
            head: Vec::new(alloc),
            rest: Vec::new(alloc),
            silence: Deadline::after(clock, Duration::from_millis(SILENCE))?,
            deadline: Deadline::after(clock, Duration::from_millis(LONGEST))?,
        })
    }

    /// Makes one step of the visit: one read, or one write.
    pub(crate) fn go_on(&mut self, clock: &impl Clock) -> VisitStep
        ensures asks { IfAsks result (IsAsked self.new.head.items) }
        ensures whole { IfAsks result (IsWhole self.old.head.items self.new.head.items) }
        ensures once { IfAsks result (λ _. (self.old.stage ≡ Reading) × (self.new.stage ≡ Sending)) }
        ensures stage { self.new.stage ≡ Reading → self.old.stage ≡ Reading }
        ensures head { IsReadOn 1024 self.old.head.items self.new.head.items }
        ensures rest { IsSentOn self.old.rest.items self.new.rest.items }
        ensures times { (self.new.silence ≡ self.old.silence) × (self.new.deadline ≡ self.old.deadline) }
    {
        let turn = match self.stage {
            Stage::Reading => self.read(),
            Stage::Sending => self.send(),
            Stage::Parting => self.part(),
        };
        match turn {
            VisitStep::Waits if self.is_late(clock) => VisitStep::Over,
            turn => turn,
        }
    }

    /// Sends this text from the next step on.
    pub(crate) fn answer_by(&mut self, text: String)
        requires { self.old.stage ≡ Sending }
        ensures rest { self.new.rest.items ≡ string_bytes text }
        ensures same { (self.new.head ≡ self.old.head) × (self.new.stage ≡ self.old.stage) }
        ensures times { (self.new.silence ≡ self.old.silence) × (self.new.deadline ≡ self.old.deadline) }
    {
        self.rest = text.into_bytes();
    }

    /// What a wait for the next step waits for.
    pub(crate) fn awaited(&self) -> pollfd {
        let events = match self.stage {
            Stage::Sending => POLLOUT,
            Stage::Reading | Stage::Parting => POLLIN,
        };
        pollfd {
            fd: self.stream.as_raw_fd(),
            events,
            revents: 0,
        }
    }

    /// Whether the time of the visit is over, or the clock failed.
    fn is_late(&self, clock: &impl Clock) -> bool {
        let until = if self.head.is_empty() {
            &self.silence
        } else {
            &self.deadline
        };
        until.left(clock).is_none()
    }

    /// Reads a piece of the request.
    fn read(&mut self) -> VisitStep
        requires { self.old.stage ≡ Reading }
        ensures asks { IfAsks result (λ asked. IsAsked self.new.head.items asked × (self.new.stage ≡ Sending)) }
        ensures whole { IfAsks result (IsWhole self.old.head.items self.new.head.items) }
        ensures head { IsReadOn 1024 self.old.head.items self.new.head.items }
        ensures rest { self.new.rest ≡ self.old.rest }
        ensures times { (self.new.silence ≡ self.old.silence) × (self.new.deadline ≡ self.old.deadline) }
    {
        let mut piece = [0u8; PIECE];
        let read = match unless_waiting((&self.stream).read(&mut piece)) {
            Ok(Some(count)) => take_piece(&mut self.head, piece.split_at(count).0),
            Ok(None) => return VisitStep::Waits,
            Err(_) => return VisitStep::Over,
        };
        match read {
            Ok(Some(asked)) => {
                self.stage = Stage::Sending;
                VisitStep::Asks(asked)
            }
            Ok(None) => VisitStep::Waits,
            Err(_refused) => VisitStep::Over,
        }
    }

    /// Sends a front of what is left of the answer, and ends this side of the connection once
    /// nothing is left. A close over unread input would reset the connection, and the peer might
    /// lose its answer.
    fn send(&mut self) -> VisitStep
        requires { self.old.stage ≡ Sending }
        ensures asks { IfAsks result (λ _. ⊥) }
        ensures stage { self.new.stage ≢ Reading }
        ensures head { self.new.head ≡ self.old.head }
        ensures rest { IsSentOn self.old.rest.items self.new.rest.items }
        ensures times { (self.new.silence ≡ self.old.silence) × (self.new.deadline ≡ self.old.deadline) }
    {
        match unless_waiting((&self.stream).write(self.rest.as_slice())) {
            Ok(Some(count)) => {
                self.rest.drain(..count);
            }
            Ok(None) => return VisitStep::Waits,
            Err(_) => return VisitStep::Over,
        }
        if self.rest.is_empty() {
            let _shut = self.stream.shutdown(Shutdown::Write);
            self.stage = Stage::Parting;
        }
        VisitStep::Waits
    }

    /// Drops a piece of input. The visit is over at its end.
    fn part(&self) -> VisitStep
        ensures { IfAsks result (λ _. ⊥) }
    {
        let mut piece = [0u8; PIECE];
        match unless_waiting((&self.stream).read(&mut piece)) {
            Ok(Some(0)) | Err(_) => VisitStep::Over,
            Ok(Some(_) | None) => VisitStep::Waits,
        }
    }
}

/// The result of a call on a connection, which is `None` where the call would have waited or was
/// interrupted.
fn unless_waiting(moved: io::Result<usize>) -> io::Result<Option<usize>>
    ensures { IfOk result (λ count. IfSome count (λ count. moved ≡ Ok count)) }
{
    match moved {
        Ok(count) => Ok(Some(count)),
        Err(error) => match error.kind() {
            ErrorKind::WouldBlock | ErrorKind::Interrupted => Ok(None),
            _ => Err(error),
        },
    }
}

/// Takes the next piece of what a peer sends, of which an empty one is the end, and returns what
/// the peer asks for by all pieces. The result is `None` where the head is not whole yet, and more
/// of it may follow.
fn take_piece(head: &mut Vec<u8>, piece: &[u8]) -> Result<Option<Asked>, AllocError>
    ensures taken { OnOk result (head.new.items ≡ head.old.items ++ piece.now) }
    ensures refused { OnErr result (head.new.items ≡ head.old.items) }
    ensures asked { IfOk result (IsPieceTaken MOST_HEAD head.new.items piece.now) }
{
    head.extend_from_slice(piece)?;
    match read_head(head.as_slice()) {
        Asked::More if !piece.is_empty() && head.len() < MOST_HEAD => Ok(None),
        asked => Ok(Some(asked)),
    }
}
