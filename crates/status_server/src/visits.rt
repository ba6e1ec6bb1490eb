//! The visits under way of peers that ask for the numbers of a server.

ghost use Rattle.std.specs.Prelude.{◌≡◌, ◌≤◌, ◌↔◌, [], length, IsTrue, string_bytes};
ghost use Rattle.std.specs.Bool.{OnTrue};
ghost use Rattle.status_server.specs.Visits.{Gives, IsBegun, WentOn, AllWentOn};

use crate::visit::{Visit, VisitStep};
use libc::net::poll;
use libc::types::pollfd;
use status_page::Asked;
use std::alloc::{AllocError, Global};
use std::net::TcpStream;
use std::time::Clock;

/// The most visits at one time.
const MOST_VISITS: usize = 64;

/// The longest wait, in milliseconds.
const LONGEST_WAIT: i32 = 5;

/// No connection.
const NOBODY: pollfd = pollfd {
    fd: -1,
    events: 0,
    revents: 0,
};

/// The visits under way, the oldest first.
#[derive(Drop)]
pub struct Visits {
    alloc: Global,
    visits: Vec<Visit>,
    ghost few: { length visits.items ≤ 64 },
}

impl Visits {
    /// No visits.
    pub fn new(alloc: Global) -> Visits
        ensures { result.visits.items ≡ [] }
    {
        Visits {
            alloc,
            visits: Vec::new(alloc),
        }
    }

    /// Whether there are none.
    pub fn is_empty(&self) -> bool
        ensures { IsTrue result ↔ (self.now.visits.items ≡ []) }
    {
        self.visits.is_empty()
    }

    /// Begins the visit of a peer. The oldest one is ended where there are as many as there may be.
    /// The connection is closed where memory is refused, or the system or the clock failed.
    pub fn begin(&mut self, clock: &impl Clock, stream: TcpStream)
        ensures { IsBegun 64 self.old.visits.items self.new.visits.items }
    {
        let Ok(visit) = Visit::new(clock, self.alloc, stream) else {
            return;
        };
        if self.visits.push(visit).is_ok() && self.visits.len() > MOST_VISITS {
            self.visits.remove(0);
        }
    }

    /// Waits until the connection of a visit can be read or written, for 5 milliseconds at most.
    pub fn wait(&self) {
        let mut awaited = [NOBODY; MOST_VISITS];
        for (place, visit) in awaited.iter_mut().zip(&self.visits) {
            *place = visit.awaited();
        }
        let _ready = poll(awaited.split_at_mut(self.visits.len()).0, LONGEST_WAIT);
    }

    /// Makes a step of each visit, without waiting for a peer, and ends those that are over. A peer
    /// is sent what `answer` says to what the peer asks for. Where that is an error, the connection
    /// is closed.
    pub fn go_on<F: Fn(Asked) -> Result<String, AllocError>>(
        &mut self,
        clock: &impl Clock,
        answer: F,
    )
        requires { F.IsAlwaysCallable answer }
        ensures { AllWentOn (Gives string_bytes (F.post answer)) self.old.visits.items self.new.visits.items }
    {
        let step = |visit: &mut Visit| -> bool
            requires { F.IsAlwaysCallable answer }
            ensures { OnTrue result (WentOn (Gives string_bytes (F.post answer)) visit.entry.now visit.exit.now) }
        { goes_on(visit, clock, &answer) };
        self.visits.retain_mut(step);
    }
}

/// Makes a step of a visit. The result is whether it goes on.
fn goes_on<F: Fn(Asked) -> Result<String, AllocError>>(
    visit: &mut Visit,
    clock: &impl Clock,
    answer: &F,
) -> bool
    requires { F.IsAlwaysCallable answer.now }
    ensures { OnTrue result (WentOn (Gives string_bytes (F.post answer.now)) visit.old visit.new) }
{
    match visit.go_on(clock) {
        VisitStep::Asks(asked) => match answer(asked) {
            Ok(text) => {
                visit.answer_by(text);
                true
            }
            Err(_refused) => false,
        },
        VisitStep::Waits => true,
        VisitStep::Over => false,
    }
}
