//! The history of a log, and past logs.

ghost use Rattle.std.specs.Prelude.{◌≡◌, ◌⊎◌, [], ◌∷◌, ◌++◌, None, IfOk};
ghost use Rattle.log_history.specs.Rights.{head_of, right_after, FIRST_KEY, MayAppend};
ghost use Rattle.log_history.specs.Entries.{new_log, log_accepting, log_committing, IsPastOf};

use crate::rule::{Accepting, Appends, Committing, Entry, Growth, Issues, Looks, Nothing};
use logbook::{Offer, Pen, Seen, Start, Word};
use path_db::Command;
use std::alloc::AllocError;
use std::marker::Model;
use std::snapshot::Snapshot;

type Head = Word<Entry, u64, Growth>;

type SeenEntries = Seen<Entry, u64, Growth>;

type AnOffer = Offer<Entry, u64, Growth, Nothing>;

/// A log of accepted commands that only grows. It has one owner. Contracts see the book that it is
/// in, its commands, and the number of the first of them that are committed.
#[derive(Drop)]
pub struct LogHistory {
    head: Head,
    seen: SeenEntries,
    pen: Pen,
}

impl Model for LogHistory {
    ghost use Rattle.std.specs.Prelude.{◌≡◌};
    ghost use Rattle.log_history.specs.Rights.{head_of, right_after, FIRST_KEY, MayAppend};
    ghost use Rattle.log_history.specs.Entries.{LogMoment, log_of};

    ghost Value = { LogMoment };

    ghost view = { λ l. log_of l.seen.book l.seen.log };

    ghost invariant = { λ l. (l.head ≡ head_of l.seen.book) × (l.pen.book ≡ l.seen.book) × MayAppend l.pen.nib (right_after FIRST_KEY l.seen.log) };
}

/// What a log was at a moment. Contracts see it as they see the log. It has no bytes.
#[derive(Drop)]
pub struct PastLog {
    seen: SeenEntries,
}

impl Model for PastLog {
    ghost use Rattle.log_history.specs.Entries.{LogMoment, log_of};

    ghost Value = { LogMoment };

    ghost view = { λ p. log_of p.seen.book p.seen.log };
}

impl LogHistory {
    /// Begins a log, in which nothing is accepted yet. The call is refused where the new log has an
    /// owner already. Only a defect of the program leads there.
    pub fn new() -> Result<LogHistory, AllocError>
        ensures { IfOk result (λ log. log ≡ new_log log.book) }
    {
        let (mut seen, mut first, _second) = Seen::open(Start::alone(), 0, 0);
        let head: Head = Word::tracked(0, &mut first);
        let mut pen = seen.no_pen();
        let mut offer: AnOffer = seen.plain::<Nothing, (), Nothing>(&());
        let found = head.compare_exchange::<Issues, Nothing>(0, 1, &mut seen, &mut offer, &mut pen);
        if found != 0 {
            return Err(AllocError);
        }
        drop(Head::tracked(0, &mut pen));
        Ok(LogHistory { head, seen, pen })
    }

    /// Notes that a command was accepted. The command may be elsewhere by then: the snapshot shows
    /// it to clauses.
    pub fn accept(&mut self, command: &Snapshot<Command>)
        ensures { self.new ≡ log_accepting command.now.value self.old }
    {
        let next = issue(&self.head, &self.seen);
        let accepting = Accepting {
            command: Snapshot::of(command),
            next,
        };
        let offer: AnOffer = self.seen.plain::<Nothing, Accepting, Appends>(&accepting);
        let Accepting { command: _, next } = accepting;
        append(&self.head, &mut self.seen, &mut self.pen, offer, next);
    }

    /// Notes that this many more commands are committed.
    pub fn commit(&mut self, more: u64)
        ensures { self.new ≡ log_committing more self.old }
    {
        let next = issue(&self.head, &self.seen);
        let committing = Committing { more, next };
        let offer: AnOffer = self.seen.plain::<Nothing, Committing, Appends>(&committing);
        let Committing { more: _, next } = committing;
        append(&self.head, &mut self.seen, &mut self.pen, offer, next);
    }

    /// The log as it is now.
    pub fn past(&self) -> PastLog
        ensures { result ≡ self.now }
    {
        PastLog {
            seen: self.seen.again(),
        }
    }

    /// A past log of this log: the log begins with its commands, and no fewer of them are
    /// committed. The call compares nothing.
    pub fn prove_past(&mut self, past: &PastLog)
        requires { past.now.book ≡ self.old.book }
        ensures same { self.new ≡ self.old }
        ensures past { IsPastOf past.now self.old }
    {
        let mut all = past.seen.again();
        all.learn(&self.seen);
        let mut offer: AnOffer = all.plain::<Nothing, (), Nothing>(&());
        let _ = self
            .head
            .compare_exchange::<Looks, Nothing>(1, 1, &mut all, &mut offer, &mut self.pen);
    }
}

impl PastLog {
    /// A copy.
    pub fn again(&self) -> PastLog
        ensures { result ≡ self.now }
    {
        PastLog {
            seen: self.seen.again(),
        }
    }

    /// Of two past logs of one log, one is a past log of the other. The call compares nothing.
    pub fn compare(&self, other: &PastLog)
        requires { other.now.book ≡ self.now.book }
        ensures { IsPastOf self.now other.now ⊎ IsPastOf other.now self.now }
    {
        let mut both = self.seen.again();
        both.learn(&other.seen);
    }

    /// A past log that has what two past logs of one log have: each of them is a past log of it.
    pub fn joined(&self, other: &PastLog) -> PastLog
        requires { other.now.book ≡ self.now.book }
        ensures book { result.book ≡ self.now.book }
        ensures mine { IsPastOf self.now result }
        ensures other { IsPastOf other.now result }
    {
        let mut seen = self.seen.again();
        seen.learn(&other.seen);
        PastLog { seen }
    }
}

/// Makes a new right to append, which is not in use yet.
fn issue(head: &Head, seen: &SeenEntries) -> Pen
    requires { head.now ≡ head_of seen.now.book }
    ensures book { result.book ≡ seen.now.book }
    ensures right { MayAppend result.nib result.nib.key }
{
    let mut seen = seen.again();
    let mut pen = seen.no_pen();
    let mut offer: AnOffer = seen.plain::<Nothing, (), Nothing>(&());
    let _ = head.compare_exchange::<Issues, Nothing>(0, 1, &mut seen, &mut offer, &mut pen);
    drop(Head::tracked(0, &mut pen));
    pen
}

/// Appends the entry that is offered, by the right of the last entry, and keeps the next right.
fn append(head: &Head, seen: &mut SeenEntries, pen: &mut Pen, offer: AnOffer, next: Pen)
    requires head { head.now ≡ head_of seen.old.book }
    requires pen { (pen.old.book ≡ seen.old.book) × MayAppend pen.old.nib (right_after FIRST_KEY seen.old.log) }
    requires offer { (offer.names ≡ seen.old.names) × (offer.state ≡ None) }
    requires next { (next.book ≡ seen.old.book) × MayAppend next.nib offer.ask.next }
    ensures book { seen.new.book ≡ seen.old.book }
    ensures pen { (pen.new.book ≡ seen.new.book) × MayAppend pen.new.nib (right_after FIRST_KEY seen.new.log) }
    ensures log { seen.new.log ≡ seen.old.log ++ offer.ask ∷ [] }
{
    let mut offer = offer;
    let _ = head.compare_exchange::<Appends, Nothing>(1, 1, seen, &mut offer, pen);
    *pen = next;
}
