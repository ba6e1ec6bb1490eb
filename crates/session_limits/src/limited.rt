//! A service that refuses some messages before another one is asked.

ghost use Rattle.std.specs.Prelude.{◌≡◌, true, false, Some, None, IsSome, IfSome, MatchOption, OnErr, is_some};
ghost use Rattle.session_core.specs.Commands.{command_kind};
ghost use Rattle.session_core.specs.Frames.{MessageView};
ghost use Rattle.session_core.specs.Front.{message_at};
ghost use Rattle.session_core.specs.declared.message.Message.TheVariants.{Register, Purge, Remove};
ghost use Rattle.session_limits.specs.declared.limit.Limit.TheVariants.{Future, NoCommands};
ghost use Rattle.session_limits.specs.Limits.{limited, after_judging, IsAdmission, IsLimitedFor};
ghost use Rattle.session_limits.specs.Readings.{ReadsAs};
ghost use Rattle.session_limits.specs.Sending.{limited_sent, LimitedHandsIn};

use crate::future::{is_after, is_one_after};
use crate::limit::Limit;
use crate::rooms::{Room, Rooms};
use seg_core::{SegError, SegType, Segment, read_registration};
use session_clock::Now;
use session_core::{Code, ListRequest, Listing, Message, Service};
use std::alloc::Global;
use std::time::Clock;

/// The limits of the messages of a session.
#[derive(Clone, Copy)]
pub struct Limits<'a> {
    /// The seconds by which the timestamp of a segment that is registered, and the moment of a
    /// purge, may lie after now. `None` is no bound.
    pub future: Option<u64>,
    /// Room for the sessions that have commands under way. `None` is room for all.
    pub rooms: Option<&'a Rooms>,
    /// Whether commands are taken.
    pub commands: bool,
}

/// Answers as another service does, but refuses some messages before that one is called:
///
/// - each command, where commands are not taken: one that cannot be read by the code for that, as
///   the service below would. Signatures and expiries are not checked then;
/// - a registration or a purge with a time too far in the future, where there is a bound;
/// - a command of a session that has none under way, where there is no room for one more such
///   session. Room is awaited for 200 milliseconds, and not again until the session has had some. A
///   session keeps its room until none of its commands is under way.
///
/// Where there is a bound or commands are not taken, a registration is read here, too. Where there
/// is a bound and commands are taken, the clock is asked once for each that can be read, and for
/// each purge.
///
/// Where a message is refused here, the service below is the same value afterwards (the clauses
/// `untouched`). Code that is generic in that service can show this only by not calling it, so that
/// no refused command is handed in.
#[derive(Drop)]
pub struct Limited<'a, S, C, R> {
    inner: S,
    clock: C,
    rt: &'a R,
    future: Option<u64>,
    rooms: Option<&'a Rooms>,
    commands: bool,
    /// The room of this session, while commands of it are under way.
    room: Option<Room<'a>>,
    /// Whether room was last awaited in vain.
    is_short: bool,
    /// The number of commands that the service below has taken and not answered yet.
    under_way: u64,
    /// The moment at which the last message was answered for which the clock was asked, in half
    /// seconds since 1970; 0 at first.
    moment: u64,
}

/// A command that was handed in and is not answered yet, or a refusal that waits for its turn.
#[derive(Drop)]
pub struct LimitedCommand<U> {
    /// The moment at which the message was judged. It is `None` where the clock was not asked.
    moment: Option<u64>,
    /// What the service below has taken, or why the message is refused.
    taken: Result<U, Limit>,
}

/// Whether a message may go on to the service below.
#[derive(Clone, Copy)]
struct Admission {
    moment: Option<u64>,
    /// Why the message is refused.
    limit: Option<Limit>,
}

impl<'a, S: Service, C: Now, R: Clock> Limited<'a, S, C, R> {
    /// Limits a service that has no command under way.
    pub fn new(inner: S, clock: C, limits: Limits<'a>, rt: &'a R) -> Limited<'a, S, C, R>
        ensures inner { result.inner ≡ inner }
        ensures view { limited S.state result ≡ record {
          future = limits.entry.future;
          shares = is_some limits.entry.rooms;
          commands = limits.entry.commands;
          moment = 0;
          inner = S.state inner;
        } }
    {
        Limited {
            inner,
            clock,
            rt,
            future: limits.future,
            rooms: limits.rooms,
            commands: limits.commands,
            room: None,
            is_short: false,
            under_way: 0,
            moment: 0,
        }
    }

    /// Takes the service out. The room of the session is given back.
    pub fn into_service(self) -> S
    where
        C: Drop,
        ensures { result ≡ self.entry.inner }
    {
        let Limited {
            inner,
            clock: _clock,
            rt: _,
            future: _,
            rooms: _,
            commands: _,
            room: _room,
            is_short: _,
            under_way: _,
            moment: _,
        } = self;
        inner
    }

    // ---- judging messages

    /// Judges a registration, and takes room for it, if commands are taken.
    fn admit_registration(&mut self, alloc: Global, body: &[u8]) -> Admission
        ensures admission { IsAdmission self.old.commands self.old.future (is_some self.old.rooms) result.moment (Register body.now) result.limit }
        ensures clock { IfSome result.moment (λ moment. moment ≡ C.moment self.new.clock) }
        ensures same { limited S.state self.new ≡ limited S.state self.old }
        ensures untouched { self.new.inner ≡ self.old.inner }
        ensures sent { limited_sent S.sent self.new ≡ limited_sent S.sent self.old }
        ensures taken { result.limit ≡ None → self.old.commands ≡ true }
    {
        if !self.commands {
            return not_taken(registration_fault(alloc, body));
        }
        let judged = self.judge_registration(alloc, body);
        self.take_room(judged)
    }

    /// Judges a purge, and takes room for it, if commands are taken.
    fn admit_purge(&mut self, until: u64) -> Admission
        ensures admission { IsAdmission self.old.commands self.old.future (is_some self.old.rooms) result.moment (Purge until) result.limit }
        ensures clock { IfSome result.moment (λ moment. moment ≡ C.moment self.new.clock) }
        ensures same { limited S.state self.new ≡ limited S.state self.old }
        ensures untouched { self.new.inner ≡ self.old.inner }
        ensures sent { limited_sent S.sent self.new ≡ limited_sent S.sent self.old }
        ensures taken { result.limit ≡ None → self.old.commands ≡ true }
    {
        if !self.commands {
            return not_taken(None);
        }
        let judged = self.judge_purge(until);
        self.take_room(judged)
    }

    /// Takes room for a removal, if commands are taken.
    fn admit_removal(&mut self, kind: u8, id: &[u8; 32]) -> Admission
        ensures admission { IsAdmission self.old.commands self.old.future (is_some self.old.rooms) result.moment (Remove kind id.now) result.limit }
        ensures clock { IfSome result.moment (λ moment. moment ≡ C.moment self.new.clock) }
        ensures same { limited S.state self.new ≡ limited S.state self.old }
        ensures untouched { self.new.inner ≡ self.old.inner }
        ensures sent { limited_sent S.sent self.new ≡ limited_sent S.sent self.old }
        ensures taken { result.limit ≡ None → self.old.commands ≡ true }
    {
        if !self.commands {
            return not_taken(removal_fault(kind, id));
        }
        self.take_room(unjudged())
    }

    /// Judges the timestamps of a registration by the bound, if there is one. A registration that
    /// cannot be read is refused by the service below.
    fn judge_registration(&mut self, alloc: Global, body: &[u8]) -> Admission
        requires { self.old.commands ≡ true }
        ensures admission { IsAdmission self.old.commands self.old.future (is_some self.old.rooms) result.moment (Register body.now) result.limit }
        ensures clock { IfSome result.moment (λ moment. moment ≡ C.moment self.new.clock) }
        ensures same { limited S.state self.new ≡ limited S.state self.old }
        ensures untouched { self.new.inner ≡ self.old.inner }
        ensures sent { limited_sent S.sent self.new ≡ limited_sent S.sent self.old }
    {
        let Some(bound) = self.future else {
            return unjudged();
        };
        match read_registration(alloc, body) {
            Ok(rows) => {
                let now = self.clock.now();
                judged(now, is_one_after(rows.as_slice(), now, bound))
            }
            Err(SegError::NoMemory) => Admission {
                moment: None,
                limit: Some(Limit::NoMemory),
            },
            Err(_) => unjudged(),
        }
    }

    /// Judges the moment of a purge by the bound, if there is one.
    fn judge_purge(&mut self, until: u64) -> Admission
        requires { self.old.commands ≡ true }
        ensures admission { IsAdmission self.old.commands self.old.future (is_some self.old.rooms) result.moment (Purge until) result.limit }
        ensures clock { IfSome result.moment (λ moment. moment ≡ C.moment self.new.clock) }
        ensures same { limited S.state self.new ≡ limited S.state self.old }
        ensures untouched { self.new.inner ≡ self.old.inner }
        ensures sent { limited_sent S.sent self.new ≡ limited_sent S.sent self.old }
    {
        let Some(bound) = self.future else {
            return unjudged();
        };
        let now = self.clock.now();
        judged(now, is_after(until, now, bound))
    }

    /// Takes room for a command that was judged, if it is not refused and the session has none.
    fn take_room(&mut self, judged: Admission) -> Admission
        requires { self.old.commands ≡ true }
        ensures admission { (message : MessageView) → IsSome (command_kind message)
            → IsAdmission self.old.commands self.old.future (is_some self.old.rooms) judged.moment message judged.limit
            → IsAdmission self.old.commands self.old.future (is_some self.old.rooms) result.moment message result.limit }
        ensures moment { result.moment ≡ judged.moment }
        ensures clock { self.new.clock ≡ self.old.clock }
        ensures same { limited S.state self.new ≡ limited S.state self.old }
        ensures untouched { self.new.inner ≡ self.old.inner }
        ensures sent { limited_sent S.sent self.new ≡ limited_sent S.sent self.old }
    {
        if judged.limit.is_some() || self.enter() {
            return judged;
        }
        Admission {
            moment: judged.moment,
            limit: Some(Limit::NoRoom),
        }
    }

    // ---- room

    /// Whether the session has room for a command, once it was taken.
    fn enter(&mut self) -> bool
        ensures room { result ≡ false → is_some self.old.rooms ≡ true }
        ensures same { limited S.state self.new ≡ limited S.state self.old }
        ensures untouched { self.new.inner ≡ self.old.inner }
        ensures clock { self.new.clock ≡ self.old.clock }
        ensures sent { limited_sent S.sent self.new ≡ limited_sent S.sent self.old }
    {
        let Some(rooms) = self.rooms else {
            return true;
        };
        if self.room.is_some() {
            return true;
        }
        self.room = if self.is_short {
            rooms.take()
        } else {
            rooms.wait(self.rt)
        };
        self.is_short = self.room.is_none();
        !self.is_short
    }

    /// Notes that one more command is under way.
    fn begin_command(&mut self)
        ensures same { limited S.state self.new ≡ limited S.state self.old }
        ensures inner { self.new.inner ≡ self.old.inner }
        ensures clock { self.new.clock ≡ self.old.clock }
        ensures sent { limited_sent S.sent self.new ≡ limited_sent S.sent self.old }
    {
        self.under_way = self.under_way.saturating_add(1);
    }

    /// Notes that a command was answered that was under way.
    fn end_command(&mut self)
        ensures same { limited S.state self.new ≡ limited S.state self.old }
        ensures inner { self.new.inner ≡ self.old.inner }
        ensures clock { self.new.clock ≡ self.old.clock }
        ensures sent { limited_sent S.sent self.new ≡ limited_sent S.sent self.old }
    {
        self.under_way = self.under_way.saturating_sub(1);
        self.leave();
    }

    /// Gives the room back, if no command is under way.
    fn leave(&mut self)
        ensures same { limited S.state self.new ≡ limited S.state self.old }
        ensures inner { self.new.inner ≡ self.old.inner }
        ensures clock { self.new.clock ≡ self.old.clock }
        ensures sent { limited_sent S.sent self.new ≡ limited_sent S.sent self.old }
    {
        if self.under_way == 0 {
            self.room = None;
        }
    }

    /// Notes the moment at which a message was judged, if it has one.
    fn note_moment(&mut self, moment: Option<u64>)
        ensures view { limited S.state self.new ≡ after_judging (limited S.state self.old) moment }
        ensures inner { self.new.inner ≡ self.old.inner }
        ensures clock { self.new.clock ≡ self.old.clock }
        ensures sent { limited_sent S.sent self.new ≡ limited_sent S.sent self.old }
    {
        if let Some(moment) = moment {
            self.moment = moment;
        }
    }
}

/// A message that was not judged.
fn unjudged() -> Admission
    ensures moment { result.moment ≡ None }
    ensures limit { result.limit ≡ None }
{
    Admission {
        moment: None,
        limit: None,
    }
}

/// A command of a session that takes none, with why it cannot be read, if it cannot.
fn not_taken(fault: Option<SegError>) -> Admission
    ensures moment { result.moment ≡ None }
    ensures limit { result.limit ≡ Some (NoCommands fault) }
{
    Admission {
        moment: None,
        limit: Some(Limit::NoCommands(fault)),
    }
}

/// Why a registration cannot be read, if it cannot.
fn registration_fault(alloc: Global, body: &[u8]) -> Option<SegError>
    ensures { ReadsAs (Register body.now) result }
{
    read_registration(alloc, body).err()
}

/// Why a removal cannot be read, if its type is none.
fn removal_fault(kind: u8, _id: &[u8; 32]) -> Option<SegError>
    ensures { ReadsAs (Remove kind _id.now) result }
{
    SegType::from_number(u64::from(kind)).err()
}

/// A message that was judged at a moment: whether it lies in the future.
fn judged(now: u64, is_future: bool) -> Admission
    ensures moment { result.moment ≡ Some now }
    ensures future { is_future ≡ true → result.limit ≡ Some Future }
    ensures other { is_future ≡ false → result.limit ≡ None }
{
    Admission {
        moment: Some(now),
        limit: is_future.then_some(Limit::Future),
    }
}

/// A message that is refused here changes the moment alone. A command that the service below takes
/// is in its hands until `settle`.
impl<S: Service, C: Now, R: Clock> Service for Limited<'_, S, C, R> {
    ghost use Rattle.session_limits.specs.Limits.{LimitedView, limited, LimitedAnswers, IsLimitedFor};
    ghost use Rattle.session_limits.specs.Sending.{LimitedSent, limited_sent, LimitedHandsIn};

    type UnderWay = LimitedCommand<S::UnderWay>;

    type Ack = S::Ack;

    ghost State = { LimitedView S.State };

    ghost state = { limited S.state };

    ghost answers = { LimitedAnswers S.answers };

    ghost is_for = { IsLimitedFor S.is_for };

    ghost Sent = { LimitedSent S.Sent };

    ghost sent = { limited_sent S.sent };

    ghost hands_in = { LimitedHandsIn S.hands_in };

    fn register(&mut self, alloc: Global, message: &[u8]) -> Result<S::Ack, Code> {
        let admission = self.admit_registration(alloc, message);
        self.note_moment(admission.moment);
        if let Some(limit) = admission.limit {
            return Err(limit.code());
        }
        let answered = self.inner.register(alloc, message);
        self.leave();
        answered
    }

    fn lookup(&mut self, alloc: Global, message: &[u8]) -> Result<(SegType, Vec<Segment>), Code> {
        self.inner.lookup(alloc, message)
    }

    fn list(&mut self, alloc: Global, request: &ListRequest) -> Result<Listing, Code> {
        self.inner.list(alloc, request)
    }

    fn purge(&mut self, moment: u64) -> Result<S::Ack, Code> {
        let admission = self.admit_purge(moment);
        self.note_moment(admission.moment);
        if let Some(limit) = admission.limit {
            return Err(limit.code());
        }
        let answered = self.inner.purge(moment);
        self.leave();
        answered
    }

    fn remove(&mut self, kind: u8, id: &[u8; 32]) -> Result<S::Ack, Code> {
        let admission = self.admit_removal(kind, id);
        self.note_moment(admission.moment);
        if let Some(limit) = admission.limit {
            return Err(limit.code());
        }
        let answered = self.inner.remove(kind, id);
        self.leave();
        answered
    }

    /// Where a message is judged by the clock, its moment is the one that the clock gave last.
    fn hand_in(
        &mut self,
        alloc: Global,
        message: Message<&[u8]>,
    ) -> Option<LimitedCommand<S::UnderWay>>
        ensures command { IfSome result (λ _. IsSome (command_kind (message_at message.entry))) }
        ensures known { IfSome result (λ command. IsLimitedFor S.is_for (limited S.state self.new) command (message_at message.entry)) }
        ensures same { limited S.state self.new ≡ limited S.state self.old }
        ensures sent { MatchOption result (limited_sent S.sent self.new ≡ limited_sent S.sent self.old)
            (λ _. LimitedHandsIn S.hands_in (limited_sent S.sent self.old) (message_at message.entry) (limited_sent S.sent self.new)) }
        ensures untouched { IfSome result (λ command. OnErr command.taken (self.new.inner ≡ self.old.inner)) }
        ensures clock { IfSome result (λ command. IfSome command.moment (λ moment. moment ≡ C.moment self.new.clock)) }
    {
        let admission = match &message {
            Message::Register(body) => self.admit_registration(alloc, body),
            Message::Lookup(_) | Message::List(_) => return None,
            Message::Purge(until) => self.admit_purge(*until),
            Message::Remove(kind, id) => self.admit_removal(*kind, id),
        };
        let moment = admission.moment;
        if let Some(limit) = admission.limit {
            return Some(LimitedCommand {
                moment,
                taken: Err(limit),
            });
        }
        let Some(under_way) = self.inner.hand_in(alloc, message) else {
            self.leave();
            return None;
        };
        self.begin_command();
        Some(LimitedCommand {
            moment,
            taken: Ok(under_way),
        })
    }

    fn settle(&mut self, command: LimitedCommand<S::UnderWay>) -> Result<S::Ack, Code> {
        let LimitedCommand { moment, taken } = command;
        self.note_moment(moment);
        match taken {
            Ok(under_way) => {
                let answered = self.inner.settle(under_way);
                self.end_command();
                answered
            }
            Err(limit) => Err(limit.code()),
        }
    }
}
