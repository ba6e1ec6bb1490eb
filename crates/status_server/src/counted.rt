//! A service whose replies are counted.

use crate::replies::Replies;
use crate::reply_kind::{kind_to_command, kind_to_list, kind_to_lookup};
use seg_core::{SegType, Segment};
use session_core::{Acknowledges, Code, CommandKind, ListRequest, Listing, Message, Service};
use std::alloc::Global;
use std::time::{Clock, Instant};

/// Answers as another service does, and counts each reply, what commands did, and how long lookups
/// took. It notes the moments of purges that are acknowledged.
pub struct Counted<'a, S, K> {
    service: S,
    replies: &'a Replies,
    clock: &'a K,
}

impl<'a, S: Service, K: Clock> Counted<'a, S, K> {
    ghost use Rattle.std.specs.Prelude.{◌≡◌};

    /// Counts the replies of a service from now on.
    pub fn new(service: S, replies: &'a Replies, clock: &'a K) -> Counted<'a, S, K>
        ensures { result.service ≡ service }
    {
        Counted {
            service,
            replies,
            clock,
        }
    }

    /// Takes the service out.
    pub fn into_service(self) -> S
        ensures { result ≡ self.entry.service }
    {
        let Counted {
            service,
            replies: _,
            clock: _,
        } = self;
        service
    }

    /// Counts the reply to a command, and what the command did. The moment is that of a purge.
    fn count_command(
        &self,
        kind: CommandKind,
        moment: Option<u64>,
        answered: &Result<S::Ack, Code>,
    ) {
        self.replies.count(kind_to_command(kind, answered));
        if let Ok(ack) = answered {
            self.replies.count_outcome(ack.says().outcome);
            if let Some(until) = moment {
                self.replies.note_purge(until);
            }
        }
    }

    /// Counts a lookup that was begun at a moment and is answered now, unless the clock could not
    /// be read.
    fn count_lookup(&self, begun: Option<Instant>) {
        if let Some(begun) = begun
            && let Ok(time) = begun.elapsed(self.clock)
        {
            let nanoseconds = u64::try_from(time.as_nanos()).unwrap_or(u64::MAX);
            self.replies.count_lookup(nanoseconds);
        }
    }
}

/// A command that the service has taken and not answered yet, and its kind.
#[derive(Drop)]
pub struct CountedCommand<U> {
    kind: CommandKind,
    /// The moment of a purge, in half seconds since 1970.
    moment: Option<u64>,
    under_way: U,
}

/// A command that is handed in is counted with its reply.
impl<S: Service, K: Clock> Service for Counted<'_, S, K> {
    type UnderWay = CountedCommand<S::UnderWay>;

    type Ack = S::Ack;

    ghost State = { S.State };

    ghost state = { λ counted. S.state counted.service };

    ghost answers = { S.answers };

    ghost is_for = { λ state counted message. S.is_for state counted.under_way message };

    ghost Sent = { S.Sent };

    ghost sent = { λ counted. S.sent counted.service };

    ghost hands_in = { S.hands_in };

    fn register(&mut self, alloc: Global, message: &[u8]) -> Result<S::Ack, Code> {
        let answered = self.service.register(alloc, message);
        self.count_command(CommandKind::Register, None, &answered);
        answered
    }

    fn lookup(&mut self, alloc: Global, message: &[u8]) -> Result<(SegType, Vec<Segment>), Code> {
        let begun = Instant::now(self.clock).ok();
        let answered = self.service.lookup(alloc, message);
        self.replies.count(kind_to_lookup(&answered));
        if answered.is_ok() {
            self.count_lookup(begun);
        }
        answered
    }

    fn list(&mut self, alloc: Global, request: &ListRequest) -> Result<Listing, Code> {
        let answered = self.service.list(alloc, request);
        self.replies.count(kind_to_list(&answered));
        answered
    }

    fn purge(&mut self, moment: u64) -> Result<S::Ack, Code> {
        let answered = self.service.purge(moment);
        self.count_command(CommandKind::Purge, Some(moment), &answered);
        answered
    }

    fn remove(&mut self, kind: u8, id: &[u8; 32]) -> Result<S::Ack, Code> {
        let answered = self.service.remove(kind, id);
        self.count_command(CommandKind::Remove, None, &answered);
        answered
    }

    fn hand_in(
        &mut self,
        alloc: Global,
        message: Message<&[u8]>,
    ) -> Option<CountedCommand<S::UnderWay>> {
        let kind = CommandKind::of(&message)?;
        let moment = match &message {
            Message::Purge(moment) => Some(*moment),
            _ => None,
        };
        let under_way = self.service.hand_in(alloc, message)?;
        Some(CountedCommand {
            kind,
            moment,
            under_way,
        })
    }

    fn settle(&mut self, counted: CountedCommand<S::UnderWay>) -> Result<S::Ack, Code> {
        let CountedCommand {
            kind,
            moment,
            under_way,
        } = counted;
        let answered = self.service.settle(under_way);
        self.count_command(kind, moment, &answered);
        answered
    }
}
