//! The core of a session, which writes nothing: it reads pieces of input, and returns replies.

ghost use Rattle.std.specs.Prelude.{◌≡◌, ◌+◌, ◌^◌, ◌<◌, ◌≤◌, [], drop, length, Some, IfSome, IfOk, IfErr, OnErr, MatchOption, IsTrue, ◌↔◌};
ghost use Rattle.session_core.specs.Ahead.{frames_len, IsHandedIn, AreHandedIn};
ghost use Rattle.session_core.specs.Answered.{IsFirstAnswered, IsNextReply, LeavesFewAhead};
ghost use Rattle.session_core.specs.Commands.{command_kind};
ghost use Rattle.session_core.specs.Front.{message_at};
ghost use Rattle.session_core.specs.HandedIn.{HandsInAtMostFor, HandsInFirst, HandsInFrontOf};
ghost use Rattle.session_core.specs.Reply.{HasReplySize};
ghost use Rattle.session_core.specs.ReplyViews.{reply_view};
ghost use Rattle.session_core.specs.Source.{TakesIn, FailsToTakeIn};

use crate::ahead::{Ahead, Handed, MOST_AHEAD};
use crate::command_kind::CommandKind;
use crate::error::FrameError;
use crate::inbox::Inbox;
use crate::message::Message;
use crate::message_kinds::Kinds;
use crate::reply::{Reply, reply_to};
use crate::service::Service;
use crate::source::Source;
use std::alloc::Global;

/// A service, and the input for it that is not answered yet. At the end of the session the service
/// is taken out again.
pub(crate) struct Session<S: Service> {
    service: S,
    /// Which kinds of messages the session has.
    kinds: Kinds,
    /// The input, from the first message on that is not answered.
    inbox: Inbox,
    /// The commands at the front of the input that were handed in.
    ahead: Ahead<S::UnderWay>,
}

impl<S: Service> Session<S> {
    /// A session with these bytes as its input, and with room for commands that are handed in.
    pub(crate) fn new(
        service: S,
        kinds: Kinds,
        inbox: Inbox,
        ahead: Ahead<S::UnderWay>,
    ) -> Session<S>
        ensures service { result.service ≡ service }
        ensures kinds { result.kinds ≡ kinds }
        ensures inbox { result.inbox ≡ inbox }
        ensures ahead { result.ahead ≡ ahead }
    {
        Session {
            service,
            kinds,
            inbox,
            ahead,
        }
    }

    /// Reads once, takes in what was read as the next piece of input, and returns the number of
    /// bytes that were read. The number is 0 at the end of the source only.
    pub(crate) fn read_from<R: Source>(&mut self, reader: &mut R) -> Result<usize, FrameError>
        ensures service { self.new.service ≡ self.old.service }
        ensures kinds { self.new.kinds ≡ self.old.kinds }
        ensures ahead { self.new.ahead ≡ self.old.ahead }
        ensures ok { IfOk result (λ n. TakesIn R.gives reader.old self.old.inbox n reader.new self.new.inbox) }
        ensures end { IfOk result (λ n. n ≡ 0 → R.is_at_end reader.new) }
        ensures err { IfErr result (λ e. FailsToTakeIn R.gives reader.old e reader.new) }
        ensures same { OnErr result (self.new.inbox ≡ self.old.inbox) }
    {
        self.inbox.read_from(reader)
    }

    /// Answers the message whose frame is whole at the front. Where no command is under way, the
    /// commands whose frames are whole at the front are handed in before.
    ///
    /// `None` means that the input is less than a frame, an error that the frame is faulty; in both
    /// cases nothing changes.
    pub(crate) fn next_reply(&mut self, alloc: Global) -> Result<Option<Reply<S::Ack>>, FrameError>
        requires ahead { AreHandedIn self.old.kinds S.is_for (S.state self.old.service) self.old.ahead.queue.items self.old.inbox }
        requires few { length self.old.ahead.queue.items ≤ MOST_AHEAD }
        ensures next { IsNextReply S.Ack.says self.old.kinds S.answers (S.state self.old.service) self.old.inbox (S.state self.new.service) self.new.inbox result }
        ensures kinds { self.new.kinds ≡ self.old.kinds }
        ensures ahead { AreHandedIn self.old.kinds S.is_for (S.state self.new.service) self.new.ahead.queue.items self.new.inbox }
        ensures few { LeavesFewAhead result self.new.ahead.queue.items }
        ensures handed_in { HandsInFrontOf self.old.kinds S.hands_in (drop (frames_len self.old.ahead.queue.items) self.old.inbox)
            (drop (frames_len self.new.ahead.queue.items) self.new.inbox) (S.sent self.old.service) (S.sent self.new.service) }
    {
        if let Some(first) = self.ahead.pop() {
            return Ok(Some(self.settle(first)));
        }
        let Some((message, len)) = self.inbox.front(self.kinds)? else {
            return Ok(None);
        };
        if let Some(first) = hand_in(alloc, &mut self.service, message, len) {
            self.hand_in_after(alloc, len);
            return Ok(Some(self.settle(first)));
        }
        let reply = answer(alloc, &mut self.service, message);
        self.inbox.advance(len);
        Ok(Some(reply))
    }

    /// Hands in the commands whose frames are whole after this number of bytes, the frame of the
    /// command that was handed in first: with that one at most `MOST_AHEAD`, up to the first
    /// message that the service does not take ahead.
    fn hand_in_after(&mut self, alloc: Global, len: usize)
        requires within { len ≤ length self.old.inbox }
        requires none { self.old.ahead.queue.items ≡ [] }
        ensures state { S.state self.new.service ≡ S.state self.old.service }
        ensures kinds { self.new.kinds ≡ self.old.kinds }
        ensures inbox { self.new.inbox ≡ self.old.inbox }
        ensures ahead { AreHandedIn self.old.kinds S.is_for (S.state self.new.service) self.new.ahead.queue.items (drop len self.new.inbox) }
        ensures few { length self.new.ahead.queue.items < MOST_AHEAD }
        ensures handed_in { HandsInFrontOf self.old.kinds S.hands_in (drop len self.new.inbox) (drop (frames_len self.new.ahead.queue.items) (drop len self.new.inbox))
            (S.sent self.old.service) (S.sent self.new.service) }
    {
        let mut at = len;
        for _turn in 1..MOST_AHEAD {
            let Some(handed) = self.hand_in_at(alloc, at) else {
                return;
            };
            at += handed.len;
            self.ahead.push(handed);
        }
    }

    /// Hands in the command whose frame is whole after this number of bytes.
    fn hand_in_at(&mut self, alloc: Global, at: usize) -> Option<Handed<S::UnderWay>>
        requires { at ≤ length self.old.inbox }
        ensures handed { IfSome result (λ handed. IsHandedIn self.old.kinds S.is_for (S.state self.new.service) handed (drop at self.new.inbox)) }
        ensures fits { IfSome result (λ handed. at + handed.len < 2 ^ 64) }
        ensures state { S.state self.new.service ≡ S.state self.old.service }
        ensures kinds { self.new.kinds ≡ self.old.kinds }
        ensures inbox { self.new.inbox ≡ self.old.inbox }
        ensures ahead { self.new.ahead ≡ self.old.ahead }
        ensures handed_in { MatchOption result (S.sent self.new.service ≡ S.sent self.old.service)
            (λ handed. HandsInFirst self.old.kinds S.hands_in (drop at self.new.inbox) handed.len (S.sent self.old.service) (S.sent self.new.service)) }
    {
        let Ok(Some((message, len))) = self.inbox.front_after(self.kinds, at) else {
            return None;
        };
        hand_in(alloc, &mut self.service, message, len)
    }

    /// Answers the first command that was handed in. The others are still ahead.
    fn settle(&mut self, first: Handed<S::UnderWay>) -> Reply<S::Ack>
        requires first { IsHandedIn self.old.kinds S.is_for (S.state self.old.service) first self.old.inbox }
        requires others { AreHandedIn self.old.kinds S.is_for (S.state self.old.service) self.old.ahead.queue.items (drop first.len self.old.inbox) }
        ensures answered { IsFirstAnswered self.old.kinds S.answers (S.state self.old.service) self.old.inbox (reply_view S.Ack.says result) (S.state self.new.service) self.new.inbox }
        ensures kinds { self.new.kinds ≡ self.old.kinds }
        ensures others { AreHandedIn self.old.kinds S.is_for (S.state self.new.service) self.new.ahead.queue.items self.new.inbox }
        ensures left { self.new.inbox ≡ drop first.len self.old.inbox }
        ensures same { self.new.ahead ≡ self.old.ahead }
        ensures handed_in { S.sent self.new.service ≡ S.sent self.old.service }
    {
        let Handed {
            kind,
            len,
            under_way,
        } = first;
        let answered = self.service.settle(under_way);
        self.inbox.advance(len);
        reply_to(kind, answered)
    }

    /// Whether all input is answered.
    pub(crate) fn is_done(&self) -> bool
        ensures { (IsTrue result) ↔ (self.now.inbox ≡ []) }
    {
        self.inbox.is_empty()
    }

    /// Returns the service.
    pub(crate) fn into_service(self) -> S
        ensures { result ≡ self.service }
    {
        let Session {
            service,
            kinds: _kinds,
            inbox: _inbox,
            ahead: _ahead,
        } = self;
        service
    }
}

/// Hands in the command in a frame of this many bytes. `None` means that the message is no command,
/// or that the service does not take it ahead.
fn hand_in<S: Service>(
    alloc: Global,
    service: &mut S,
    message: Message<&[u8]>,
    len: usize,
) -> Option<Handed<S::UnderWay>>
    ensures of_kind { IfSome result (λ handed. command_kind (message_at message.entry) ≡ Some handed.kind) }
    ensures len { IfSome result (λ handed. handed.len ≡ len) }
    ensures known { IfSome result (λ handed. S.is_for (S.state service.new) handed.under_way (message_at message.entry)) }
    ensures same { S.state service.new ≡ S.state service.old }
    ensures handed_in { MatchOption result (S.sent service.new ≡ S.sent service.old)
        (λ _. S.hands_in (S.sent service.old) (message_at message.entry) (S.sent service.new)) }
{
    let kind = CommandKind::of(&message)?;
    let under_way = service.hand_in(alloc, message)?;
    Some(Handed {
        kind,
        len,
        under_way,
    })
}

/// Answers one message.
fn answer<S: Service>(alloc: Global, service: &mut S, message: Message<&[u8]>) -> Reply<S::Ack>
    ensures answers { S.answers (S.state service.old) (message_at message.entry) (reply_view S.Ack.says result) (S.state service.new) }
    ensures sized { HasReplySize (reply_view S.Ack.says result) }
    ensures handed_in { HandsInAtMostFor S.hands_in (S.sent service.old) (message_at message.entry) (S.sent service.new) }
{
    match message {
        Message::Register(body) => reply_to(CommandKind::Register, service.register(alloc, body)),
        Message::Lookup(body) => match service.lookup(alloc, body) {
            Ok((kind, segments)) => Reply::Found(kind, segments),
            Err(code) => Reply::Refused(code),
        },
        Message::Purge(moment) => reply_to(CommandKind::Purge, service.purge(moment)),
        Message::Remove(kind, id) => reply_to(CommandKind::Remove, service.remove(kind, &id)),
        Message::List(request) => match service.list(alloc, &request) {
            Ok(listing) => Reply::Listed(listing),
            Err(code) => Reply::Refused(code),
        },
    }
}
