//! Services, which answer the messages of a session.

ghost use Rattle.std.specs.Prelude.{◌≡◌, ◌≤◌, length, IfOk, IfSome, IsSome, MatchOption, Some};
ghost use Rattle.std.specs.List.{AllByRecursion};
ghost use Rattle.std.specs.Borrow.{GName};
ghost use Rattle.seg_core.specs.Encoding.{IsSegment};
ghost use Rattle.session_core.specs.Commands.{command_kind, reply_to_kind};
ghost use Rattle.session_core.specs.Frames.{MessageView};
ghost use Rattle.session_core.specs.Front.{message_at};
ghost use Rattle.session_core.specs.Reply.{ReplyView};
ghost use Rattle.session_core.specs.Service.{reply_to_register, reply_to_lookup, reply_to_purge, reply_to_remove, reply_to_list, AnswersBehind};
ghost use Rattle.session_core.specs.declared.command_kind.CommandKind.{CommandKind as KindOfCommand};
ghost use Rattle.session_core.specs.declared.message.Message.TheVariants.{Register, Lookup, Purge, Remove, List};

use crate::list_request::ListRequest;
use crate::message::Message;
use path_db::Outcome;
use seg_core::{SegType, Segment};
use std::alloc::Global;

/// The most segments of an answer to a lookup, and of a page.
pub const MOST_SEGMENTS: usize = 64;

/// What an acknowledgement says of its command: its place in the order of commands, counted from 0,
/// and what the command did. A client reads it from a reply. It is no acknowledgement, so that no
/// reply to a peer is made of it alone.
#[derive(Clone, Copy)]
pub struct Ack {
    pub place: u64,
    pub outcome: Outcome,
}

/// An acknowledgement of a command, of which a reply to a peer is made.
pub trait Acknowledges {
    ghost use Rattle.std.specs.Prelude.{◌≡◌};
    ghost use Rattle.session_core.specs.declared.service.Ack.{Ack};

    /// What the acknowledgement says.
    ghost says: { Self → Ack };

    /// What the acknowledgement says.
    fn says(&self) -> Ack
        ensures { result ≡ says self.now };
}

/// A page of the segments that a list asks for, which are of one type.
#[derive(Drop)]
pub struct Listing {
    pub kind: SegType,
    pub segments: Vec<Segment>,
    /// Whether further segments follow those of the page.
    pub more: bool,
}

/// The code of a refusal in a reply, one byte.
#[derive(Clone, Copy)]
pub struct Code(pub u8);

/// Answers messages. Each message may change the state of the service.
///
/// A command can be answered in two steps: `hand_in` takes it, and `settle` answers it. Commands
/// that were handed in are answered in the order in which they were handed in, and no other message
/// is answered before them.
pub trait Service {
    /// A command that was handed in and is not answered yet.
    type UnderWay: Drop;

    /// The acknowledgement of a command.
    type Ack: Acknowledges + Drop;

    /// What contracts see of the messages that were answered.
    ghost State: { Type 0 };

    /// The state of a service. A command that is handed in does not change it.
    ghost state: { Self → State };

    /// The service may answer the message with the reply in the first state, and is in the second
    /// state afterwards.
    ghost answers: { State → MessageView → ReplyView → State → Type 0 };

    /// In this state it is known that this is under way for the message.
    ghost is_for: { State → Self.UnderWay → MessageView → Type 0 };

    /// What contracts see of the commands that were handed in to what keeps them, such as a hub.
    ghost Sent: { Type 0 };

    /// What a service has handed in.
    ghost sent: { Self → Sent };

    /// To take the message leads from the first to the second: at most the message's own command is
    /// handed in, once.
    ghost hands_in: { Sent → MessageView → Sent → Type 0 };

    /// Answers the body of a registration.
    fn register(&mut self, alloc: Global, message: &[u8]) -> Result<Self::Ack, Code>
        ensures answers { answers (state self.old) (Register message.now) (reply_to_register Self.Ack.says result) (state self.new) }
        ensures sent { hands_in (sent self.old) (Register message.now) (sent self.new) };

    /// Answers the body of a lookup: segments of one type. Nothing is handed in.
    fn lookup(&mut self, alloc: Global, message: &[u8]) -> Result<(SegType, Vec<Segment>), Code>
        ensures answers { answers (state self.old) (Lookup message.now) (reply_to_lookup result) (state self.new) }
        ensures few { IfOk result (λ found. length found.1.items ≤ MOST_SEGMENTS) }
        ensures whole { IfOk result (λ found. AllByRecursion IsSegment found.1.items) }
        ensures sent { sent self.new ≡ sent self.old };

    /// Answers a purge of the rows that expire at this moment or before, in half seconds since
    /// 1970.
    fn purge(&mut self, moment: u64) -> Result<Self::Ack, Code>
        ensures answers { answers (state self.old) (Purge moment) (reply_to_purge Self.Ack.says result) (state self.new) }
        ensures sent { hands_in (sent self.old) (Purge moment) (sent self.new) };

    /// Answers the removal of a segment by the byte of its type, which can be any byte, and its id.
    fn remove(&mut self, kind: u8, id: &[u8; 32]) -> Result<Self::Ack, Code>
        ensures answers { answers (state self.old) (Remove kind id.now) (reply_to_remove Self.Ack.says result) (state self.new) }
        ensures sent { hands_in (sent self.old) (Remove kind id.now) (sent self.new) };

    /// Answers a list: a page of segments of one type. The number of the type can be any byte.
    /// Nothing is handed in.
    fn list(&mut self, alloc: Global, request: &ListRequest) -> Result<Listing, Code>
        ensures answers { answers (state self.old) (List request.now) (reply_to_list result) (state self.new) }
        ensures few { IfOk result (λ listing. length listing.segments.items ≤ MOST_SEGMENTS) }
        ensures whole { IfOk result (λ listing. AllByRecursion IsSegment listing.segments.items) }
        ensures sent { sent self.new ≡ sent self.old };

    /// Takes a command ahead of its reply. `None` means that the service takes the message only
    /// when all messages before it are answered, as each lookup and each list. Nothing is handed in
    /// then. A refusal is no `None`: it is the answer of `settle`.
    fn hand_in(&mut self, alloc: Global, message: Message<&[u8]>) -> Option<Self::UnderWay>
        ensures command { IfSome result (λ _. IsSome (command_kind (message_at message.entry))) }
        ensures known { IfSome result (λ under_way. is_for (state self.new) under_way (message_at message.entry)) }
        ensures same { state self.new ≡ state self.old }
        ensures sent { MatchOption result (sent self.new ≡ sent self.old) (λ _. hands_in (sent self.old) (message_at message.entry) (sent self.new)) };

    /// Answers a command that was handed in. It is known of the others what was known before.
    /// Nothing more is handed in.
    fn settle(&mut self, under_way: Self::UnderWay) -> Result<Self::Ack, Code>
        ensures answers { (message : MessageView) (kind : KindOfCommand) → is_for (state self.old) under_way message → command_kind message ≡ Some kind
            → answers (state self.old) message (reply_to_kind Self.Ack.says kind result) (state self.new) }
        ensures others { (other : Self.UnderWay) (message : MessageView) → is_for (state self.old) other message → is_for (state self.new) other message }
        ensures sent { sent self.new ≡ sent self.old };
}

/// A borrowed service answers as the service itself does.
impl<S: Service> Service for &mut S {
    type UnderWay = S::UnderWay;

    type Ack = S::Ack;

    ghost State = { S.State × GName };

    ghost state = { λ service. (S.state service.now, service.ghost_name) };

    ghost answers = { AnswersBehind S.answers };

    ghost is_for = { λ behind. S.is_for behind.0 };

    ghost Sent = { S.Sent };

    ghost sent = { λ service. S.sent service.now };

    ghost hands_in = { S.hands_in };

    fn register(&mut self, alloc: Global, message: &[u8]) -> Result<S::Ack, Code> {
        (**self).register(alloc, message)
    }

    fn lookup(&mut self, alloc: Global, message: &[u8]) -> Result<(SegType, Vec<Segment>), Code> {
        (**self).lookup(alloc, message)
    }

    fn purge(&mut self, moment: u64) -> Result<S::Ack, Code> {
        (**self).purge(moment)
    }

    fn remove(&mut self, kind: u8, id: &[u8; 32]) -> Result<S::Ack, Code> {
        (**self).remove(kind, id)
    }

    fn list(&mut self, alloc: Global, request: &ListRequest) -> Result<Listing, Code> {
        (**self).list(alloc, request)
    }

    fn hand_in(&mut self, alloc: Global, message: Message<&[u8]>) -> Option<S::UnderWay> {
        (**self).hand_in(alloc, message)
    }

    fn settle(&mut self, under_way: S::UnderWay) -> Result<S::Ack, Code> {
        (**self).settle(under_way)
    }
}
