//! A session's service over a hub.

ghost use Rattle.std.specs.Prelude.{◌≡◌, ◌≤◌, length, Some, IfOk, IfErr, IfSome, IsSome, OnOk, MatchOption};
ghost use Rattle.std.specs.List.{AllByRecursion};
ghost use Rattle.seg_core.specs.Encoding.{IsSegment};
ghost use Rattle.session_core.specs.declared.message.Message.TheVariants.{Register, Lookup, Purge, Remove, List};
ghost use Rattle.session_core.specs.declared.service.TheConstants.{MOST_SEGMENTS};
ghost use Rattle.session_core.specs.Commands.{command_kind, reply_to_kind};
ghost use Rattle.session_core.specs.Service.{reply_to_register, reply_to_lookup, reply_to_purge, reply_to_remove, reply_to_list};
ghost use Rattle.session_core.specs.Frames.{MessageView};
ghost use Rattle.session_core.specs.declared.command_kind.CommandKind.{CommandKind};
ghost use Rattle.session_core.specs.Front.{message_at};
ghost use Rattle.store_layout.specs.Journal.{all_of};
ghost use Rattle.reply_codes.specs.Replies.{reply_to_query, reply_to_page};
ghost use Rattle.path_session.specs.Serving.{beginning};
ghost use Rattle.path_session.specs.Answered.{HubAnswers};
ghost use Rattle.path_session.specs.Taking.{IsCommandAnswered, RefusesTaking};
ghost use Rattle.path_session.specs.UnderWay.{IsForRegistration, IsForRows, IsForPurge, IsForRemoval, IsFor, after_check, AnswersTaken};
ghost use Rattle.path_session.specs.Kept.{serving};
ghost use Rattle.path_session.specs.declared.under_way.HubUnderWay.{HubUnderWay as UnderWayValue};
ghost use Rattle.path_session.specs.Sending.{HandsIn, HandsInAtMost};

use crate::hub_ack::HubAck;
use crate::refused::{coded, reader_refusal_of, refusal_of};
use crate::under_way::HubUnderWay;
use hub_claims::{HubClaim, HubName, Waiter};
use hub_readers::{HubReader, Look};
use isd_as::IsdAs;
use path_db::{Command, Registration};
use path_hub::{EndedSender, Hub, LoggedList, Sender};
use reply_codes::Refusal;
use sector_dev::Device;
use seg_check::{Verifier, check_all};
use seg_core::{SegType, Segment, read_registration, read_request};
use seg_lookup::{Query, Roster, classify};
use session_clock::Now;
use session_core::{Code, ListRequest, Listing, Message, Service};
use std::alloc::Global;
use std::sync::Wait;
use std::time::Clock;

/// Answers the messages of one session from a hub, by a reader of its own. A service cannot be
/// dropped. End it by `into_reader`, and give the reader back; or by `into_parts`, and hand in the
/// claims of the commands that were acknowledged, too.
///
/// The clock is asked once for each registration that was read, when the service takes it, and once
/// for each lookup that was classified and for each list of a type that there is. Signatures are
/// checked before the hub is called, so under no lock. Lookups and lists wait for nobody. A
/// command's commit is awaited until the peer has left.
pub struct HubService<'a, D: Device, N: HubName, R: Wait + Clock, V: Verifier, C: Now, P: Waiter> {
    hub: &'a Hub<D, N, R>,
    reader: HubReader<N>,
    verifier: &'a V,
    clock: C,
    roster: &'a Roster,
    /// For whom a commit is awaited.
    peer: P,
    /// The moment of the last message that was answered of those for which the clock was asked, in
    /// half seconds since 1970; 0 at first.
    moment: u64,
    /// The claims of all commands that were committed, in the order of their acknowledgements.
    acknowledged: LoggedList<N>,
    /// Who hands in the session's commands.
    sender: Sender<N>,
}

impl<'a, D: Device, N: HubName, R: Wait + Clock, V: Verifier, C: Now, P: Waiter> HubService<
    'a,
    D,
    N,
    R,
    V,
    C,
    P,
> {
    /// A service that has answered no message, for a peer that it waits for commits with. The
    /// session's commands are the sender's.
    pub fn new(
        hub: &'a Hub<D, N, R>,
        reader: HubReader<N>,
        verifier: &'a V,
        clock: C,
        roster: &'a Roster,
        peer: P,
        sender: Sender<N>,
    ) -> HubService<'a, D, N, R, V, C, P>
        ensures begins { serving V.verifies P.has_left result ≡ beginning roster.now (V.verifies verifier.now) reader (P.has_left peer) }
        ensures sender { result.sender ≡ sender }
    {
        HubService {
            hub,
            reader,
            verifier,
            clock,
            roster,
            peer,
            moment: 0,
            acknowledged: hub.collector().empty_list(),
            sender,
        }
    }

    /// Ends the service, and returns its reader. The claims of the commands that were acknowledged,
    /// what was shown last, and who has handed in the commands, are handed in to the hub.
    pub fn into_reader(self) -> HubReader<N>
    where
        C: Drop,
        P: Drop,
        ensures groups { result.groups ≡ (serving V.verifies P.has_left self.entry).groups }
        ensures seen { result.seen ≡ (serving V.verifies P.has_left self.entry).seen }
    {
        let hub = self.hub;
        let (reader, claims, look, sender) = self.into_parts();
        hub.keep_acknowledged(claims);
        hub.keep_sender(sender);
        hub.keep_look(look);
        reader
    }

    /// Ends the service, and returns its reader, the claims of all commands that were acknowledged,
    /// all commands after which the last lookup or list was answered, and who has handed in its
    /// commands.
    pub fn into_parts(self) -> (HubReader<N>, LoggedList<N>, Look<N>, EndedSender<N>)
    where
        C: Drop,
        P: Drop,
        ensures groups { result.0.groups ≡ (serving V.verifies P.has_left self.entry).groups }
        ensures seen { result.0.seen ≡ (serving V.verifies P.has_left self.entry).seen }
        ensures acknowledged { result.1 ≡ (serving V.verifies P.has_left self.entry).acknowledged }
        ensures looked { result.2 ≡ all_of (serving V.verifies P.has_left self.entry).groups }
        ensures sent { result.3.sender ≡ self.entry.sender }
    {
        let HubService {
            hub: _,
            reader,
            verifier: _,
            clock: _clock,
            roster: _,
            peer: _peer,
            moment: _,
            acknowledged,
            sender,
        } = self;
        let look = reader.last_look();
        (reader, acknowledged, look, sender.end())
    }

    // ---- taking messages

    /// Reads and checks a registration, and hands its command in.
    fn take_registration(&mut self, alloc: Global, body: &[u8]) -> HubUnderWay<N>
        ensures known { IsForRegistration N.refused (V.verifies self.new.verifier.now) body.now result.moment result.handed }
        ensures clock { IfSome result.moment (λ moment. moment ≡ C.moment self.new.clock) }
        ensures sent { HandsIn result.handed self.old.sender self.new.sender }
        ensures same { serving V.verifies P.has_left self.new ≡ serving V.verifies P.has_left self.old }
    {
        match read_registration(alloc, body) {
            Ok(segments) => {
                let now = self.clock.now();
                HubUnderWay {
                    moment: Some(now),
                    handed: self.hand_in_checked(segments, now),
                }
            }
            Err(error) => HubUnderWay {
                moment: None,
                handed: Err(Refusal::from(error)),
            },
        }
    }

    /// Checks segments at a moment, and hands their registration in.
    fn hand_in_checked(
        &mut self,
        segments: Vec<(SegType, Segment)>,
        now: u64,
    ) -> Result<HubClaim<N>, Refusal>
        ensures known { IsForRows N.refused (V.verifies self.new.verifier.now) segments.items now result }
        ensures sent { HandsIn result self.old.sender self.new.sender }
        ensures same { serving V.verifies P.has_left self.new ≡ serving V.verifies P.has_left self.old }
        ensures clock { self.new.clock ≡ self.old.clock }
    {
        check_all(&segments, self.verifier, now)?;
        self.hand_in_command(Command::Register(Registration::new(segments)))
    }

    /// Hands a purge in.
    fn take_purge(&mut self, until: u64) -> HubUnderWay<N>
        ensures moment { result.moment ≡ None }
        ensures known { IsForPurge N.refused until result.handed }
        ensures sent { HandsIn result.handed self.old.sender self.new.sender }
        ensures same { serving V.verifies P.has_left self.new ≡ serving V.verifies P.has_left self.old }
    {
        HubUnderWay {
            moment: None,
            handed: self.hand_in_command(Command::Purge(until)),
        }
    }

    /// Hands the removal of the segment of a type's number and an id in.
    fn take_removal(&mut self, kind: u8, id: &[u8; 32]) -> HubUnderWay<N>
        ensures moment { result.moment ≡ None }
        ensures known { IsForRemoval N.refused kind id.now result.handed }
        ensures sent { HandsIn result.handed self.old.sender self.new.sender }
        ensures same { serving V.verifies P.has_left self.new ≡ serving V.verifies P.has_left self.old }
    {
        HubUnderWay {
            moment: None,
            handed: self.hand_in_removal(kind, id),
        }
    }

    /// Reads the type of a removal, and hands its command in.
    fn hand_in_removal(&mut self, kind: u8, id: &[u8; 32]) -> Result<HubClaim<N>, Refusal>
        ensures known { IsForRemoval N.refused kind id.now result }
        ensures sent { HandsIn result self.old.sender self.new.sender }
        ensures same { serving V.verifies P.has_left self.new ≡ serving V.verifies P.has_left self.old }
    {
        let kind = SegType::from_number(u64::from(kind))?;
        self.hand_in_command(Command::Remove(kind, *id))
    }

    /// Hands a command in to the hub.
    fn hand_in_command(&mut self, command: Command) -> Result<HubClaim<N>, Refusal>
        ensures taken { IfOk result (λ taken. taken ≡ command) }
        ensures refused { IfErr result (RefusesTaking N.refused command) }
        ensures sent { HandsIn result self.old.sender self.new.sender }
        ensures same { serving V.verifies P.has_left self.new ≡ serving V.verifies P.has_left self.old }
        ensures fixed { (self.new.clock ≡ self.old.clock) × (self.new.verifier ≡ self.old.verifier) }
    {
        let handed = self.hub.hand_in(&mut self.sender, command);
        handed.map_err(refusal_of)
    }

    // ---- answering messages

    /// Answers a message that was taken.
    fn answer(&mut self, under_way: HubUnderWay<N>) -> Result<HubAck<N>, Refusal>
        ensures answered { AnswersTaken N.opening N.refused (after_check (serving V.verifies P.has_left self.old) under_way.moment)
            under_way.handed result (serving V.verifies P.has_left self.new) }
        ensures sent { self.new.sender ≡ self.old.sender }
    {
        let HubUnderWay { moment, handed } = under_way;
        self.note_moment(moment);
        self.commit(handed?)
    }

    /// Notes the moment at which a message was checked, if it has one.
    fn note_moment(&mut self, moment: Option<u64>)
        ensures moment { serving V.verifies P.has_left self.new ≡ after_check (serving V.verifies P.has_left self.old) moment }
        ensures sent { self.new.sender ≡ self.old.sender }
    {
        if let Some(moment) = moment {
            self.moment = moment;
        }
    }

    /// Waits until a command is committed, or until the peer has left. Learns the receipt, of which
    /// the acknowledgement is made, and keeps its claim.
    #[tactic(auto, using(crate::proofs::ServingLemmas::wait_ended))]
    fn commit(&mut self, claim: HubClaim<N>) -> Result<HubAck<N>, Refusal>
        ensures answered { IsCommandAnswered N.opening N.refused (serving V.verifies P.has_left self.old)
            claim result (serving V.verifies P.has_left self.new) }
        ensures sent { self.new.sender ≡ self.old.sender }
    {
        let settled = self.hub.settle_for(claim, &mut self.peer);
        let mut receipt = settled.map_err(refusal_of)?;
        self.reader.learn(&mut receipt);
        receipt.add_to(self.hub.collector(), &mut self.acknowledged);
        Ok(HubAck::of(receipt))
    }

    /// The segments that a request asks for, of one type.
    #[tactic(auto, unfolding(crate::specs::Answered::IsAnswered))]
    fn find(&mut self, message: &[u8]) -> Result<(SegType, Vec<Segment>), Refusal>
        ensures answers { HubAnswers N.opening N.refused N.shut (serving V.verifies P.has_left self.old)
            (Lookup message.now) (reply_to_query result) (serving V.verifies P.has_left self.new) }
        ensures few { IfOk result (λ found. length found.1.items ≤ MOST_SEGMENTS) }
        ensures whole { IfOk result (λ found. AllByRecursion IsSegment found.1.items) }
        ensures clock { OnOk result (self.new.moment ≡ C.moment self.new.clock) }
        ensures sent { self.new.sender ≡ self.old.sender }
    {
        let (source, destination) = read_request(message)?;
        let query = classify(self.roster, source, destination)?;
        let now = self.clock.now();
        self.moment = now;
        let found = self.reader.lookup(&query, now).map_err(reader_refusal_of)?;
        Ok((query.kind, found))
    }

    /// The page that a list asks for, of segments of one type.
    #[tactic(auto, unfolding(crate::specs::Answered::IsAnswered))]
    fn find_page(&mut self, request: &ListRequest) -> Result<Listing, Refusal>
        ensures answers { HubAnswers N.opening N.refused N.shut (serving V.verifies P.has_left self.old)
            (List request.now) (reply_to_page result) (serving V.verifies P.has_left self.new) }
        ensures few { IfOk result (λ listing. length listing.segments.items ≤ MOST_SEGMENTS) }
        ensures whole { IfOk result (λ listing. AllByRecursion IsSegment listing.segments.items) }
        ensures clock { OnOk result (self.new.moment ≡ C.moment self.new.clock) }
        ensures sent { self.new.sender ≡ self.old.sender }
    {
        let kind = SegType::from_number(u64::from(request.kind))?;
        let query = Query {
            kind,
            start: IsdAs::from_u64(request.start),
            end: IsdAs::from_u64(request.end),
        };
        let now = self.clock.now();
        self.moment = now;
        let page = self
            .reader
            .page(&query, request.after.as_ref(), now)
            .map_err(reader_refusal_of)?;
        Ok(Listing {
            kind,
            segments: page.segments,
            more: page.more,
        })
    }
}

/// A message hands in at most its own command, once, where it is taken. A lookup and a list hand
/// nothing in, and neither does `settle`.
impl<D: Device, N: HubName, R: Wait + Clock, V: Verifier, C: Now, P: Waiter> Service
    for HubService<'_, D, N, R, V, C, P> {
    ghost use Rattle.path_session.specs.Serving.{Serving};
    ghost use Rattle.path_session.specs.Answered.{HubAnswers};
    ghost use Rattle.path_session.specs.Kept.{serving};
    ghost use Rattle.path_session.specs.UnderWay.{IsFor};
    ghost use Rattle.path_session.specs.Sending.{HandsInAtMost};
    ghost use Rattle.command_queue.specs.Handed.{Handed};

    type UnderWay = HubUnderWay<N>;

    type Ack = HubAck<N>;

    ghost State = { Serving };

    ghost state = { serving V.verifies P.has_left };

    ghost answers = { HubAnswers N.opening N.refused N.shut };

    ghost is_for = { λ service under_way message. IsFor N.refused service.verifies under_way message };

    ghost Sent = { Handed };

    ghost sent = { λ service. service.sender };

    ghost hands_in = { λ old message new. HandsInAtMost message old new };

    fn register(&mut self, alloc: Global, message: &[u8]) -> Result<HubAck<N>, Code>
        ensures answers { HubAnswers N.opening N.refused N.shut (serving V.verifies P.has_left self.old)
            (Register message.now) (reply_to_register (λ ack. ack) result) (serving V.verifies P.has_left self.new) }
        ensures sent { HandsInAtMost (Register message.now) self.old.sender self.new.sender }
    {
        let under_way = self.take_registration(alloc, message);
        self.settle(under_way)
    }

    fn lookup(&mut self, _alloc: Global, message: &[u8]) -> Result<(SegType, Vec<Segment>), Code>
        ensures answers { HubAnswers N.opening N.refused N.shut (serving V.verifies P.has_left self.old)
            (Lookup message.now) (reply_to_lookup result) (serving V.verifies P.has_left self.new) }
        ensures few { IfOk result (λ found. length found.1.items ≤ MOST_SEGMENTS) }
        ensures whole { IfOk result (λ found. AllByRecursion IsSegment found.1.items) }
        ensures clock { OnOk result (self.new.moment ≡ C.moment self.new.clock) }
        ensures sent { self.new.sender ≡ self.old.sender }
    {
        Ok(self.find(message)?)
    }

    fn list(&mut self, _alloc: Global, request: &ListRequest) -> Result<Listing, Code>
        ensures answers { HubAnswers N.opening N.refused N.shut (serving V.verifies P.has_left self.old)
            (List request.now) (reply_to_list result) (serving V.verifies P.has_left self.new) }
        ensures few { IfOk result (λ listing. length listing.segments.items ≤ MOST_SEGMENTS) }
        ensures whole { IfOk result (λ listing. AllByRecursion IsSegment listing.segments.items) }
        ensures clock { OnOk result (self.new.moment ≡ C.moment self.new.clock) }
        ensures sent { self.new.sender ≡ self.old.sender }
    {
        Ok(self.find_page(request)?)
    }

    fn purge(&mut self, moment: u64) -> Result<HubAck<N>, Code>
        ensures answers { HubAnswers N.opening N.refused N.shut (serving V.verifies P.has_left self.old)
            (Purge moment) (reply_to_purge (λ ack. ack) result) (serving V.verifies P.has_left self.new) }
        ensures sent { HandsInAtMost (Purge moment) self.old.sender self.new.sender }
    {
        let under_way = self.take_purge(moment);
        self.settle(under_way)
    }

    fn remove(&mut self, kind: u8, id: &[u8; 32]) -> Result<HubAck<N>, Code>
        ensures answers { HubAnswers N.opening N.refused N.shut (serving V.verifies P.has_left self.old)
            (Remove kind id.now) (reply_to_remove (λ ack. ack) result) (serving V.verifies P.has_left self.new) }
        ensures sent { HandsInAtMost (Remove kind id.now) self.old.sender self.new.sender }
    {
        let under_way = self.take_removal(kind, id);
        self.settle(under_way)
    }

    /// Where a registration is taken that was read, its moment is the one that the clock gave last.
    #[tactic(auto, using(crate::proofs::Sending::registration_sent, crate::proofs::Sending::purge_sent, crate::proofs::Sending::removal_sent))]
    fn hand_in(&mut self, alloc: Global, message: Message<&[u8]>) -> Option<HubUnderWay<N>>
        ensures command { IfSome result (λ _. IsSome (command_kind (message_at message.entry))) }
        ensures known { IfSome result (λ under_way. IsFor N.refused (serving V.verifies P.has_left self.new).verifies under_way (message_at message.entry)) }
        ensures same { serving V.verifies P.has_left self.new ≡ serving V.verifies P.has_left self.old }
        ensures sent { MatchOption result (self.new.sender ≡ self.old.sender) (λ _. HandsInAtMost (message_at message.entry) self.old.sender self.new.sender) }
        ensures handed { IfSome result (λ under_way. HandsIn under_way.handed self.old.sender self.new.sender) }
        ensures clock { IfSome result (λ under_way. IfSome under_way.moment (λ moment. moment ≡ C.moment self.new.clock)) }
    {
        match message {
            Message::Register(body) => Some(self.take_registration(alloc, body)),
            Message::Lookup(_) | Message::List(_) => None,
            Message::Purge(moment) => Some(self.take_purge(moment)),
            Message::Remove(kind, id) => Some(self.take_removal(kind, &id)),
        }
    }

    fn settle(&mut self, under_way: HubUnderWay<N>) -> Result<HubAck<N>, Code>
        ensures answers { (message : MessageView) (kind : CommandKind) → IsFor N.refused (serving V.verifies P.has_left self.old).verifies under_way message
            → command_kind message ≡ Some kind
            → HubAnswers N.opening N.refused N.shut (serving V.verifies P.has_left self.old)
            message (reply_to_kind (λ ack. ack) kind result) (serving V.verifies P.has_left self.new) }
        ensures others { (other : UnderWayValue N) (message : MessageView) → IsFor N.refused (serving V.verifies P.has_left self.old).verifies other message
            → IsFor N.refused (serving V.verifies P.has_left self.new).verifies other message }
        ensures sent { self.new.sender ≡ self.old.sender }
    {
        coded(self.answer(under_way))
    }
}
