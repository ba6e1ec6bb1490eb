//! A service over a store in memory.

ghost use Rattle.std.specs.Prelude.{◌≡◌, ◌≤◌, length, IfOk};
ghost use Rattle.std.specs.List.{AllByRecursion};
ghost use Rattle.seg_core.specs.Encoding.{IsSegment};
ghost use Rattle.path_records.specs.CommandRecord.{IsWithinLimits};
ghost use Rattle.session_core.specs.declared.message.Message.TheVariants.{Register, Lookup, Purge, Remove, List};
ghost use Rattle.session_core.specs.declared.service.TheConstants.{MOST_SEGMENTS};
ghost use Rattle.session_core.specs.Reply.{Registered, Purged, Removed, Refused};
ghost use Rattle.reply_codes.specs.Refusal.{refusal_code};
ghost use Rattle.reply_codes.specs.Replies.{reply_to_command, reply_to_query};
ghost use Rattle.cli_once.specs.Kept.{served_by};
ghost use Rattle.cli_once.specs.Memory.{Answers, opening};
ghost use Rattle.cli_once.specs.Taking.{take_refusal, MayAcknowledge};

use crate::once_ack::OnceAck;
use group_core::SubmitError;
use once_store::{OnceStore, TakeError};
use path_db::{Command, Registration};
use reply_codes::Refusal;
use seg_check::{Verifier, check_all};
use seg_core::{SegType, Segment, read_registration, read_registrations_are_whole, read_request};
use seg_lookup::{Roster, classify};
use session_core::{Code, ListRequest, Listing, Message, Service};
use std::alloc::{AllocError, Global};

/// The core ASes, the verifier of signatures, the moment, and a store in memory. The service cannot
/// be dropped: `end` ends it.
pub struct OnceService<'a, V: Verifier> {
    roster: &'a Roster,
    checker: &'a V,
    /// The moment, in half seconds since 1970.
    moment: u64,
    store: OnceStore,
}

impl<'a, V: Verifier> OnceService<'a, V> {
    /// A service with no rows, at place 0. The moment is in half seconds since 1970.
    pub fn new(
        alloc: Global,
        roster: &'a Roster,
        checker: &'a V,
        now: u64,
    ) -> Result<OnceService<'a, V>, AllocError>
        ensures { IfOk result (λ service. served_by V.verifies service ≡ opening roster.now (V.verifies checker.now) now) }
    {
        let store = OnceStore::new(alloc)?;
        Ok(OnceService {
            roster,
            checker,
            moment: now,
            store,
        })
    }

    /// Ends the service, and drops its store. The call takes no memory.
    pub fn end(self) {
        let OnceService {
            roster: _roster,
            checker: _checker,
            moment: _moment,
            store,
        } = self;
        store.end();
    }

    /// Applies a command at the next place, and commits it. Where memory is refused, nothing
    /// changes, or the command is taken and its outcome is not reported.
    fn take(&mut self, command: Command) -> Result<OnceAck, Refusal>
        requires within { IsWithinLimits command }
        ensures { MayAcknowledge (served_by V.verifies self.old) command result (served_by V.verifies self.new) }
    {
        match self.store.take(command) {
            Ok(taken) => Ok(OnceAck::of(taken)),
            Err(error) => Err(refusal_of(error)),
        }
    }

    /// Registers the segments of a registration, once they are accepted.
    #[tactic(auto, unfolding(crate::specs::Memory::message_step))]
    fn accept(&mut self, alloc: Global, message: &[u8]) -> Result<OnceAck, Refusal>
        ensures { Answers (served_by V.verifies self.old) (Register message.now) (reply_to_command Registered result) (served_by V.verifies self.new) }
    {
        read_registrations_are_whole();
        let new = read_registration(alloc, message)?;
        check_all(&new, self.checker, self.moment)?;
        self.take(Command::Register(Registration::new(new)))
    }

    /// Drops the rows that have expired by a moment.
    #[tactic(auto, unfolding(crate::specs::Memory::message_step))]
    fn drop_expired(&mut self, moment: u64) -> Result<OnceAck, Refusal>
        ensures { Answers (served_by V.verifies self.old) (Purge moment) (reply_to_command Purged result) (served_by V.verifies self.new) }
    {
        self.take(Command::Purge(moment))
    }

    /// Drops the segment of a type's number and an id.
    #[tactic(auto, unfolding(crate::specs::Memory::message_step))]
    fn drop_one(&mut self, kind: u8, id: &[u8; 32]) -> Result<OnceAck, Refusal>
        ensures { Answers (served_by V.verifies self.old) (Remove kind id.now) (reply_to_command Removed result) (served_by V.verifies self.new) }
    {
        let kind = SegType::from_number(u64::from(kind))?;
        self.take(Command::Remove(kind, *id))
    }

    /// The segments that a request asks for, of one type.
    #[tactic(auto, unfolding(crate::specs::Memory::message_step))]
    fn find(&mut self, message: &[u8]) -> Result<(SegType, Vec<Segment>), Refusal>
        ensures answers { Answers (served_by V.verifies self.old) (Lookup message.now) (reply_to_query result) (served_by V.verifies self.new) }
        ensures few { IfOk result (λ found. length found.1.items ≤ MOST_SEGMENTS) }
        ensures whole { IfOk result (λ found. AllByRecursion IsSegment found.1.items) }
    {
        let (source, destination) = read_request(message)?;
        let query = classify(self.roster, source, destination)?;
        let found = self.store.look_up(&query, self.moment)?;
        Ok((query.kind, found))
    }

    /// The refusal of a list. No session without lists asks for it.
    #[tactic(auto, unfolding(crate::specs::Memory::message_step))]
    fn refuse_list(&self, request: &ListRequest) -> Refusal
        ensures { Answers (served_by V.verifies self.now) (List request.now) (Refused (refusal_code result)) (served_by V.verifies self.now) }
    {
        Refusal::Stopped
    }
}

/// The refusal that says why a store did not take a command.
fn refusal_of(error: TakeError) -> Refusal
    ensures { result ≡ take_refusal error }
{
    match error {
        TakeError::NoMemory => Refusal::NoMemory,
        TakeError::Full => Refusal::Submit(SubmitError::Full),
        TakeError::Exhausted => Refusal::Submit(SubmitError::Exhausted),
    }
}

impl<V: Verifier> Service for OnceService<'_, V> {
    ghost use Rattle.cli_once.specs.Kept.{served_by};
    ghost use Rattle.cli_once.specs.Memory.{Served, Answers};

    /// Nothing, as no message is taken ahead of its reply.
    type UnderWay = ();

    type Ack = OnceAck;

    ghost State = { Served };

    ghost state = { served_by V.verifies };

    ghost answers = { Answers };

    ghost is_for = { λ _ _ _. ⊥ };

    ghost Sent = { Unit {0} };

    ghost sent = { λ _. tt };

    ghost hands_in = { λ _ _ _. Unit {0} };

    fn register(&mut self, alloc: Global, message: &[u8]) -> Result<OnceAck, Code> {
        Ok(self.accept(alloc, message)?)
    }

    fn lookup(&mut self, _alloc: Global, message: &[u8]) -> Result<(SegType, Vec<Segment>), Code> {
        Ok(self.find(message)?)
    }

    fn list(&mut self, _alloc: Global, request: &ListRequest) -> Result<Listing, Code> {
        Err(Code::from(self.refuse_list(request)))
    }

    fn purge(&mut self, moment: u64) -> Result<OnceAck, Code> {
        Ok(self.drop_expired(moment)?)
    }

    fn remove(&mut self, kind: u8, id: &[u8; 32]) -> Result<OnceAck, Code> {
        Ok(self.drop_one(kind, id)?)
    }

    fn hand_in(&mut self, _alloc: Global, _message: Message<&[u8]>) -> Option<()> {
        None
    }

    /// Refuses, as nothing is ever under way.
    fn settle(&mut self, _under_way: ()) -> Result<OnceAck, Code> {
        Err(Code::from(Refusal::Stopped))
    }
}
