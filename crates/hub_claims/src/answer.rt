//! The answers to commands that were handed in.

ghost use Rattle.std.specs.Prelude.{◌≡◌, ◌+◌, true, Some, None, Ok, Err, IfSome, IfOk, IfErr};
ghost use Rattle.std.specs.Result.{ForOk, ForErr};
ghost use Rattle.hub_claims.specs.Committed.{ReceiptShows, is_above, reason_in};
ghost use Rattle.hub_claims.specs.declared.answer.NotCommitted.TheVariants.{Stopped, Refused};

use crate::error::HubError;
use crate::name::HubName;
use command_queue::{Claim, Numbered};
use group_core::SubmitError;
use hub_readers::HubReceipt;
use logged_state::Lost;
use std::sync::{Mutex, Wait};

/// Why a command that was handed in has no receipt.
#[derive(Clone, Copy, Debug, PartialEq, Eq)]
pub enum NotCommitted {
    /// The state stopped before the command of this place was committed.
    Stopped(u64),
    /// The command was not accepted.
    Refused(SubmitError),
}

impl From<NotCommitted> for HubError {
    ghost use Rattle.std.specs.Prelude.{◌≡◌};
    ghost use Rattle.hub_claims.specs.Committed.{error_of};

    ghost from_gives = { λ why e. e ≡ error_of why };

    fn from(why: NotCommitted) -> HubError {
        match why {
            NotCommitted::Stopped(place) => HubError::Stopped(place),
            NotCommitted::Refused(refusal) => HubError::Submit(refusal),
        }
    }
}

/// What became of the command of a claim.
#[derive(Drop)]
pub struct Answer<N: HubName> {
    claim: Claim<N>,
    outcome: Result<HubReceipt<N>, NotCommitted>,
    ghost shows: { ForOk outcome (λ receipt. receipt.logged.command ≡ claim.command.value) },
    ghost placed: { ForOk outcome (λ receipt. receipt.place ≡ N.opening.place + receipt.logged.index) },
    ghost noted: { ForOk outcome (λ receipt. is_above receipt.place receipt.note ≡ true) },
    ghost refused: { ForErr outcome (λ why. N.refused claim.command.value (reason_in why) ≡ true) },
}

impl<N: HubName> Answer<N> {
    /// The command of the claim is committed.
    #[tactic(auto, using(crate::proofs::Committed::tests))]
    pub fn committed(claim: Claim<N>, receipt: HubReceipt<N>) -> Answer<N>
        requires { ReceiptShows N.opening claim.command.value receipt }
        ensures claim { result.claim ≡ claim }
        ensures outcome { result.outcome ≡ Ok receipt }
    {
        Answer {
            claim,
            outcome: Ok(receipt),
        }
    }

    /// The command of the claim is not accepted, for this reason. What it would be submitted by is
    /// given up, so it is not submitted.
    pub fn refused(claim: Claim<N>, numbered: Numbered<N>, why: SubmitError) -> Answer<N>
        requires number { numbered.number ≡ claim.number }
        requires why { N.refused claim.command.value (Some why) ≡ true }
        ensures claim { result.claim ≡ claim }
        ensures outcome { result.outcome ≡ Err (Refused why) }
    {
        drop(numbered);
        Answer {
            claim,
            outcome: Err(NotCommitted::Refused(why)),
        }
    }

    /// The state has stopped before the command of the claim was committed. The command's claim of
    /// the state's log is given up, so it has no receipt.
    pub fn stopped(claim: Claim<N>, lost: Lost<N>) -> Answer<N>
        requires command { lost.accepted.command ≡ claim.command.value }
        requires why { N.refused claim.command.value None ≡ true }
        ensures claim { result.claim ≡ claim }
        ensures outcome { result.outcome ≡ Err (Stopped lost.place) }
    {
        Answer {
            claim,
            outcome: Err(NotCommitted::Stopped(lost.place())),
        }
    }

    /// The number of the claim.
    pub fn number(&self) -> u64
        ensures { result ≡ self.now.claim.number }
    {
        self.claim.number()
    }

    /// The outcome, where the answer is to this claim.
    #[tactic(auto, using(crate::proofs::Committed::answer_shows, crate::proofs::Committed::answer_refuses))]
    fn outcome_of(self, claim: &Claim<N>) -> Option<Result<HubReceipt<N>, NotCommitted>>
        ensures committed { IfSome result (λ outcome. IfOk outcome (ReceiptShows N.opening claim.now.command.value)) }
        ensures refused { IfSome result (λ outcome. IfErr outcome (λ why. N.refused claim.now.command.value (reason_in why) ≡ true)) }
    {
        let Answer {
            claim: answered,
            outcome,
        } = self;
        if answered.number() != claim.number() {
            return None;
        }
        answered.same_number_means_same_command(claim);
        Some(outcome)
    }
}

/// Where one answer goes: room for it is taken before the command is handed in.
#[derive(Drop)]
pub struct Slot<N: HubName> {
    answer: Mutex<Option<Answer<N>>>,
}

impl<N: HubName> Slot<N> {
    /// A slot without an answer. No clause says that it has none, since the answer is under a lock.
    pub fn new() -> Slot<N> {
        Slot {
            answer: Mutex::new(None),
        }
    }

    /// Puts the answer there. No clause says that it is there then, since it is under a lock.
    pub fn put(&self, rt: &impl Wait, answer: Answer<N>) {
        *self.answer.lock(rt) = Some(answer);
    }

    /// Takes the answer to a claim, if the answer is there. A receipt is of the claim's command.
    pub(crate) fn take(
        &self,
        rt: &impl Wait,
        claim: &Claim<N>,
    ) -> Option<Result<HubReceipt<N>, NotCommitted>>
        ensures committed { IfSome result (λ outcome. IfOk outcome (ReceiptShows N.opening claim.now.command.value)) }
        ensures refused { IfSome result (λ outcome. IfErr outcome (λ why. N.refused claim.now.command.value (reason_in why) ≡ true)) }
    {
        let answer = self.answer.lock(rt).take();
        answer?.outcome_of(claim)
    }
}
