//! The calls of a state, one after the other, each of which has to be made.

use group_core::{Redeemed, StageError, StepError, SubmitError, Ticket};
use path_db::{Command, Outcome};
use path_hub::Steps;
pub use test_group_scripts::stores::GROUPS;
use test_support::{TestHost, assert_true};

/// What a call answers.
#[derive(Clone, Copy, Debug, PartialEq, Eq)]
pub enum Answer {
    /// The command was accepted, and has this place.
    Accepted(u64),
    /// It was refused.
    Refused(SubmitError),
    /// The step was made.
    Done,
    /// Nothing was staged.
    NotStaged(StageError),
    /// The command of this place is committed, and did this.
    Committed(u64, Outcome),
    /// It is not yet.
    Waiting(u64),
    /// The state has stopped before it was.
    Unknown(u64),
    /// None of these.
    Other,
}

/// Sees each answer as it comes.
pub trait Watch {
    fn see(&mut self, answer: Answer);
}

/// Sees nothing.
#[derive(Clone, Copy)]
pub struct Unwatched;

impl Watch for Unwatched {
    fn see(&mut self, _answer: Answer) {}
}

/// Submits a purge of what expires at moment 0, which is accepted.
pub fn submit<S: Steps>(
    rt: &impl TestHost,
    steps: &S,
    sender: &mut S::Sender,
    watch: &mut impl Watch,
) -> Ticket {
    match steps.submit(sender, Command::Purge(0)) {
        Ok(ticket) => {
            watch.see(Answer::Accepted(ticket.place()));
            ticket
        }
        Err((_command, refusal)) => rt.fail(format_args!("{refusal:?}")),
    }
}

/// Redeems a ticket, which comes back where its command is waiting.
pub fn redeem<S: Steps>(steps: &S, watch: &mut impl Watch, ticket: Ticket) -> Option<Ticket> {
    match steps.redeem(ticket) {
        Redeemed::Committed(receipt) => {
            watch.see(Answer::Committed(receipt.place(), receipt.outcome()));
            None
        }
        Redeemed::Waiting(back) => {
            watch.see(Answer::Waiting(back.place()));
            Some(back)
        }
        Redeemed::Unknown(place) => {
            watch.see(Answer::Unknown(place));
            None
        }
        Redeemed::Stranger(back) => {
            watch.see(Answer::Other);
            Some(back)
        }
    }
}

/// Redeems a ticket, which does not come back.
pub fn spend<S: Steps>(rt: &impl TestHost, steps: &S, watch: &mut impl Watch, ticket: Ticket) {
    if let Some(_back) = redeem(steps, watch, ticket) {
        rt.fail("a ticket came back");
    }
}

/// Redeems a ticket, which comes back.
pub fn keep<S: Steps>(
    rt: &impl TestHost,
    steps: &S,
    watch: &mut impl Watch,
    ticket: Ticket,
) -> Ticket {
    match redeem(steps, watch, ticket) {
        Some(back) => back,
        None => rt.fail("a ticket was spent"),
    }
}

/// The value that a step leads to.
fn made<T, P>(rt: &impl TestHost, watch: &mut impl Watch, next: Result<T, StepError<P>>) -> T {
    match next {
        Ok(value) => {
            watch.see(Answer::Done);
            value
        }
        Err(_refused) => rt.fail("a step was refused"),
    }
}

/// Takes a group, or a seal, through the flusher's steps.
pub fn flush<S: Steps>(rt: &impl TestHost, steps: &S, watch: &mut impl Watch) {
    let staged = match steps.stage() {
        Ok(staged) => staged,
        Err(refusal) => rt.fail(format_args!("{refusal:?}")),
    };
    watch.see(Answer::Done);
    let written = made(rt, watch, steps.write_group(staged));
    let stable = made(rt, watch, steps.sync_group(written));
    let opened = made(rt, watch, steps.open_gate(stable));
    let durable = made(rt, watch, steps.sync_gate(opened));
    match steps.publish(durable) {
        Ok(()) => watch.see(Answer::Done),
        Err(_refused) => rt.fail("not published"),
    }
}

/// Stages nothing.
pub fn refuse_stage<S: Steps>(rt: &impl TestHost, steps: &S, watch: &mut impl Watch) {
    match steps.stage() {
        Err(refusal) => watch.see(Answer::NotStaged(refusal)),
        Ok(_staged) => rt.fail("a group was staged"),
    }
}

/// Commits a purge.
pub fn commit<S: Steps>(
    rt: &impl TestHost,
    steps: &S,
    sender: &mut S::Sender,
    watch: &mut impl Watch,
) {
    let ticket = submit(rt, steps, sender, watch);
    flush(rt, steps, watch);
    spend(rt, steps, watch, ticket);
}

/// Commits this number of purges, a group for each.
pub fn commit_all<S: Steps>(
    rt: &impl TestHost,
    steps: &S,
    sender: &mut S::Sender,
    watch: &mut impl Watch,
    count: u64,
) {
    for _ in 0..count {
        commit(rt, steps, sender, watch);
    }
}

/// Seals a journal that has no room for the next purge, whose ticket is given.
pub fn seal<S: Steps>(
    rt: &impl TestHost,
    steps: &S,
    sender: &mut S::Sender,
    watch: &mut impl Watch,
) -> Ticket {
    let ticket = submit(rt, steps, sender, watch);
    flush(rt, steps, watch);
    keep(rt, steps, watch, ticket)
}

/// Fills both journals of a new store with purges, a group for each: the first one, which is sealed
/// then, and the second one.
pub fn fill<S: Steps>(
    rt: &impl TestHost,
    steps: &S,
    sender: &mut S::Sender,
    watch: &mut impl Watch,
) {
    commit_all(rt, steps, sender, watch, GROUPS);
    let ticket = seal(rt, steps, sender, watch);
    flush(rt, steps, watch);
    spend(rt, steps, watch, ticket);
    commit_all(rt, steps, sender, watch, GROUPS - 1);
}

/// Takes a checkpoint of one chunk through the checkpointer's steps, after a piece of it is
/// prepared; after each step but the last, nothing is staged.
pub fn fold<S: Steps>(rt: &impl TestHost, steps: &S, watch: &mut impl Watch) {
    if let Err(refusal) = steps.prepare() {
        rt.fail(format_args!("{refusal:?}"));
    }
    watch.see(Answer::Done);
    refuse_stage(rt, steps, watch);
    let plan = match steps.begin() {
        Ok(plan) => plan,
        Err(refusal) => rt.fail(format_args!("{refusal:?}")),
    };
    watch.see(Answer::Done);
    refuse_stage(rt, steps, watch);
    assert_true(rt, !plan.is_done(), "a chunk is to be written");
    let plan = made(rt, watch, steps.write_chunk(plan));
    refuse_stage(rt, steps, watch);
    assert_true(rt, plan.is_done(), "one chunk is all");
    let laid = made(rt, watch, steps.sync_chunks(plan));
    refuse_stage(rt, steps, watch);
    let switched = made(rt, watch, steps.open_half(laid));
    refuse_stage(rt, steps, watch);
    let live = made(rt, watch, steps.sync_half(switched));
    refuse_stage(rt, steps, watch);
    let closing = made(rt, watch, steps.close_half(live));
    refuse_stage(rt, steps, watch);
    made(rt, watch, steps.sync_close(closing))
}
