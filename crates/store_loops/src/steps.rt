//! The guarded calls of a state, one at a time, from any thread.

ghost use Rattle.std.specs.Prelude.{◌≡◌, true, false, IfErr};
ghost use Rattle.group_core.specs.declared.staging.StageError.TheVariants as stage_refused;
ghost use Rattle.group_core.specs.declared.beginning.BeginError.TheVariants as begin_refused;
ghost use Rattle.store_loops.specs.Receipts.{IsTicketOrCommand, IsRedeemed, LeadsOn, LeadsOut, IsHandedIn, IsFollowedOrBack, IsPassedOn};

use group_core::{
    AtClosing, AtDurable, AtDurableFollowed, AtFollowed, AtFollowing, AtLaid, AtLive, AtOpened,
    AtPlan, AtStable, AtStaged, AtSwitched, AtWritten, BeginError, Closing, Commit, Durable,
    DurableFollowed, FollowError, Followed, Following, Laid, Live, Opened, Plan, Prepared,
    PublishError, Redeemed, Stable, StageError, Staged, StepError, SubmitError, Switched, Ticket,
    Written,
};
use path_db::Command;

/// What a thread waits for.
#[derive(Clone, Copy)]
pub enum Awaited {
    /// A command to commit, or room in the journal for it: the flusher waits for it.
    Work,
    /// A sealed journal: the checkpointer waits for it.
    Seal,
}

/// A state that several threads work on. Each call but `changes` and `rest` makes one call of the
/// state's method of that name, and no other step of an actor, while no other thread makes a call.
/// Where commands wait in a queue, `submit`, `stage` and `follow` may submit some of them before
/// their step, and each call may redeem tickets of these after its own. Nothing is known of the
/// state from one call to the next. A value that is returned is the one that was passed.
pub trait Steps {
    ghost use Rattle.std.specs.Prelude.{List};
    ghost use Rattle.row_map.specs.Database.{RowView};
    ghost use Rattle.store_layout.specs.Opening.{StoreValue};

    /// What a receipt says of the rows that were shown when it was given.
    type Note: Drop;

    /// A note may be given of a value.
    ghost tells: { StoreValue (List RowView) → Self.Note → Type 0 };

    /// It is known that a call was refused because the state has stopped.
    ghost has_stopped: { Self → Type 0 };

    /// Who submits commands.
    type Sender;

    /// Submits a command of a sender. A command that is refused is returned with the error.
    fn submit(
        &self,
        sender: &mut Self::Sender,
        command: Command,
    ) -> Result<Ticket, (Command, SubmitError)>
        ensures { IsTicketOrCommand command result };

    /// Redeems a ticket. A ticket that is not redeemed yet, or that is not the state's, is
    /// returned.
    fn redeem(&self, ticket: Ticket) -> Redeemed<Self::Note>
        ensures { IsRedeemed tells ticket result };

    /// Stops the state. It stays stopped.
    fn halt(&self)
        ensures { has_stopped self.now };

    /// Stops the state, and gives up a value of an actor that a step refused as a stranger. Only a
    /// defect of the program leads there, so an implementation also reports the call.
    fn give_up<P: Copy>(&self, value: Commit<P>);

    /// Stages a group of the first pending commands, or a seal.
    fn stage(&self) -> Result<Staged, StageError>
        ensures { IfErr result (λ e. e ≡ stage_refused.Stopped → has_stopped self.now) };

    /// Writes what is staged after the tail's gate.
    fn write_group(&self, value: Staged) -> Result<Written, StepError<AtStaged>>
        ensures { LeadsOn value result };

    /// Syncs that write.
    fn sync_group(&self, value: Written) -> Result<Stable, StepError<AtWritten>>
        ensures { LeadsOn value result };

    /// Writes the tail's gate open.
    fn open_gate(&self, value: Stable) -> Result<Opened, StepError<AtStable>>
        ensures { LeadsOn value result };

    /// Syncs the tail's gate: from then on every stop keeps the group or the seal.
    fn sync_gate(&self, value: Opened) -> Result<Durable, StepError<AtOpened>>
        ensures { LeadsOn value result };

    /// Publishes a durable group, which is committed then, or moves the tail to the other journal
    /// after a durable seal.
    fn publish(&self, value: Durable) -> Result<(), PublishError<AtDurable>>
        ensures { IsHandedIn value result };

    /// Stages a group to follow the group in flight, whose gate was written open. A value that no
    /// group follows is returned, and `sync_gate` is next.
    fn follow(&self, value: Opened) -> Result<Following, (Opened, FollowError)>
        ensures { IsFollowedOrBack value result };

    /// Writes the following group after the gate that ends the group in flight.
    fn write_following(&self, value: Following) -> Result<Followed, StepError<AtFollowing>>
        ensures { LeadsOn value result };

    /// Syncs the tail's gate and the following group: from then on every stop keeps the group in
    /// flight.
    fn sync_followed(&self, value: Followed) -> Result<DurableFollowed, StepError<AtFollowed>>
        ensures { LeadsOn value result };

    /// Publishes the group in flight, which is committed then. The following group is in flight
    /// after that, written and synced.
    fn publish_followed(
        &self,
        value: DurableFollowed,
    ) -> Result<Stable, PublishError<AtDurableFollowed>>
        ensures { IsPassedOn value result };

    /// Reads the next piece of the sealed half for a checkpoint that is begun after that, or
    /// applies the next commands of its journal: 64 sectors or, in the journal, as much more as the
    /// last group of the piece has.
    fn prepare(&self) -> Result<Prepared, BeginError>
        ensures { IfErr result (λ e. e ≡ begin_refused.Stopped → has_stopped self.now) };

    /// Begins a checkpoint of the sealed half. What is not prepared of it is read first.
    fn begin(&self) -> Result<Plan, BeginError>
        ensures { IfErr result (λ e. e ≡ begin_refused.Stopped → has_stopped self.now) };

    /// Writes the next sectors of the checkpoint, at most 256. The plan's `done` says whether the
    /// checkpoint is then whole.
    fn write_chunk(&self, value: Plan) -> Result<Plan, StepError<AtPlan>>
        requires { value.phase.done ≡ false }
        ensures { LeadsOn value result };

    /// Syncs the sectors of the checkpoint, once it is written whole.
    fn sync_chunks(&self, value: Plan) -> Result<Laid, StepError<AtPlan>>
        requires { value.phase.done ≡ true }
        ensures { LeadsOn value result };

    /// Writes the new half's gate open.
    fn open_half(&self, value: Laid) -> Result<Switched, StepError<AtLaid>>
        ensures { LeadsOn value result };

    /// Syncs the new half's gate: from then on the new half counts.
    fn sync_half(&self, value: Switched) -> Result<Live, StepError<AtSwitched>>
        ensures { LeadsOn value result };

    /// Writes the old half's gates closed.
    fn close_half(&self, value: Live) -> Result<Closing, StepError<AtLive>>
        ensures { LeadsOn value result };

    /// Syncs the old half's gates: from then on the old half is ready for the next seal.
    fn sync_close(&self, value: Closing) -> Result<(), StepError<AtClosing>>
        ensures { LeadsOut value result };

    /// The number of changes of what is awaited. A stop of the state is a change of each kind. The
    /// count wraps at 2^64.
    fn changes(&self, awaited: Awaited) -> u64;

    /// Waits until there are more changes than `seen`, at most a second. A change after the count
    /// was read ends the rest at once, also where it came before the rest began.
    fn rest(&self, awaited: Awaited, seen: u64);
}
