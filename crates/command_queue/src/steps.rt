//! The steps of the passes of a queue's table. Each costs one load or a few.

ghost use Rattle.std.specs.Prelude.{◌≡◌, ◌≤◌, suc, [], ◌∷◌, ◌++◌, true};
ghost use Rattle.command_queue.specs.Orders.{AreAllOf};
ghost use Rattle.command_queue.specs.Passes.{keeper_view, lists_view, number_view, submitted_view, IsKeeper, IsSender, IsLists, IsNumber, IsSubmitter, list_with, first_number, senders_after, history_with, HasNumber, AreSubmitted};

use crate::ghosts::rule::{
    Begins, Checks, Chosen, Issues, Numbers, QueuePass, QueueTable, Sends, Submits, Takes,
};
use path_db::Command;
use std::marker::Brand;

/// Makes a pass that knows nothing.
pub(crate) fn issue(table: &QueueTable) -> QueuePass
    requires { table.now.shared.table_id.words ≡ 1 }
    ensures { (result.table_id ≡ table.now.shared.table_id) × (result.me ≡ (lists_view [], [])) }
{
    let (_found, pass) = table.shared.load_new_seat::<Issues>(0);
    pass
}

/// Makes the pass of who submits, who has submitted nothing.
pub(crate) fn begin(table: &QueueTable, keeper: &mut QueuePass) -> QueuePass
    requires { (keeper.old.table_id ≡ table.now.shared.table_id) × (table.now.shared.table_id.words ≡ 1) }
    ensures kept { (keeper.new.table_id ≡ keeper.old.table_id) × (keeper.new.me ≡ keeper.old.me) }
    ensures given { (result.table_id ≡ keeper.old.table_id) × (result.me ≡ (submitted_view 0 [], [])) }
{
    table.shared.split_seat::<Begins>(keeper)
}

/// A sender hands in a command: the keeper adds it to the history, and the sender's new pass has it
/// after what the sender handed in before.
pub(crate) fn send(
    table: &QueueTable,
    keeper: &mut QueuePass,
    sender: QueuePass,
    command: &Command,
) -> QueuePass
    requires table { (keeper.old.table_id ≡ table.now.shared.table_id) × (table.now.shared.table_id.words ≡ 1) }
    requires keeper { IsKeeper keeper.old.me.0 }
    requires sender { (sender.table_id ≡ keeper.old.table_id) × (sender.me.1 ≡ []) × IsSender sender.me.0 }
    ensures table { (keeper.new.table_id ≡ keeper.old.table_id) × (keeper.new.me.1 ≡ keeper.old.me.1) }
    ensures history { keeper.new.me.0 ≡ keeper_view
        (history_with keeper.old.me.0.history (first_number keeper.old.me.0.senders sender.me.0.lists) command.now)
        (senders_after keeper.old.me.0.senders sender.me.0.lists) }
    ensures sender { (result.table_id ≡ keeper.old.table_id)
        × (result.me ≡ (lists_view (list_with keeper.old.me.0.senders command.now sender.me.0.lists ∷ []), [])) }
{
    table.shared.join_seat::<Takes>(keeper, sender);
    send_chosen::<Brand>(table, keeper, command)
}

fn send_chosen<C: Chosen>(
    table: &QueueTable,
    keeper: &mut QueuePass,
    command: &Command,
) -> QueuePass
    requires chosen { C.command ≡ command.now }
    requires table { (keeper.old.table_id ≡ table.now.shared.table_id) × (table.now.shared.table_id.words ≡ 1) }
    requires keeper { keeper.old.me.0.keeps ≡ true }
    ensures table { (keeper.new.table_id ≡ keeper.old.table_id) × (keeper.new.me.1 ≡ keeper.old.me.1) }
    ensures history { keeper.new.me.0 ≡ keeper_view
        (history_with keeper.old.me.0.history (first_number keeper.old.me.0.senders keeper.old.me.0.lists) command.now)
        (senders_after keeper.old.me.0.senders keeper.old.me.0.lists) }
    ensures sender { (result.table_id ≡ keeper.old.table_id)
        × (result.me ≡ (lists_view (list_with keeper.old.me.0.senders command.now keeper.old.me.0.lists ∷ []), [])) }
{
    let _ = command;
    table.shared.split_seat::<Sends<C>>(keeper)
}

/// Makes a pass that claims the command of a number, which the keeper knows.
pub(crate) fn number(
    table: &QueueTable,
    keeper: &mut QueuePass,
    number: u64,
    command: &Command,
) -> QueuePass
    requires table { (keeper.old.table_id ≡ table.now.shared.table_id) × (table.now.shared.table_id.words ≡ 1) }
    requires keeper { keeper.old.me.0.keeps ≡ true }
    requires there { HasNumber keeper.old.me.0.history number command.now }
    ensures kept { (keeper.new.table_id ≡ keeper.old.table_id) × (keeper.new.me ≡ keeper.old.me) }
    ensures given { (result.table_id ≡ keeper.old.table_id) × (result.me ≡ (number_view number command.now, [])) }
{
    number_chosen::<Brand>(table, keeper, number, command)
}

fn number_chosen<C: Chosen>(
    table: &QueueTable,
    keeper: &mut QueuePass,
    number: u64,
    command: &Command,
) -> QueuePass
    requires chosen { (C.number ≡ number) × (C.command ≡ command.now) }
    requires table { (keeper.old.table_id ≡ table.now.shared.table_id) × (table.now.shared.table_id.words ≡ 1) }
    requires keeper { keeper.old.me.0.keeps ≡ true }
    requires there { HasNumber keeper.old.me.0.history number command.now }
    ensures kept { (keeper.new.table_id ≡ keeper.old.table_id) × (keeper.new.me ≡ keeper.old.me) }
    ensures given { (result.table_id ≡ keeper.old.table_id) × (result.me ≡ (number_view number command.now, [])) }
{
    let _ = number;
    let _ = command;
    table.shared.split_seat::<Numbers<C>>(keeper)
}

/// Who submits takes in the claim of a command, which is submitted after all others.
pub(crate) fn submit(table: &QueueTable, submitter: &mut QueuePass, claim: QueuePass)
    requires table { (submitter.old.table_id ≡ table.now.shared.table_id) × (table.now.shared.table_id.words ≡ 1) }
    requires submitter { IsSubmitter submitter.old.me.0 }
    requires claim { (claim.table_id ≡ submitter.old.table_id) × (claim.me.1 ≡ []) × IsNumber claim.me.0 }
    requires later { submitter.old.me.0.next ≤ claim.me.0.number }
    ensures table { (submitter.new.table_id ≡ submitter.old.table_id) × (submitter.new.me.1 ≡ submitter.old.me.1) }
    ensures submitted { submitter.new.me.0 ≡
        submitted_view (suc claim.me.0.number) (submitter.old.me.0.submitted ++ claim.me.0.command ∷ []) }
{
    table.shared.join_seat::<Takes>(submitter, claim);
    drop(table.shared.split_seat::<Submits>(submitter));
}

/// A pass takes in the lists of senders that another one has.
pub(crate) fn gather(table: &QueueTable, pass: &mut QueuePass, other: QueuePass)
    requires table { (pass.old.table_id ≡ table.now.shared.table_id) × (table.now.shared.table_id.words ≡ 1) }
    requires pass { IsLists pass.old.me.0 }
    requires other { (other.table_id ≡ pass.old.table_id) × (other.me.1 ≡ []) × IsLists other.me.0 }
    ensures table { (pass.new.table_id ≡ pass.old.table_id) × (pass.new.me.1 ≡ pass.old.me.1) }
    ensures lists { pass.new.me.0 ≡ lists_view (pass.old.me.0.lists ++ other.me.0.lists) }
{
    table.shared.join_seat::<Takes>(pass, other);
}

/// The keeper takes in what was submitted, and the lists of senders, and compares both with the
/// history.
pub(crate) fn check(
    table: &QueueTable,
    keeper: &mut QueuePass,
    submitter: QueuePass,
    ended: QueuePass,
)
    requires table { (keeper.old.table_id ≡ table.now.shared.table_id) × (table.now.shared.table_id.words ≡ 1) }
    requires keeper { IsKeeper keeper.old.me.0 }
    requires submitter { (submitter.table_id ≡ keeper.old.table_id) × (submitter.me.1 ≡ []) × IsSubmitter submitter.me.0 }
    requires ended { (ended.table_id ≡ keeper.old.table_id) × (ended.me.1 ≡ []) × IsLists ended.me.0 }
    ensures history { keeper.new.me.0.history ≡ keeper.old.me.0.history }
    ensures senders { keeper.new.me.0.lists ≡ ended.me.0.lists }
    ensures lists { AreAllOf keeper.old.me.0.history ended.me.0.lists }
    ensures submitted { AreSubmitted keeper.old.me.0.history submitter.me.0.next submitter.me.0.submitted }
{
    table.shared.join_seat::<Takes>(keeper, submitter);
    table.shared.join_seat::<Takes>(keeper, ended);
    table.shared.load::<Checks>(keeper, 0);
}
