//! The steps of the owner, and those of other passes. Each costs one or two loads.

ghost use Rattle.std.specs.Prelude.{◌≡◌, ◌<◌, [], ◌++◌, true, false};
ghost use Rattle.command_log.specs.Log.{log_with, with_committed, next_claim};
ghost use Rattle.command_log.specs.Passes.{owner_view, claim_view, no_view, gathered_view, log_in, claim_in, known_in, IsOwner, ClaimsHoldIn};

use crate::rule::{
    Appends, Checks, Chosen, CommitMoment, Commits, Confirms, Copies, Gathers, Issues, LogPass,
    LogTable, Takes,
};
use path_db::Command;
use std::marker::Brand;
use std::snapshot::Snapshot;

/// The owner appends a command, which the new pass claims.
pub(crate) fn append(table: &LogTable, owner: &mut LogPass, command: &Snapshot<Command>) -> LogPass
    requires table { (owner.old.table_id ≡ table.now.shared.table_id) × (table.now.shared.table_id.words ≡ 1) }
    requires owner { IsOwner owner.old.me.0 }
    ensures table { owner.new.table_id ≡ owner.old.table_id }
    ensures log { owner.new.me.0 ≡ owner_view (log_with command.now.value (log_in owner.old.me.0)) }
    ensures claim { (result.table_id ≡ owner.old.table_id) × (result.me ≡ (claim_view false (next_claim command.now.value (log_in owner.old.me.0)), [])) }
{
    append_chosen::<Brand>(table, owner, command)
}

fn append_chosen<C: Chosen>(
    table: &LogTable,
    owner: &mut LogPass,
    command: &Snapshot<Command>,
) -> LogPass
    requires chosen { C.command ≡ command.now.value }
    requires table { (owner.old.table_id ≡ table.now.shared.table_id) × (table.now.shared.table_id.words ≡ 1) }
    requires owner { IsOwner owner.old.me.0 }
    ensures table { owner.new.table_id ≡ owner.old.table_id }
    ensures log { owner.new.me.0 ≡ owner_view (log_with command.now.value (log_in owner.old.me.0)) }
    ensures claim { (result.table_id ≡ owner.old.table_id) × (result.me ≡ (claim_view false (next_claim command.now.value (log_in owner.old.me.0)), [])) }
{
    let _ = command;
    table.shared.split_seat::<Appends<C>>(owner)
}

/// The owner notes that this many more commands are committed.
pub(crate) fn commit<M: CommitMoment>(table: &LogTable, owner: &mut LogPass, more: u64)
    requires table { (owner.old.table_id ≡ table.now.shared.table_id) × (table.now.shared.table_id.words ≡ 1) }
    requires owner { IsOwner owner.old.me.0 }
    ensures table { owner.new.table_id ≡ owner.old.table_id }
    ensures log { owner.new.me.0 ≡ owner_view (with_committed more M.moment (log_in owner.old.me.0)) }
{
    commit_chosen::<Brand>(table, owner, more)
}

fn commit_chosen<C: Chosen>(table: &LogTable, owner: &mut LogPass, more: u64)
    requires chosen { C.count ≡ more }
    requires table { (owner.old.table_id ≡ table.now.shared.table_id) × (table.now.shared.table_id.words ≡ 1) }
    requires owner { IsOwner owner.old.me.0 }
    ensures table { owner.new.table_id ≡ owner.old.table_id }
    ensures log { owner.new.me.0 ≡ owner_view (with_committed more C.moment (log_in owner.old.me.0)) }
{
    let _ = more;
    drop(table.shared.split_seat::<Commits<C>>(owner));
}

/// The owner takes in the claim of a committed command, and gives one that also says that the
/// command is committed.
pub(crate) fn confirm(table: &LogTable, owner: &mut LogPass, claim: LogPass) -> LogPass
    requires table { (owner.old.table_id ≡ table.now.shared.table_id) × (table.now.shared.table_id.words ≡ 1) }
    requires owner { IsOwner owner.old.me.0 }
    requires claim { (claim.table_id ≡ owner.old.table_id) × (claim.me.1 ≡ []) × (claim.me.0.claims ≡ true) }
    requires committed { claim.me.0.index < owner.old.me.0.committed }
    ensures kept { (owner.new.table_id ≡ owner.old.table_id) × (owner.new.me.0 ≡ owner.old.me.0) }
    ensures given { (result.table_id ≡ owner.old.table_id) × (result.me ≡ (claim_view true (claim_in claim.me.0), [])) }
{
    table.shared.join_seat::<Takes>(owner, claim);
    table.shared.split_seat::<Confirms>(owner)
}

/// The owner takes in a claim, and compares it with the log.
pub(crate) fn check_claim(table: &LogTable, owner: &mut LogPass, claim: LogPass)
    requires table { (owner.old.table_id ≡ table.now.shared.table_id) × (table.now.shared.table_id.words ≡ 1) }
    requires owner { IsOwner owner.old.me.0 }
    requires claim { (claim.table_id ≡ owner.old.table_id) × (claim.me.1 ≡ []) }
    ensures kept { (owner.new.table_id ≡ owner.old.table_id) × (owner.new.me.0 ≡ owner.old.me.0) }
    ensures claim { ClaimsHoldIn (log_in owner.old.me.0) claim.me.0 }
{
    table.shared.join_seat::<Takes>(owner, claim);
    table.shared.load::<Checks>(owner, 0);
}

/// Makes a pass that claims nothing.
pub(crate) fn issue(table: &LogTable) -> LogPass
    requires { table.now.shared.table_id.words ≡ 1 }
    ensures { (result.table_id ≡ table.now.shared.table_id) × (result.me ≡ (no_view, [])) }
{
    let (_found, pass) = table.shared.load_new_seat::<Issues>(0);
    pass
}

/// A pass takes in the claims of committed commands of another.
pub(crate) fn gather(table: &LogTable, pass: &mut LogPass, other: LogPass)
    requires table { (pass.old.table_id ≡ table.now.shared.table_id) × (table.now.shared.table_id.words ≡ 1) }
    requires other { (other.table_id ≡ pass.old.table_id) × (other.me.1 ≡ []) }
    ensures table { pass.new.table_id ≡ pass.old.table_id }
    ensures claims { pass.new.me ≡ (gathered_view (known_in pass.old.me.0 ++ known_in other.me.0), pass.old.me.1) }
{
    table.shared.join_seat::<Gathers>(pass, other);
}

/// Makes one more pass with the claims of committed commands that a pass has.
pub(crate) fn copy(table: &LogTable, pass: &mut LogPass) -> LogPass
    requires { (pass.old.table_id ≡ table.now.shared.table_id) × (table.now.shared.table_id.words ≡ 1) }
    ensures same { (pass.new.table_id ≡ pass.old.table_id) × (pass.new.me ≡ pass.old.me) }
    ensures given { (result.table_id ≡ pass.old.table_id) × (result.me ≡ (gathered_view (known_in pass.old.me.0), [])) }
{
    table.shared.split_seat::<Copies>(pass)
}
