//! Logs and claims whose name is not in their type.
//!
//! A call that picks a name cannot return what has that name in its type. A log and its claims
//! leave the call without it: contracts then see the table that the name was of.

ghost use Rattle.std.specs.Prelude.{◌≡◌, IfOk};
ghost use Rattle.std.specs.List.{AllByRecursion};
ghost use Rattle.command_log.specs.Log.{empty_log, IsCommitted};

use crate::gathering::ClaimCollector;
use crate::name::LogName;
use crate::rule::{LogPass, LogTable};
use crate::steps;
use std::alloc::{AllocError, Global};
use std::marker::{Model, PhantomData};
use std::sync::Arc;

/// A log whose name is not in its type. Contracts see its table, and the log.
#[derive(Drop)]
pub struct UnnamedLog {
    pub(crate) table: Arc<LogTable, Global>,
    pub(crate) owner: LogPass,
}

impl Model for UnnamedLog {
    ghost use Rattle.std.specs.Prelude.{◌≡◌, ◌≤◌, length};
    ghost use Rattle.std.specs.Arc.{arc_value};
    ghost use Rattle.command_log.specs.Log.{LogOfTable};
    ghost use Rattle.command_log.specs.Passes.{log_in, IsOwner};

    ghost Value = { LogOfTable };

    ghost view = { λ l. record { table = (arc_value l.table).shared.table_id; log = log_in l.owner.me.0 } };

    ghost invariant = { λ l. ((arc_value l.table).shared.table_id.words ≡ 1) × (l.owner.table_id ≡ (arc_value l.table).shared.table_id) × IsOwner l.owner.me.0 × (l.owner.me.0.committed ≤ length l.owner.me.0.commands) };
}

impl UnnamedLog {
    /// Makes a log in which nothing is accepted yet. The call takes the memory of one word and of
    /// the table that has it, and no later call takes any.
    pub fn new(alloc: Global) -> Result<UnnamedLog, AllocError>
        ensures { IfOk result (λ new. new.log ≡ empty_log) }
    {
        let (table, owner) = LogTable::of_words(alloc, &[0], &())?;
        let table = Arc::new(alloc, table)?;
        Ok(UnnamedLog { table, owner })
    }

    /// A collector of claims of this log. The call is refused where the log has 2^63 collectors.
    pub fn collector<B: LogName>(&self) -> Result<ClaimCollector<B>, AllocError>
        requires { self.now.table ≡ B.table }
    {
        Ok(ClaimCollector {
            table: Arc::try_clone(&self.table)?,
            name: PhantomData,
        })
    }

    /// The command of a claim of this log is among the committed ones, at its index. The call
    /// compares nothing.
    pub fn prove_committed(&mut self, logged: UnnamedClaim)
        requires { logged.table ≡ self.old.table }
        ensures same { self.new ≡ self.old }
        ensures found { IsCommitted self.old.log logged.claim }
    {
        let UnnamedClaim { pass } = logged;
        steps::check_claim(&self.table, &mut self.owner, pass);
    }

    /// The commands of all claims of a list of this log are among the committed ones, each at its
    /// index. The call compares nothing.
    pub fn prove_all(&mut self, list: &mut UnnamedList)
        requires { list.old.table ≡ self.old.table }
        ensures same { (self.new ≡ self.old) × (list.new ≡ list.old) }
        ensures found { AllByRecursion (IsCommitted self.old.log) list.old.claims }
    {
        let copy = steps::copy(&self.table, &mut list.pass);
        steps::check_claim(&self.table, &mut self.owner, copy);
    }
}

/// The claim that a command was accepted and is committed, of a log whose name is not in its type.
/// Contracts see the log's table, and the claim. It has no bytes.
#[derive(Drop)]
pub struct UnnamedClaim {
    pub(crate) pass: LogPass,
}

impl Model for UnnamedClaim {
    ghost use Rattle.std.specs.Prelude.{◌≡◌, [], true};
    ghost use Rattle.command_log.specs.Log.{ClaimOfTable};
    ghost use Rattle.command_log.specs.Passes.{claim_in, claim_view};

    ghost Value = { ClaimOfTable };

    ghost view = { λ a. record { table = a.pass.table_id; claim = claim_in a.pass.me.0 } };

    ghost invariant = { λ a. a.pass.me ≡ (claim_view true (claim_in a.pass.me.0), []) };
}

/// Claims of committed commands, of a log whose name is not in its type. Contracts see the log's
/// table, and the claims.
#[derive(Drop)]
pub struct UnnamedList {
    pub(crate) pass: LogPass,
}

impl Model for UnnamedList {
    ghost use Rattle.std.specs.Prelude.{◌≡◌, []};
    ghost use Rattle.command_log.specs.Log.{ClaimsOfTable};
    ghost use Rattle.command_log.specs.Passes.{known_in};

    ghost Value = { ClaimsOfTable };

    ghost view = { λ a. record { table = a.pass.table_id; claims = known_in a.pass.me.0 } };

    ghost invariant = { λ a. a.pass.me.1 ≡ [] };
}
