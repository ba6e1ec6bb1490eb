//! The log that a state leaves.

ghost use Rattle.std.specs.Prelude.{◌≡◌, ◌+◌, ℕ, List, take};
ghost use Rattle.std.specs.List.{AllByRecursion};
ghost use Rattle.row_map.specs.Database.{RowView};
ghost use Rattle.store_layout.specs.Opening.{StoreValue};
ghost use Rattle.command_log.specs.Log.{IsCommitted};
ghost use Rattle.path_db.specs.declared.command.Command.{Command};
ghost use Rattle.sector_dev.specs.Disk.{History};
ghost use Rattle.logged_state.specs.Left.{OpensToLog, OpensWith, OpensWithAll};
ghost use Rattle.logged_state.specs.Kept.{AllKept, AllClaimsKept, AllShownKept};
ghost use mathlib.Core.List.{IsPrefix};

use crate::ghosts::fronts::FrontsNote;
use command_log::{UnnamedClaim, UnnamedList, UnnamedLog};
use std::marker::Model;

/// The log of a state that has ended, with the claims of commands that were acknowledged. Contracts
/// see both, and the log's table, which claims of the state have too.
#[derive(Drop)]
pub struct Left {
    log: UnnamedLog,
    acknowledged: UnnamedList,
    looked: FrontsNote,
}

impl Model for Left {
    ghost use Rattle.std.specs.Prelude.{◌≡◌};
    ghost use Rattle.logged_state.specs.LeftView.{LeftView};

    ghost Value = { LeftView };

    ghost view = { λ left. record {
      table = left.log.table;
      log = left.log.log;
      acknowledged = left.acknowledged.claims;
      looked = left.looked.value;
    } };

    ghost invariant = { λ left. left.acknowledged.table ≡ left.log.table };
}

impl Left {
    /// What is left of a state of this log, and of who acknowledged its commands, and looked at
    /// what it showed.
    pub fn of(log: UnnamedLog, acknowledged: UnnamedList, looked: FrontsNote) -> Left
        requires { acknowledged.table ≡ log.table }
        ensures { result ≡ record { table = log.table; log = log.log; acknowledged = acknowledged.claims; looked = looked.value } }
    {
        Left {
            log,
            acknowledged,
            looked,
        }
    }

    /// A law. Where each session looked after a front of what was shown, and that is a front of the
    /// committed commands, each image since the moment at which the last command of a session's
    /// front was committed opens to a front of the log that has all of them.
    pub fn looks_are_kept(&self)
        ensures { (opening : StoreValue (List RowView)) (history : History) (shown : List Command)
            → AllByRecursion (λ front. IsPrefix front shown) self.now.looked
            → IsPrefix shown (take self.now.log.committed self.now.log.commands)
            → AllKept opening self.now.log history → AllShownKept opening self.now.log history self.now.looked }
    {}

    /// Each command that was acknowledged is among the committed ones, at its index. So each image
    /// that opens to this log opens with each of these commands at its place. The call compares
    /// nothing.
    pub fn prove_acknowledged(&mut self)
        ensures same { self.new ≡ self.old }
        ensures found { AllByRecursion (IsCommitted self.old.log) self.old.acknowledged }
        ensures opens { (opening : StoreValue (List RowView)) (image : List ℕ)
            → OpensToLog opening self.old.log image → OpensWithAll opening self.old.acknowledged image }
        ensures since { (opening : StoreValue (List RowView)) (history : History)
            → AllKept opening self.old.log history → AllClaimsKept opening self.old.log history self.old.acknowledged }
    {
        self.log.prove_all(&mut self.acknowledged);
    }

    /// The command of a claim of this log is among the committed ones, at its index. So each image
    /// that opens to this log opens with the command at its place. The call compares nothing.
    pub fn prove_committed(&mut self, claim: UnnamedClaim)
        requires { claim.table ≡ self.old.table }
        ensures same { self.new ≡ self.old }
        ensures found { IsCommitted self.old.log claim.claim }
        ensures opens { (opening : StoreValue (List RowView)) (image : List ℕ) → OpensToLog opening self.old.log image
            → OpensWith opening (opening.place + claim.claim.index) claim.claim.command image }
    {
        self.log.prove_committed(claim);
    }
}
