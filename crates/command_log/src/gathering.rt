//! Claims of committed commands that were put together, in any thread.

ghost use Rattle.std.specs.Prelude.{◌≡◌, [], ◌∷◌, ◌++◌};
ghost use Rattle.std.specs.Arc.{arc_value};

use crate::claims::Logged;
use crate::name::LogName;
use crate::rule::{LogPass, LogTable};
use crate::steps;
use std::alloc::Global;
use std::marker::{Model, PhantomData};
use std::sync::Arc;

/// Claims of committed commands of a log. To a contract it is the list of them. It has no bytes,
/// however many claims there are.
///
/// A list cannot be dropped. It ends in another one, or with its log in
/// `CommandLog::unnamed_with`.
pub struct LoggedList<B: LogName> {
    pub(crate) pass: LogPass,
    pub(crate) name: PhantomData<B>,
}

impl<B: LogName> Model for LoggedList<B> {
    ghost use Rattle.std.specs.Prelude.{◌≡◌, [], List};
    ghost use Rattle.command_log.specs.declared.rule.Claim.{Claim};
    ghost use Rattle.command_log.specs.Passes.{known_in};

    ghost Value = { List Claim };

    ghost view = { λ a. known_in a.pass.me.0 };

    ghost invariant = { λ a. (a.pass.table_id ≡ B.table) × (a.pass.me.1 ≡ []) };
}

/// Puts claims together, for any number of threads beside each other. No call waits or takes
/// memory.
#[derive(Drop)]
pub struct ClaimCollector<B: LogName> {
    pub(crate) table: Arc<LogTable, Global>,
    pub(crate) name: PhantomData<B>,
    ghost one_word: { (arc_value table).shared.table_id.words ≡ 1 },
    ghost of_name: { (arc_value table).shared.table_id ≡ B.table },
}

impl<B: LogName> ClaimCollector<B> {
    /// A list in which there is no claim yet.
    pub fn empty_list(&self) -> LoggedList<B>
        ensures { result ≡ [] }
    {
        LoggedList {
            pass: steps::issue(&self.table),
            name: PhantomData,
        }
    }

    /// Adds a claim to a list.
    pub fn add(&self, list: &mut LoggedList<B>, logged: &mut Logged<B>)
        ensures claims { list.new ≡ list.old ++ logged.old ∷ [] }
        ensures same { logged.new ≡ logged.old }
    {
        let copy = steps::copy(&self.table, &mut logged.pass);
        steps::gather(&self.table, &mut list.pass, copy);
    }

    /// Adds all claims of another list to a list.
    pub fn append(&self, list: &mut LoggedList<B>, other: LoggedList<B>)
        ensures { list.new ≡ list.old ++ other }
    {
        let LoggedList { pass, name: _ } = other;
        steps::gather(&self.table, &mut list.pass, pass);
    }
}
