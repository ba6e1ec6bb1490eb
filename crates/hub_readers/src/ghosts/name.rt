//! Which hub's readers they are.

use logged_state::StateName;
use std::marker::Brand;

/// Names the readers of one hub: by the state of the hub, and by the book of the history of what is
/// shown to them.
pub trait ReaderName: StateName {
    ghost use Rattle.std.specs.Prelude.{Bool};
    ghost use Rattle.logbook.specs.Pages.{Book};

    /// The book of the history of what is shown.
    ghost shown: { Book };

    /// It is known that the library let a seat of these readers not in. Code over any name learns
    /// this from `Entry::enter` alone.
    ghost shut: { Bool };
}

impl ReaderName for Brand {
    ghost use Rattle.std.specs.Prelude.{true};

    ghost shown = { record { number = 0; log_name = 0; cells_name = 0 } };

    ghost shut = { true };
}
