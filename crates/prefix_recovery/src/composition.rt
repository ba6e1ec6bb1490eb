//! Laws of runs one after the other. Each law is the contract of a function that does nothing.

ghost use Rattle.prefix_recovery.specs.Composition.{RunsCompose, LeavesCompose, StopsCompose};

/// Two runs one after the other are one run of both lists.
pub fn runs_compose()
    ensures steps { RunsCompose }
    ensures leaves { LeavesCompose }
{}

/// A run, a stop, an opening, and a run from the store that was opened: what survives a second stop
/// is a front of one order.
pub fn stops_compose()
    ensures { StopsCompose }
{}
