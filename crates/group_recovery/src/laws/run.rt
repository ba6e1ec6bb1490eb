//! Laws of runs. Each law is the contract of a function that does nothing.

ghost use Rattle.group_recovery.specs.Bookkeeping.{EventsKeepTheBooks, StopsAreForGood};
ghost use Rattle.group_recovery.specs.MachineSteps.{EventsMakeMachineSteps};
ghost use Rattle.group_recovery.specs.Reopening.{FrontsAreReopened, PrefixesAreReopened};

/// Each event of a run makes the step of the machine that its reply determines.
pub fn events_make_machine_steps()
    ensures { EventsMakeMachineSteps }
{}

/// Each event changes the bookkeeping of a state as its reply determines. A state that has stopped
/// stays stopped.
pub fn events_keep_the_books()
    ensures books { EventsKeepTheBooks }
    ensures stopped { StopsAreForGood }
{}

/// What a stop leaves of a run or of a state is a machine that is reopened.
pub fn stops_reopen_machines()
    ensures run { PrefixesAreReopened }
    ensures state { FrontsAreReopened }
{}
