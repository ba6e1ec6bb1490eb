//! Laws of changes to an image and of its value after them, in any format of databases of type `Db`
//! and commands of type `C`: groups and seals after the last gate, and one half that takes over
//! from the other.

ghost use Rattle.store_layout.specs.StoreGrowth.{FoldsInParts, StoreGoesByItsLastJournal, StoreIsMadeReady, StoreGrowsByItsGate, StoreIsMadeReadyForSeal, StoreIsSealedByItsGate};
ghost use Rattle.store_layout.specs.Switch.{ClosedAreaMayChange, SwitchesByTheGate, SwitchesByTheGateAtRest, OlderHalfMayChange};
ghost use Rattle.store_layout.specs.TakeOver.{TakesOverTheSame, TakesOverTheSameAtRest};

/// The opening of an image depends on the reading of its last journal, whatever bytes are written
/// in it. The database after two lists of commands is the database after the first list and then
/// the second.
pub fn stores_go_by_their_last_journal<Db, C>()
    ensures last { StoreGoesByItsLastJournal Db C }
    ensures parts { FoldsInParts Db C }
{}

/// A group that is written after the last gate leaves the opening unchanged, and makes the image
/// ready for that group. Where the gate is opened, the value then grows by exactly that group.
pub fn stores_grow_by_their_gate<Db, C>()
    ensures ready { StoreIsMadeReady Db C }
    ensures grown { StoreGrowsByItsGate Db C }
{}

/// A seal does not change the value of an image.
pub fn stores_are_sealed_by_their_gate<Db, C>()
    ensures ready { StoreIsMadeReadyForSeal Db C }
    ensures sealed { StoreIsSealedByItsGate Db C }
{}

/// A half that takes over from a sealed one, or from one without a tail, has the same value.
pub fn halves_take_over_the_same<Db, C>()
    ensures sealed { TakesOverTheSame Db C }
    ensures rest { TakesOverTheSameAtRest Db C }
{}

/// The area of a closed half may change.
pub fn closed_areas_may_change<Db, C>()
    ensures { ClosedAreaMayChange Db C }
{}

/// The gate of the new half decides which of two halves is chosen, and both have the same value.
pub fn halves_switch_by_their_gate<Db, C>()
    ensures sealed { SwitchesByTheGate Db C }
    ensures rest { SwitchesByTheGateAtRest Db C }
{}

/// An older half may change, except for its head.
pub fn older_halves_may_change<Db, C>()
    ensures { OlderHalfMayChange Db C }
{}
