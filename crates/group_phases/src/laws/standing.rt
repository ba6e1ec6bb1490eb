//! Laws of a device that holds what a state represents, in any format of databases of type `Db` and
//! commands of type `C`.

ghost use Rattle.group_phases.specs.HeldOpened.{HeldAtRest, HeldBehindSeal};
ghost use Rattle.group_phases.specs.StandingLaws.{ReadsByItsPart, OpensByBothParts};

/// The tail's journal in each image reads as the flusher's part allows, and each image opens as
/// both parts allow: to what is committed, with none of the commands in flight until their gate is
/// written, with none or all of them until the gate is synced, and then with all.
pub fn images_open_to_fronts<Db, C>()
    ensures journal { ReadsByItsPart C }
    ensures opens { OpensByBothParts Db C }
{}

/// What the device holds of a store that was just opened, at rest or after a seal: nothing is
/// pending, and nothing is in flight.
pub fn opened_stores_are_held<Db, C>()
    ensures rest { HeldAtRest Db C }
    ensures sealed { HeldBehindSeal Db C }
{}
