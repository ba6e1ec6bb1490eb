//! Fronts of a log, as lists that only contracts name.

ghost use Rattle.std.specs.Prelude.{◌≡◌, List, []};
ghost use Rattle.std.specs.Borrow.{ftrue};
ghost use Rattle.path_db.specs.declared.command.Command.{Command};

use ghost_note::{Note, NoteSource};
use std::marker::Model;

/// Fronts of a log of commands. No value of this type is made.
pub struct Fronts {
    ghost fronts: { List (List Command) },
}

impl Model for Fronts {
    ghost also_owns = { λ _. ftrue };

    ghost Value = { List (List Command) };

    ghost view = { λ all. all.fronts };
}

/// Fronts of a log that contracts name and that no code keeps.
pub type FrontsNote = Note<Fronts>;

const _: () = prove!(size_of::<FrontsNote>() == 0);

// No fronts.
struct NoFronts;

impl NoteSource<Fronts> for NoFronts {
    ghost value = { λ _. [] };
}

/// The note of no fronts.
pub fn no_fronts() -> FrontsNote
    ensures { result.value ≡ [] }
{
    Note::of(&NoFronts)
}
