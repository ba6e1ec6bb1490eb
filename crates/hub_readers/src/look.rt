//! Tokens of what readers were shown.

ghost use Rattle.std.specs.Prelude.{◌≡◌, [], ◌∷◌, ◌++◌};
ghost use Rattle.std.specs.List.{AllByRecursion};
ghost use mathlib.Core.List.{IsPrefix};

use crate::ghosts::name::ReaderName;
use ghost_note::{Note, NoteSource};
use log_history::PastLog;
use logged_state::{Fronts, FrontsNote, no_fronts};
use std::marker::{Model, PhantomData};

/// The commands that a reader of the hub of this name was shown by its last look. Contracts see a
/// look as these commands. It has no bytes, and goes to any thread. It is not `Drop`: who has one
/// hands it in.
pub struct Look<N: ReaderName> {
    past: PastLog,
    of: PhantomData<N>,
}

impl<N: ReaderName> Model for Look<N> {
    ghost use Rattle.std.specs.Prelude.{◌≡◌, List};
    ghost use Rattle.path_db.specs.declared.command.Command.{Command};

    ghost Value = { List Command };

    ghost view = { λ l. l.past.commands };

    ghost invariant = { λ l. l.past.book ≡ N.shown };
}

impl<N: ReaderName> Look<N> {
    /// A look that was shown the commands of this past log.
    pub(crate) fn of(past: PastLog) -> Look<N>
        requires { past.book ≡ N.shown }
        ensures { result ≡ past.commands }
    {
        Look {
            past,
            of: PhantomData,
        }
    }
}

/// Looks that were handed in, of the hub of this name. Contracts see them as their commands. They
/// are not `Drop`: they end with their showcase.
pub struct Looks<N: ReaderName> {
    longest: PastLog,
    fronts: FrontsNote,
    of: PhantomData<N>,
}

impl<N: ReaderName> Model for Looks<N> {
    ghost use Rattle.std.specs.Prelude.{◌≡◌, List};
    ghost use Rattle.std.specs.List.{AllByRecursion};
    ghost use mathlib.Core.List.{IsPrefix};
    ghost use Rattle.path_db.specs.declared.command.Command.{Command};

    ghost Value = { List (List Command) };

    ghost view = { λ l. l.fronts.value };

    ghost invariant = { λ l. (l.longest.book ≡ N.shown) × AllByRecursion (λ front. IsPrefix front l.longest.commands) l.fronts.value };
}

impl<N: ReaderName> Looks<N> {
    /// No looks, at a moment of the history of what is shown.
    pub(crate) fn none(past: PastLog) -> Looks<N>
        requires { past.book ≡ N.shown }
        ensures { result ≡ [] }
    {
        Looks {
            longest: past,
            fronts: no_fronts(),
            of: PhantomData,
        }
    }

    /// Takes in one more look.
    pub fn add(&mut self, look: Look<N>)
        ensures { self.new ≡ self.old ++ look ∷ [] }
    {
        let Look { past, of: _ } = look;
        self.longest = self.longest.joined(&past);
        self.fronts = Note::of(&OneMoreFront {
            fronts: &self.fronts,
            past: &past,
        });
    }

    /// The longest of the past logs of the looks, and what the looks were shown, which are fronts
    /// of it.
    pub(crate) fn into_parts(self) -> (PastLog, FrontsNote)
        ensures book { result.0.book ≡ N.shown }
        ensures note { result.1.value ≡ self }
        ensures fronts { AllByRecursion (λ front. IsPrefix front result.0.commands) self }
    {
        let Looks {
            longest,
            fronts,
            of: _,
        } = self;
        (longest, fronts)
    }
}

// Fronts, and the past log of one more.
#[derive(Drop)]
struct OneMoreFront<'a> {
    fronts: &'a FrontsNote,
    past: &'a PastLog,
}

impl<'a> NoteSource<Fronts> for OneMoreFront<'a> {
    ghost value = { λ more. more.fronts.now.value ++ more.past.now.commands ∷ [] };
}
