//! How a seat gets at what is published.

ghost use Rattle.std.specs.Prelude.{◌≡◌, true, MatchResult};
ghost use Rattle.left_right.specs.Sides.{view};
ghost use Rattle.hub_readers.specs.Shown.{IsSeen};

use crate::ghosts::name::ReaderName;
use crate::ghosts::rule::{ReaderRule, SeenGroups, SeesAll};
use crate::published::Published;
use left_right::reader::{Reader, Reading};
use std::marker::{Model, PhantomData};

/// A reader's seat at what a hub publishes.
pub(crate) type HubSeat<N> = Reader<Published, SeenGroups, ReaderRule<N>>;

/// A seat that is at what a hub publishes, and shows it.
pub(crate) type HubReading<N> = Reading<Published, SeenGroups, ReaderRule<N>>;

/// The way of a seat to what is published. Each reader has one. It alone says that the library let
/// a seat not in, and no other file can use what it knows. It has no bytes.
#[derive(Drop)]
pub(crate) struct Entry<N: ReaderName> {
    of: PhantomData<N>,
}

impl<N: ReaderName> Model for Entry<N> {
    ghost use Rattle.std.specs.Prelude.{◌≡◌, true};

    ghost Value = { Unit {0} };

    ghost view = { λ _. tt };

    ghost invariant = { λ _. N.shut ≡ true };
}

impl<N: ReaderName> Entry<N> {
    /// The way of a new reader, whose hub's name is picked so.
    pub(crate) fn new() -> Entry<N>
        requires { N.shut ≡ true }
    {
        Entry { of: PhantomData }
    }

    /// Lets a seat in. It has then seen all that is published; or the library let it not in.
    pub(crate) fn enter(&self, seat: HubSeat<N>) -> Result<HubReading<N>, HubSeat<N>>
        ensures { MatchResult result
            (λ reading. IsSeen N.opening N.shown (view seat.place) reading.part.value reading.part.value (view reading.place))
            (λ back. (view back.place ≡ view seat.place) × (N.shut ≡ true)) }
    {
        let _of = &self.of;
        seat.enter_as::<SeesAll<N>>()
    }
}
