//! A value that only contracts name.

ghost use Rattle.std.specs.Prelude.{◌≡◌};
ghost use Rattle.std.specs.Borrow.{ftrue};

use std::marker::{Model, PhantomData};

/// What gives a note its value.
pub trait NoteSource<T> {
    ghost value: { Self → T };
}

/// A `T` that contracts name and that no code keeps. A note has no bytes in memory.
pub struct Note<T> {
    kind: PhantomData<T>,
    pub ghost value: { T },
}

impl<T> Model for Note<T> {
    ghost also_owns = { λ _. ftrue };
}

// A note owns nothing.
unsafe impl<T> Send for Note<T> {}

impl<T> Note<T> {
    /// The note of a source's value. Its proof is written by hand.
    pub fn of<S: NoteSource<T>>(_source: &S) -> Note<T>
        ensures { result.value ≡ S.value _source.now }
    {
        Note { kind: PhantomData }
    }
}

impl<T> Drop for Note<T> {
    fn drop(self) {
        let Note { kind: _ } = self;
    }
}
