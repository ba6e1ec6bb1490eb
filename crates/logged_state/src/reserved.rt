//! A store that is reserved for one state, and the device at the end.
//!
//! Who reserves a store gives its device away: between `Reserved::of` and `Ended::into_device` no
//! code but that of the state has it. So a function that gets a `Reserved` and never returns can't
//! have written the device but by a state.

ghost use Rattle.std.specs.Prelude.{◌≡◌};

use sector_dev::Device;
use std::marker::{Model, PhantomData};
use store_open::Store;

/// A store that is reserved for one state. Contracts see the store. `LoggedState::new` makes its
/// state; `end` gives it up.
pub struct Reserved<D: Device> {
    store: Store<D>,
}

impl<D: Device> Model for Reserved<D> {
    ghost use Rattle.store_open.specs.Store.{StoreView};

    ghost Value = { StoreView };

    ghost view = { λ r. r.store };
}

impl<D: Device> Reserved<D> {
    /// Reserves a store. The release alone gives its device back, once it has ended.
    pub fn of(store: Store<D>) -> (Reserved<D>, Release<D>)
        ensures { result.0 ≡ store }
    {
        (Reserved { store }, Release { of: PhantomData })
    }

    /// The store, to be read.
    pub fn as_store(&self) -> &Store<D>
        ensures { result.now ≡ self.now }
    {
        &self.store
    }

    /// Ends the store, of which no state was made.
    pub fn end(self) -> Ended<D>
        ensures { D.disk result ≡ self.disk }
    {
        let Reserved { store } = self;
        Ended::of(store.into_device())
    }

    /// The store, of which a state is made.
    pub(crate) fn into_store(self) -> Store<D>
        ensures { result ≡ self }
    {
        let Reserved { store } = self;
        store
    }
}

/// What gives the device of a reserved store back: only who has reserved a store has one.
#[derive(Drop)]
pub struct Release<D: Device> {
    of: PhantomData<D>,
}

/// The device of a reserved store that has ended. Contracts see the device. No call of it writes.
#[derive(Drop)]
pub struct Ended<D: Device> {
    device: D,
}

impl<D: Device> Model for Ended<D> {
    ghost Value = { D };

    ghost view = { λ e. e.device };
}

impl<D: Device> Ended<D> {
    /// The device of a store or of a state that has ended.
    pub(crate) fn of(device: D) -> Ended<D>
        ensures { result ≡ device }
    {
        Ended { device }
    }

    /// The device, to be read by clauses: its calls that read or write sectors need it as `&mut`.
    pub fn device(&self) -> &D
        ensures { result.now ≡ self.now }
    {
        &self.device
    }

    /// Returns the device to who has reserved the store.
    pub fn into_device(self, _release: Release<D>) -> D
        ensures { result ≡ self }
    {
        let Ended { device } = self;
        device
    }
}
