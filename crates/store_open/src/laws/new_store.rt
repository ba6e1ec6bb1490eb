//! Laws of new stores, in any format of databases of type `Db` and commands of type `C`.

ghost use Rattle.store_open.specs.NewStore.{IsFormattedInAny};

/// A new store is a formatted one, so that it opens to the empty database, at place 0.
pub fn new_stores_are_formatted<Db, C>()
    ensures { IsFormattedInAny Db C }
{}
