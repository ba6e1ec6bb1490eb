//! Laws of closing gates, in any format of databases of type `Db` and commands of type `C`.

ghost use Rattle.store_open.specs.Closing.{IsKeptByClosing};

/// While the gates of the half that is not chosen are being closed, an image that opens without a
/// tail has the same opening.
pub fn openings_are_kept_by_closing<Db, C>()
    ensures { IsKeptByClosing Db C }
{}
