//! Laws of the openings of images, in any format of databases of type `Db` and commands of type
//! `C`.

ghost use Rattle.store_layout.specs.OpeningLaws.{IsOpenedSo, IsOpenRefusedSo, HasValueJustWhere, HasOneValue, OpensUnderLaterVersions};
ghost use Rattle.store_layout.specs.WhatCountsLaws.{GoesByWhatCounts, IsKeptByWritesElsewhere, GoesByTheChosenHalf};
ghost use Rattle.store_layout.specs.TakeOver.{OpensEmpty};

/// An image is read as an opening exactly where it opens, and to its value. An image has at most
/// one value. An image is refused exactly where the definition of the refusal holds.
pub fn openings_are_read<Db, C>()
    ensures read { IsOpenedSo Db C }
    ensures refused { IsOpenRefusedSo Db C }
    ensures value { HasValueJustWhere Db C }
    ensures one { HasOneValue Db C }
{}

/// An image that opens where fewer versions are known opens to the same value where more are known.
pub fn openings_stay_under_later_versions<Db, C>()
    ensures { OpensUnderLaterVersions Db C }
{}

/// An opening depends on the bytes that count for it: an image of the same size with the same bytes
/// there opens in the same way. A write elsewhere leaves the opening unchanged. Where no journal is
/// sealed, the chosen half is enough, if the other one is closed or older.
pub fn openings_go_by_what_counts<Db, C>()
    ensures same { GoesByWhatCounts Db C }
    ensures kept { IsKeptByWritesElsewhere Db C }
    ensures chosen { GoesByTheChosenHalf Db C }
{}

/// A store that was formatted opens to the empty database, at place 0.
pub fn new_stores_open_empty<Db, C>()
    ensures { OpensEmpty Db C }
{}
