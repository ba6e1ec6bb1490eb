//! Laws of journals, in any format of commands of type `C`. Each law is the contract of a function
//! that does nothing, so that the law is proved with the crate.

ghost use Rattle.std.specs.Prelude.{◌≡◌, ℕ, ◌≤◌, length};
ghost use Rattle.byte_lists.specs.declared.format.TheConstants.{SECTOR};
ghost use Rattle.store_layout.specs.Limits.{AreAsLarge, limits_of};
ghost use Rattle.store_layout.specs.Group.{seal_encoding};
ghost use Rattle.store_layout.specs.JournalLaws.{IsReadSo, IsRefusedSo, HasOneReading, GoesByItsFront, StaysWithinBounds, FillsSectors, IsKeptByWritesBehind, IsMadeReady, IsMadeReadyForSeal, GrowsByItsGate, IsSealedByItsGate, IsReadUnderLargerLimits};

/// Bytes are read as a journal exactly where they are one, and are refused exactly where the
/// definition of the refusal holds. A journal has at most one reading.
pub fn journals_are_read<C>()
    ensures read { IsReadSo C }
    ensures refused { IsRefusedSo C }
    ensures one { HasOneReading C }
{}

/// A journal's reading depends on the sectors up to its tail, and on the seal's, whatever bytes are
/// after them.
pub fn journals_go_by_their_front<C>()
    ensures { GoesByItsFront C }
{}

/// A journal's tail is one of its sectors and has room for a seal, its place is at most the last
/// one, and its commands are allowed.
pub fn journals_stay_within_bounds<C>()
    ensures { StaysWithinBounds C }
{}

/// Payloads are whole sectors: a group has the number that `group_sectors` gives, and a seal has
/// one.
pub fn payloads_fill_sectors<C>()
    ensures group { FillsSectors C }
    ensures seal { (place : ℕ) → length (seal_encoding place) ≡ SECTOR }
{}

/// A group or a seal that is written after the tail's gate leaves a journal unchanged, and makes it
/// ready for that group or seal.
pub fn journals_are_made_ready<C>()
    ensures kept { IsKeptByWritesBehind C }
    ensures group { IsMadeReady C }
    ensures seal { IsMadeReadyForSeal C }
{}

/// Opening the tail's gate adds exactly the group after it to a journal. Any other bytes of the
/// gate leave the journal unchanged.
pub fn journals_grow_by_their_gate<C>()
    ensures { GrowsByItsGate C }
{}

/// Opening the tail's gate ends a journal with exactly the seal after it. Any other bytes of the
/// gate leave the journal unchanged.
pub fn journals_are_sealed_by_their_gate<C>()
    ensures { IsSealedByItsGate C }
{}

/// A journal that is read under smaller limits has the same reading under larger ones.
pub fn journals_read_under_larger_limits<C>()
    ensures { IsReadUnderLargerLimits C }
{}

/// Later versions of the format allow the commands that earlier versions allow.
pub fn later_versions_allow_more()
    ensures { (earlier later : ℕ) → earlier ≤ later → AreAsLarge (limits_of earlier) (limits_of later) }
{}
