//! Laws of one range of a device's bytes. Each is the contract of a function that does nothing, so
//! that it is proved with the crate. `T` and `E` are the types of what a call returns.

ghost use Rattle.group_phases.specs.RangeLaws.{IsInEveryImage, HasSettledParts, JoinsNeighbours, ReadsAsBefore, StaysSettled, HasUntouchedParts, StaysOnAndOn, CleanStaysInImages, WritesLeaveWhatIsBeside, WritesAreRead, SyncsLeaveAll, SyncsSettle, WritesAreOneMoment, SyncsAreNoMoment};

/// Every image has the bytes of a clean range.
pub fn settled_ranges_are_in_every_image()
    ensures { IsInEveryImage }
{}

/// A part of a clean range is clean, and so are two neighbours together.
pub fn ranges_have_parts()
    ensures part { HasSettledParts }
    ensures joined { JoinsNeighbours }
{}

/// Untouched bytes read as before and stay clean. Parts of an untouched range are untouched, also
/// over several moments. A clean range is untouched in each image.
pub fn untouched_ranges_stay()
    ensures reads { ReadsAsBefore }
    ensures settled { StaysSettled }
    ensures part { HasUntouchedParts }
    ensures then { StaysOnAndOn }
    ensures image { CleanStaysInImages }
{}

/// A write leaves what is beside it untouched, whatever its result. Where the write succeeds, its
/// bytes are read.
pub fn writes_leave_what_is_beside<T, E>()
    ensures beside { WritesLeaveWhatIsBeside T E }
    ensures read { WritesAreRead T E }
{}

/// A sync leaves all bytes untouched, whatever its result. Where the sync succeeds, what reads give
/// is clean.
pub fn syncs_settle<T, E>()
    ensures left { SyncsLeaveAll T E }
    ensures settled { SyncsSettle T E }
{}

/// A stop within a write leaves what a stop before or after the write may leave, and a stop within
/// a sync what a stop before the sync may leave.
pub fn calls_leave_what_is_around_them<T, E>()
    ensures write { WritesAreOneMoment T E }
    ensures sync { SyncsAreNoMoment T E }
{}
