//! What a source and a destination ask for.

ghost use Rattle.std.specs.Prelude.{◌≡◌};
ghost use Rattle.isd_as.specs.IsdAs.{isd_as_number};
ghost use Rattle.seg_lookup.specs.Query.{query_view, query_result};
ghost use Rattle.seg_lookup.specs.Classification.{is_isd_only_wildcard, query_of};

use crate::error::LookupError;
use crate::query::Query;
use crate::roster::Roster;
use isd_as::IsdAs;
use seg_core::SegType;

/// What a lookup from a source to a destination asks for. A side is core where its AS is 0 or it is
/// on the roster. A core destination has built the segments up to the source, else a core source
/// has built them down to the destination. The call takes no memory.
#[tactic(auto, unfolding(crate::specs::Classification::query_of))]
pub fn classify(roster: &Roster, source: IsdAs, destination: IsdAs) -> Result<Query, LookupError>
    ensures { query_result result ≡ query_of roster.now (isd_as_number source) (isd_as_number destination) }
{
    if source.to_u64() == 0 && destination.to_u64() == 0 {
        return Err(LookupError::NullDestination);
    }
    if is_isd_only_wildcard(source) || is_isd_only_wildcard(destination) {
        return Err(LookupError::IsdOnlyWildcard);
    }
    match (roster.is_core(source), roster.is_core(destination)) {
        (true, true) => Ok(built(SegType::Core, destination, source)),
        (false, true) => Ok(built(SegType::Up, destination, source)),
        (true, false) => Ok(built(SegType::Down, source, destination)),
        (false, false) => Err(LookupError::NoCore),
    }
}

/// Segments of a type that one side has built up to the other.
fn built(kind: SegType, start: IsdAs, end: IsdAs) -> Query
    ensures { query_view result ≡ record { kind = kind; start = isd_as_number start; end = isd_as_number end } }
{
    Query { kind, start, end }
}

/// Whether the ISD is 0, and the AS is not.
fn is_isd_only_wildcard(side: IsdAs) -> bool
    ensures { result ≡ is_isd_only_wildcard (isd_as_number side) }
{
    side.isd == 0 && side.asn != 0
}
