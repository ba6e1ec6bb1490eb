//! Two segments that were worked through by hand, and the core ASes of their network.

use isd_as::parse;
use path_db::{Command, PathDb, Registration};
use seg_core::{SegType, read_segment};
use seg_lookup::Roster;
use std::alloc::Global;
use std::test::Fail;
pub(crate) use test_support::{CORE_SEGMENT, EXP_TIME, SEGMENT, leaving_by};

/// A roster of these texts.
pub(crate) fn roster(alloc: Global, texts: &[&str]) -> Result<Roster, Fail> {
    let mut cores = Vec::new(alloc);
    for text in texts {
        cores.push(parse(text)?)?;
    }
    Ok(Roster::new(cores))
}

/// Registers a segment.
pub(crate) fn register(
    alloc: Global,
    db: &mut PathDb,
    kind: SegType,
    bytes: &[u8],
) -> Result<(), Fail> {
    let mut rows = Vec::new(alloc);
    rows.push((kind, read_segment(alloc, bytes)?))?;
    db.apply(&Command::Register(Registration::new(rows)))?;
    Ok(())
}
