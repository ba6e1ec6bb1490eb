//! Indexes of rows, and copies of the rows, each twice and by two threads at a time.

ghost use Rattle.std.specs.Prelude.{◌≡◌, IfOk};
ghost use Rattle.row_map.specs.declared.end.End.TheVariants.{First, Last};
ghost use Rattle.row_map.specs.declared.end.By.TheVariants.{OneEnd, BothEnds};
ghost use Rattle.row_map.specs.EndKeys.{index_number, IsRowIndex};

use row_map::{By, End, EndIndex, RowMap, index_of};
use std::alloc::{AllocError, Global};
use std::thread::{Threads, join};

/// A value and an equal one. An error means that memory was refused.
type Pair<T> = Result<(T, T), AllocError>;

/// The index by the first ISD-AS, and that by the last one.
pub(crate) fn indexes_of_ends<R: Threads + Sync>(
    rt: &R,
    alloc: Global,
    rows: &RowMap,
) -> (Pair<EndIndex>, Pair<EndIndex>)
    ensures first { IfOk result.0 (λ pair. IsRowIndex (index_number (OneEnd First)) rows.now pair.0) }
    ensures first_copy { IfOk result.0 (λ pair. IsRowIndex (index_number (OneEnd First)) rows.now pair.1) }
    ensures last { IfOk result.1 (λ pair. IsRowIndex (index_number (OneEnd Last)) rows.now pair.0) }
    ensures last_copy { IfOk result.1 (λ pair. IsRowIndex (index_number (OneEnd Last)) rows.now pair.1) }
{
    join(
        rt,
        || indexed_by(alloc, By::OneEnd(End::First), rows),
        || indexed_by(alloc, By::OneEnd(End::Last), rows),
    )
}

/// The index by the ISDs at both ends, and the rows, which share the segments.
pub(crate) fn index_of_isds_and_copies<R: Threads + Sync>(
    rt: &R,
    alloc: Global,
    rows: &RowMap,
) -> (Pair<EndIndex>, Pair<RowMap>)
    ensures isds { IfOk result.0 (λ pair. IsRowIndex (index_number BothEnds) rows.now pair.0) }
    ensures isds_copy { IfOk result.0 (λ pair. IsRowIndex (index_number BothEnds) rows.now pair.1) }
    ensures rows { IfOk result.1 (λ pair. pair.0 ≡ rows.now) }
    ensures rows_copy { IfOk result.1 (λ pair. pair.1 ≡ rows.now) }
{
    join(
        rt,
        || indexed_by(alloc, By::BothEnds, rows),
        || copies_of(alloc, rows),
    )
}

/// The index by this.
fn indexed_by(alloc: Global, by: By, rows: &RowMap) -> Pair<EndIndex>
    ensures first { IfOk result (λ pair. IsRowIndex (index_number by) rows.now pair.0) }
    ensures second { IfOk result (λ pair. IsRowIndex (index_number by) rows.now pair.1) }
{
    let index = index_of(alloc, by, rows)?;
    let copy = index.try_clone()?;
    Ok((index, copy))
}

/// Two copies of the rows, which share the segments.
fn copies_of(alloc: Global, rows: &RowMap) -> Pair<RowMap>
    ensures first { IfOk result (λ pair. pair.0 ≡ rows.now) }
    ensures second { IfOk result (λ pair. pair.1 ≡ rows.now) }
{
    Ok((rows.try_clone(alloc)?, rows.try_clone(alloc)?))
}
