//! Puts of all rows of a registration, or of none of them.

ghost use Rattle.std.specs.Prelude.{◌≡◌, ◌⊎◌, ◌<◌, ◌≤◌, map, IfOk, IfErr, OnOk, OnErr, IsOk, IsErr, vec_len};
ghost use Rattle.path_db.specs.declared.error.ApplyError.TheVariants.{NoMemory, Full};
ghost use Rattle.path_db.specs.Outcome.{outcome_of_puts};
ghost use Rattle.row_map.specs.Database.{IsRising, key_of, row_under, rows_len};
ghost use Rattle.row_map.specs.Put.{database_after_puts, changes_of};
ghost use Rattle.row_map.specs.Row.{row_views};
ghost use Rattle.row_map.specs.Saved.{saved_view, AreFirstPut};

use crate::error::ApplyError;
use crate::outcome::Outcome;
use row_map::{Row, RowMap, Saved, put_row, restore};
use std::alloc::AllocError;

/// Puts rows where their index keys were added and they fit, or none of them. `most` counts bytes.
pub(crate) fn put_after(
    added: Result<(), AllocError>,
    rows: &mut RowMap,
    bytes: &mut u128,
    new: Vec<Row>,
    saved: Vec<Saved>,
    most: u128,
) -> Result<Outcome, ApplyError>
    requires rising { IsRising rows.old }
    requires counted { bytes.old ≡ rows_len rows.old }
    requires saved { map saved_view saved.items ≡ map (λ row. (key_of row, row_under (key_of row) rows.old)) (row_views new.items) }
    ensures added { OnOk result (IsOk added) }
    ensures rows { OnOk result (rows.new ≡ database_after_puts rows.old (row_views new.items)) }
    ensures outcome { IfOk result (λ outcome. outcome ≡ outcome_of_puts (changes_of rows.old (row_views new.items))) }
    ensures err { OnErr result (rows.new ≡ rows.old) }
    ensures bytes { bytes.new ≡ rows_len rows.new }
    ensures within { OnOk result (rows_len rows.new ≤ most) }
    ensures full { IfErr result (λ e. e ≡ Full → most < rows_len (database_after_puts rows.old (row_views new.items))) }
    ensures memory { IfErr result (λ e. e ≡ NoMemory → IsErr added ⊎ (0 < vec_len new)) }
{
    added?;
    put_all(rows, bytes, new, saved, most)
}

/// Puts rows one after the other, or none of them where memory is refused or all rows would take
/// more than `most` bytes. `saved` has the rows under their keys, and `bytes` counts the bytes of
/// all rows.
pub(crate) fn put_all(
    rows: &mut RowMap,
    bytes: &mut u128,
    new: Vec<Row>,
    saved: Vec<Saved>,
    most: u128,
) -> Result<Outcome, ApplyError>
    requires rising { IsRising rows.old }
    requires counted { bytes.old ≡ rows_len rows.old }
    requires saved { map saved_view saved.items ≡ map (λ row. (key_of row, row_under (key_of row) rows.old)) (row_views new.items) }
    ensures rows { OnOk result (rows.new ≡ database_after_puts rows.old (row_views new.items)) }
    ensures outcome { IfOk result (λ outcome. outcome ≡ outcome_of_puts (changes_of rows.old (row_views new.items))) }
    ensures err { OnErr result (rows.new ≡ rows.old) }
    ensures bytes { bytes.new ≡ rows_len rows.new }
    ensures within { OnOk result (rows_len rows.new ≤ most) }
    ensures full { IfErr result (λ e. e ≡ Full → most < rows_len (database_after_puts rows.old (row_views new.items))) }
    ensures memory { IfErr result (λ e. e ≡ NoMemory → 0 < vec_len new) }
{
    let before = *bytes;
    match put_rows(rows, bytes, new, most) {
        Ok(outcome) => Ok(outcome),
        Err(refused) => {
            restore(rows, saved);
            *bytes = before;
            Err(refused)
        }
    }
}

/// Puts rows one after the other. Where memory is refused, or all rows take more than `most` bytes,
/// only the first ones are put. `bytes` counts the bytes of all rows.
pub(crate) fn put_rows(
    rows: &mut RowMap,
    bytes: &mut u128,
    new: Vec<Row>,
    most: u128,
) -> Result<Outcome, ApplyError>
    requires { bytes.old ≡ rows_len rows.old }
    ensures rows { OnOk result (rows.new ≡ database_after_puts rows.old (row_views new.items)) }
    ensures outcome { IfOk result (λ outcome. outcome ≡ outcome_of_puts (changes_of rows.old (row_views new.items))) }
    ensures bytes { OnOk result (bytes.new ≡ rows_len rows.new) }
    ensures within { OnOk result (rows_len rows.new ≤ most) }
    ensures some { OnErr result (AreFirstPut rows.old (row_views new.items) rows.new) }
    ensures full { IfErr result (λ e. e ≡ Full → most < rows_len (database_after_puts rows.old (row_views new.items))) }
    ensures memory { IfErr result (λ e. e ≡ NoMemory → 0 < vec_len new) }
{
    let mut outcome = Outcome::nothing();
    for row in new {
        outcome.count(put_row(rows, bytes, row)?);
    }
    if *bytes > most {
        return Err(ApplyError::Full);
    }
    Ok(outcome)
}
