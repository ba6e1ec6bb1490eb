//! Where the rows that are left under keys are put among the rows before.

ghost use Rattle.std.specs.Prelude.{◌≡◌, ◌∷◌, ◌++◌, [], Bool, List, ℕ, IfOk, OnOk};
ghost use Rattle.row_map.specs.Database.{RowView, key_of};
ghost use Rattle.path_records.specs.Key.{key_bytes};
ghost use Rattle.ckpt_stream.specs.Merging.{order_of};
ghost use Rattle.row_map.specs.Row.{row_view};
ghost use Rattle.ckpt_stream.specs.Planning.{IsPlanned, IsBeforeRowEdit, IsAfterKeyPuts, SameEdits, MakesAll};

use crate::plan::Edit;
use path_records::Key;
use row_map::Row;
use std::alloc::AllocError;
use std::cmp::Ordering;

/// Appends a `Put` for each key from an index on that is below a row's, and for the row's own key
/// where it is one of them. Returns the index of the next key, and whether the row's key is one of
/// them.
pub(crate) fn put_up_to(
    keys: &[Key],
    at: usize,
    row: &Row,
    edits: &mut Vec<Edit>,
) -> Result<(usize, bool), AllocError>
    ensures { IfOk result (λ found. (p : RowView → Bool) (seen : List RowView) (kept : ℕ) (olds : List RowView)
        → IsBeforeRowEdit (row_view row.now) keys.now p seen at edits.old.items kept olds
        → IsAfterKeyPuts found.1 (row_view row.now) keys.now p seen found.0 edits.new.items kept olds) }
{
    let mut at = at;
    while at < keys.len() {
        let order = order_to(&keys[at], row);
        if order == Ordering::Greater {
            return Ok((at, false));
        }
        edits.push(Edit::Put)?;
        at += 1;
        if order == Ordering::Equal {
            return Ok((at, true));
        }
    }
    Ok((at, false))
}

/// The order of a key and a row's key.
fn order_to(key: &Key, row: &Row) -> Ordering
    ensures { result ≡ order_of (key_bytes key.now) (key_of (row_view row.now)) }
{
    key.order(&Key::of_row(row))
}

/// Appends a `Put` for each key from an index on.
pub(crate) fn put_rest(keys: &[Key], at: usize, edits: &mut Vec<Edit>) -> Result<(), AllocError>
    ensures { OnOk result ((p : RowView → Bool) (seen : List RowView) (kept : ℕ) (olds : List RowView)
        → IsPlanned keys.now p seen at edits.old.items kept olds → MakesAll keys.now p seen edits.new.items kept olds) }
{
    let mut at = at;
    while at < keys.len() {
        edits.push(Edit::Put)?;
        at += 1;
    }
    Ok(())
}

/// Appends an edit. It and the last one become one edit, where they can.
pub(crate) fn push_edit(edits: &mut Vec<Edit>, edit: Edit) -> Result<(), AllocError>
    ensures { OnOk result (SameEdits (edits.old.items ++ edit ∷ []) edits.new.items) }
{
    let Some(last) = edits.pop() else {
        edits.push(edit)?;
        return Ok(());
    };
    match last.joined(edit) {
        Some(both) => edits.push(both)?,
        None => {
            edits.push(last)?;
            edits.push(edit)?;
        }
    }
    Ok(())
}
