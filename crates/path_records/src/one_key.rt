//! The row under one key after commands.

ghost use Rattle.std.specs.Prelude.{◌≡◌, not, IfOk};
ghost use Rattle.std.specs.Option.{option_map};
ghost use Rattle.row_map.specs.Database.{key, is_under};
ghost use Rattle.path_db.specs.CommandLaws.{left_under, left_under_all};
ghost use Rattle.row_map.specs.Left.{left_by_put, left_by_puts, kept_if};
ghost use Rattle.row_map.specs.Drops.{is_valid_beyond};
ghost use Rattle.row_map.specs.Row.{row_view};
ghost use Rattle.path_records.specs.Key.{key_bytes};

use crate::key::Key;
use path_db::Command;
use row_map::Row;
use seg_check::expiry;
use seg_core::{SegType, Segment};
use std::alloc::AllocError;

/// The row under a key after commands, where `found` is the row under it before. It is the row that
/// a database has there after the commands. A new row shares its segment with the command. The call
/// takes no memory. An error means that 2^63 rows share a segment already.
pub fn row_after(
    key: &Key,
    found: Option<Row>,
    commands: &[Command],
) -> Result<Option<Row>, AllocError>
    ensures { IfOk result (λ left. option_map row_view left ≡ left_under_all (key_bytes key.now) (option_map row_view found) commands.now) }
{
    let mut left = found;
    for command in commands {
        left = row_after_one(key, left, command)?;
    }
    Ok(left)
}

/// The row under the key after one command.
fn row_after_one(
    key: &Key,
    found: Option<Row>,
    command: &Command,
) -> Result<Option<Row>, AllocError>
    ensures { IfOk result (λ left. option_map row_view left ≡ left_under (key_bytes key.now) (option_map row_view found) command.now) }
{
    match command {
        Command::Register(registration) => row_after_puts(key, found, registration.as_slice()),
        Command::Purge(moment) => Ok(row_after_purge(found, *moment)),
        Command::Remove(kind, id) => Ok(row_after_removal(found, *kind, id)),
    }
}

/// The row under the key after several puts, in their order.
fn row_after_puts(
    key: &Key,
    found: Option<Row>,
    new: &[(SegType, Segment)],
) -> Result<Option<Row>, AllocError>
    ensures { IfOk result (λ left. option_map row_view left ≡ left_by_puts (key_bytes key.now) (option_map row_view found) new.now) }
{
    let mut left = found;
    for row in new {
        left = row_after_put(key, left, row.0, &row.1)?;
    }
    Ok(left)
}

/// The row under the key after a put: the new row if it has this key, unless the row before is at
/// least as new.
fn row_after_put(
    key: &Key,
    found: Option<Row>,
    kind: SegType,
    segment: &Segment,
) -> Result<Option<Row>, AllocError>
    ensures { IfOk result (λ left. option_map row_view left ≡ left_by_put (key_bytes key.now) (option_map row_view found) (kind, segment.now)) }
{
    if !key.order(&Key::of(kind, segment)).is_eq() {
        return Ok(found);
    }
    match found {
        Some(row) => {
            if segment.timestamp() <= row.segment.timestamp() {
                return Ok(Some(row));
            }
            Ok(Some(Row::new(kind, segment.try_clone()?)))
        }
        None => Ok(Some(Row::new(kind, segment.try_clone()?))),
    }
}

/// The row after a purge: it is kept where it expires after the moment, in half seconds since 1970.
fn row_after_purge(found: Option<Row>, moment: u64) -> Option<Row>
    ensures { option_map row_view result ≡ kept_if (is_valid_beyond moment) (option_map row_view found) }
{
    match found {
        Some(row) => {
            if moment < expiry(&row.segment) {
                return Some(row);
            }
            None
        }
        None => None,
    }
}

/// The row after a removal: it is kept where its key is another one.
fn row_after_removal(found: Option<Row>, kind: SegType, id: &[u8; 32]) -> Option<Row>
    ensures { option_map row_view result ≡ kept_if (λ row. not (is_under (key kind id.now) row)) (option_map row_view found) }
{
    match found {
        Some(row) => {
            let removed = Key { kind, id: *id };
            if removed.order(&Key::of_row(&row)).is_eq() {
                return None;
            }
            Some(row)
        }
        None => None,
    }
}
