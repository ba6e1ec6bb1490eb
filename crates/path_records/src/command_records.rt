//! Commands as records.

ghost use Rattle.std.specs.Prelude.{◌≡◌, ◌≤◌, ◌++◌, ◌∷◌, length, take, IfOk, IfErr, OnOk, OnErr, ◌≢◌};
ghost use Rattle.std.specs.Int.{w64, to_be_bytes};
ghost use Rattle.seg_core.specs.Encoding.{IsSegment};
ghost use Rattle.seg_core.specs.Registration.{type_number};
ghost use Rattle.path_records.specs.declared.error.DbError.TheVariants.{NoMemory};
ghost use Rattle.path_records.specs.RecordSteps.{GivesRecord, ReadsRecord};
ghost use Rattle.row_map.specs.Database.{AreWhole};
ghost use Rattle.path_db.specs.Command.{HasWholeSegments};
ghost use Rattle.path_records.specs.RowRecord.{rows_encoding, HasOutline};
ghost use Rattle.path_records.specs.CommandRecord.{IsWithinLimits, command_encoding, items_decoding, registration_record_decoding, purge_decoding, removal_decoding, command_decoding, WantsItems, CommandWantsMemory};

use crate::error::DbError;
use crate::format::{PURGE_KIND, REGISTER_KIND, REMOVE_KIND};
use crate::row_records::{put_row, read_row, type_from};
use byte_lists::read_u64;
use path_db::{Command, Registration};
use row_map::{ROW_HEAD, type_byte};
use seg_core::{MOST_REGISTERED, MOST_REGISTERED_BYTES, SegType, Segment};
use std::alloc::{AllocError, Global};

/// Appends the record of a command. It begins with the kind (1 byte). A registration has the count
/// of its segments (1) after it and the record of a row for each, a purge a moment (8), and a
/// removal a type (1) and an id (32). Numbers are big-endian. Where memory is refused, the vector
/// keeps its items.
pub fn write_command(command: &Command, out: &mut Vec<u8>) -> Result<(), AllocError>
    requires { IsWithinLimits command.now }
    ensures ok { OnOk result (out.new.items ≡ out.old.items ++ command_encoding command.now) }
    ensures err { OnErr result (out.new.items ≡ out.old.items) }
{
    let before = out.len();
    let put = put_command(command, out);
    if put.is_err() {
        out.truncate(before);
    }
    put
}

/// Appends the record of a command, or a part of it where memory is refused.
#[tactic(auto, unfolding(crate::specs::CommandRecord::command_encoding))]
fn put_command(command: &Command, out: &mut Vec<u8>) -> Result<(), AllocError>
    requires { IsWithinLimits command.now }
    ensures ok { OnOk result (out.new.items ≡ out.old.items ++ command_encoding command.now) }
    ensures kept { take (length out.old.items) out.new.items ≡ out.old.items }
{
    match command {
        Command::Register(registration) => put_registration(registration.as_slice(), out),
        Command::Purge(moment) => put_purge(*moment, out),
        Command::Remove(kind, id) => put_removal(*kind, id, out),
    }
}

/// Appends a kind, a count of one byte, and the segments.
fn put_registration(rows: &[(SegType, Segment)], out: &mut Vec<u8>) -> Result<(), AllocError>
    requires { length rows.now ≤ MOST_REGISTERED }
    ensures ok { OnOk result (out.new.items ≡ out.old.items ++ (1 ∷ length rows.now ∷ rows_encoding rows.now)) }
    ensures kept { take (length out.old.items) out.new.items ≡ out.old.items }
{
    out.extend_from_slice(&[REGISTER_KIND, rows.len() as u8])?;
    put_rows(rows, out)
}

/// Appends segments as the records of rows.
fn put_rows(rows: &[(SegType, Segment)], out: &mut Vec<u8>) -> Result<(), AllocError>
    ensures ok { OnOk result (out.new.items ≡ out.old.items ++ rows_encoding rows.now) }
    ensures kept { take (length out.old.items) out.new.items ≡ out.old.items }
{
    for (kind, segment) in rows {
        put_row(*kind, segment, out)?;
    }
    Ok(())
}

/// Appends a kind, and a moment of eight bytes, big-endian.
fn put_purge(moment: u64, out: &mut Vec<u8>) -> Result<(), AllocError>
    ensures ok { OnOk result (out.new.items ≡ out.old.items ++ (2 ∷ to_be_bytes w64 moment)) }
    ensures kept { take (length out.old.items) out.new.items ≡ out.old.items }
{
    out.push(PURGE_KIND)?;
    out.extend_from_slice(&moment.to_be_bytes())
}

/// Appends a kind, a type of one byte, and an id of 32.
fn put_removal(kind: SegType, id: &[u8; 32], out: &mut Vec<u8>) -> Result<(), AllocError>
    ensures ok { OnOk result (out.new.items ≡ out.old.items ++ (3 ∷ type_number kind ∷ id.now)) }
    ensures kept { take (length out.old.items) out.new.items ≡ out.old.items }
{
    out.extend_from_slice(&[REMOVE_KIND, type_byte(kind)])?;
    out.extend_from_slice(id)
}

/// Reads a command's record, which has to be all of the bytes. A removal is refused where
/// `removals` is false. A purge, a removal, and a registration with too many segments or bytes take
/// no memory. A command that is read can be written.
#[tactic(auto, unfolding(crate::specs::CommandRecord::command_decoding))]
pub fn read_command(alloc: Global, bytes: &[u8], removals: bool) -> Result<Command, DbError>
    ensures decoding { GivesRecord (λ command. command) result (command_decoding removals bytes.now) }
    ensures whole { IfOk result HasWholeSegments }
    ensures limits { IfOk result IsWithinLimits }
    ensures memory { IfErr result (λ e. e ≡ NoMemory → CommandWantsMemory bytes.now) }
{
    let [kind, body @ ..] = bytes else {
        return Err(DbError::BadRecord);
    };
    match *kind {
        REGISTER_KIND => read_registration(alloc, body),
        PURGE_KIND => read_purge(body),
        REMOVE_KIND if removals => read_removal(body),
        _ => Err(DbError::BadRecord),
    }
}

/// Reads a count, and this number of segments.
#[tactic(auto, unfolding(crate::specs::CommandRecord::registration_record_decoding))]
fn read_registration(alloc: Global, body: &[u8]) -> Result<Command, DbError>
    ensures decoding { GivesRecord (λ command. command) result (registration_record_decoding body.now) }
    ensures whole { IfOk result HasWholeSegments }
    ensures limits { IfOk result IsWithinLimits }
    ensures memory { IfErr result (λ e. e ≡ NoMemory → WantsItems body.now) }
{
    let [count, items @ ..] = body else {
        return Err(DbError::BadRecord);
    };
    let count = usize::from(*count);
    if count > MOST_REGISTERED || items.len() > MOST_REGISTERED_BYTES + ROW_HEAD * count {
        return Err(DbError::BadRecord);
    }
    let rows = read_items(alloc, count, items)?;
    Ok(Command::Register(Registration::new(rows)))
}

/// Reads this number of segments, each with its type. Their records have to be all of the bytes.
fn read_items(alloc: Global, count: usize, bytes: &[u8]) -> Result<Vec<(SegType, Segment)>, DbError>
    ensures decoding { GivesRecord (λ rows. rows.items) result (items_decoding count bytes.now) }
    ensures whole { IfOk result (λ rows. AreWhole rows.items) }
    ensures memory { IfErr result (λ e. e ≡ NoMemory → (1 ≤ count) × HasOutline bytes.now) }
{
    let mut rows = Vec::new(alloc);
    let mut rest = bytes;
    for _ in 0..count {
        let (row, behind) = read_row(alloc, rest)?;
        rows.push(row)?;
        rest = behind;
    }
    if !rest.is_empty() {
        return Err(DbError::BadRecord);
    }
    Ok(rows)
}

/// Reads a moment of eight bytes, big-endian.
#[tactic(auto, unfolding(crate::specs::CommandRecord::purge_decoding))]
fn read_purge(body: &[u8]) -> Result<Command, DbError>
    ensures decoding { ReadsRecord (λ command. command) result (purge_decoding body.now) }
    ensures whole { IfOk result HasWholeSegments }
    ensures limits { IfOk result IsWithinLimits }
    ensures memory { IfErr result (λ e. e ≢ NoMemory) }
{
    if body.len() != 8 {
        return Err(DbError::BadRecord);
    }
    Ok(Command::Purge(read_u64(body, 0)))
}

/// Reads a type of one byte and an id of 32.
#[tactic(auto, unfolding(crate::specs::CommandRecord::removal_decoding))]
fn read_removal(body: &[u8]) -> Result<Command, DbError>
    ensures decoding { ReadsRecord (λ command. command) result (removal_decoding body.now) }
    ensures whole { IfOk result HasWholeSegments }
    ensures limits { IfOk result IsWithinLimits }
    ensures memory { IfErr result (λ e. e ≢ NoMemory) }
{
    let [kind, id @ ..] = body else {
        return Err(DbError::BadRecord);
    };
    let kind = type_from(*kind)?;
    match <[u8; 32]>::try_from(id) {
        Ok(id) => Ok(Command::Remove(kind, id)),
        Err(_) => Err(DbError::BadRecord),
    }
}
