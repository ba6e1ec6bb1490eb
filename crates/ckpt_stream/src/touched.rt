//! The keys that commands name, and the greatest of their purges.

ghost use Rattle.std.specs.Prelude.{◌≡◌, ◌≤◌, ◌++◌, length, take, drop, IfOk, OnOk, map, false, if◌then◌else◌};
ghost use Rattle.row_map.specs.Database.{RowView};
ghost use Rattle.path_records.specs.Key.{key_bytes};
ghost use Rattle.ckpt_stream.specs.Merging.{keys_named, keys_named_by, outlives, outlives_one, KeysRise};
ghost use Rattle.ckpt_stream.specs.Planning.{is_beyond};
ghost use Rattle.ckpt_stream.specs.Touched.{IsKeyOrder, with_above, AreUpTo, AreAbove, IsUnion};

use path_db::Command;
use path_records::Key;
use std::alloc::{AllocError, Global};

/// The greatest one of a moment and the moments of the purges among commands, in half seconds since
/// 1970, where there are any. A row that no command names is left after the commands exactly where
/// it expires after their greatest moment.
pub(crate) fn greatest_purge(before: Option<u64>, commands: &[Command]) -> Option<u64>
    ensures { (row : RowView) → is_beyond result row ≡ (if is_beyond before row then outlives commands.now row else false) }
{
    let mut greatest = before;
    for command in commands {
        greatest = with_purge(greatest, command);
    }
    greatest
}

/// The greater one of a moment and a command's moment, where the command is a purge.
fn with_purge(greatest: Option<u64>, command: &Command) -> Option<u64>
    ensures { (row : RowView) → is_beyond result row ≡ (if is_beyond greatest row then outlives_one command.now row else false) }
{
    match command {
        Command::Purge(moment) => Some(match greatest {
            Some(old) => old.max(*moment),
            None => *moment,
        }),
        Command::Register(_) | Command::Remove(_, _) => greatest,
    }
}

/// Keys that rise and those that commands name, each once, in their order. The keys before are
/// copied in runs between those named, so that few commands cost little beside many keys.
pub(crate) fn with_named(
    alloc: Global,
    before: &[Key],
    commands: &[Command],
) -> Result<Vec<Key>, AllocError>
    ensures { IfOk result (λ keys. KeysRise (map key_bytes before.now)
        → IsUnion (map key_bytes before.now) (keys_named_by commands.now) (map key_bytes keys.items)) }
{
    let mut named = Vec::new(alloc);
    push_all_named(&mut named, commands)?;
    named.sort_by(|one, other| one.order(other))?;
    merged(alloc, before, &named)
}

/// Keys that rise and new keys in their order, each once, in their order. The keys before are
/// searched for the place of each new key, and not read one by one.
fn merged(alloc: Global, before: &[Key], new: &[Key]) -> Result<Vec<Key>, AllocError>
    requires { IsKeyOrder new.now }
    ensures { IfOk result (λ keys. KeysRise (map key_bytes before.now)
        → IsUnion (map key_bytes before.now) (map key_bytes new.now) (map key_bytes keys.items)) }
{
    let mut keys = Vec::with_capacity(alloc, before.len().saturating_add(new.len()))?;
    let mut rest = before;
    for key in new {
        let (run, above) = rest.split_at(run_up_to(rest, key));
        keys.extend_from_slice(run)?;
        push_above(&mut keys, key)?;
        rest = above;
    }
    keys.extend_from_slice(rest)?;
    Ok(keys)
}

/// How many of the keys, which rise, are not above a key.
fn run_up_to(keys: &[Key], key: &Key) -> usize
    ensures bound { result ≤ length keys.now }
    ensures up_to { KeysRise (map key_bytes keys.now) → AreUpTo (key_bytes key.now) (map key_bytes (take result keys.now)) }
    ensures above { KeysRise (map key_bytes keys.now) → AreAbove (key_bytes key.now) (map key_bytes (drop result keys.now)) }
{
    keys.partition_point(|other| other.order(key).is_le())
}

/// Appends a key where it is above the last one.
fn push_above(keys: &mut Vec<Key>, key: &Key) -> Result<(), AllocError>
    ensures { OnOk result (map key_bytes keys.new.items ≡ with_above (map key_bytes keys.old.items) (key_bytes key.now)) }
{
    match keys.last() {
        Some(last) if !last.order(key).is_lt() => {}
        _ => keys.push(*key)?,
    }
    Ok(())
}

/// Appends the keys that commands name, in the order in which the commands name them.
fn push_all_named(keys: &mut Vec<Key>, commands: &[Command]) -> Result<(), AllocError>
    ensures { OnOk result (map key_bytes keys.new.items ≡ map key_bytes keys.old.items ++ keys_named_by commands.now) }
{
    for command in commands {
        push_named(keys, command)?;
    }
    Ok(())
}

/// Appends the keys that a command names.
fn push_named(keys: &mut Vec<Key>, command: &Command) -> Result<(), AllocError>
    ensures { OnOk result (map key_bytes keys.new.items ≡ map key_bytes keys.old.items ++ keys_named command.now) }
{
    match command {
        Command::Register(registration) => {
            for row in registration.as_slice() {
                keys.push(Key::of(row.0, &row.1))?;
            }
            Ok(())
        }
        Command::Purge(_) => Ok(()),
        Command::Remove(kind, id) => {
            keys.push(Key {
                kind: *kind,
                id: *id,
            })?;
            Ok(())
        }
    }
}
