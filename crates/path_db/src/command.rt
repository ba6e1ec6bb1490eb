//! The commands that change a database.

ghost use Rattle.std.specs.Prelude.{◌≡◌, ◌≤◌, length, IfOk, OnErr};
ghost use Rattle.path_db.specs.Command.{TakesMemory};

use seg_core::{SegType, Segment};
use std::alloc::{AllocError, Global};
use std::marker::Model;

/// Segments to be registered, each with its type, in the order in which they are put.
#[derive(Drop)]
pub struct Registration {
    rows: Vec<(SegType, Segment)>,
}

impl Model for Registration {
    ghost use Rattle.std.specs.Prelude.{List};
    ghost use Rattle.row_map.specs.Database.{RowView};

    ghost Value = { List RowView };

    ghost view = { λ s. s.rows.items };
}

impl Registration {
    /// The registration of these segments, in their order.
    pub fn new(rows: Vec<(SegType, Segment)>) -> Registration
        ensures { result ≡ rows.items }
    {
        Registration { rows }
    }

    /// The segments, in their order.
    pub fn as_slice(&self) -> &[(SegType, Segment)]
        ensures { result.now ≡ self.now }
    {
        &self.rows
    }

    /// The segments, in their order.
    pub fn into_vec(self) -> Vec<(SegType, Segment)>
        ensures { result.items ≡ self }
    {
        self.rows
    }
}

/// A command to a database.
#[derive(Drop)]
pub enum Command {
    /// Puts segments one after the other. The row under a key is replaced only by one with a
    /// strictly greater timestamp.
    Register(Registration),
    /// Drops every row that expires at this moment or before. The moment is in half seconds since
    /// 1970.
    Purge(u64),
    /// Drops the row of this type and id, where there is one.
    Remove(SegType, [u8; 32]),
}

impl Command {
    /// An equal command, which shares the segments. Only a registration of at least one segment
    /// takes memory; an error means that memory was refused.
    pub fn try_clone(&self, alloc: Global) -> Result<Command, AllocError>
        ensures same { IfOk result (λ copy. copy ≡ self.now) }
        ensures memory { OnErr result (TakesMemory self.now) }
    {
        match self {
            Command::Register(registration) => {
                let rows = shared_rows(alloc, registration.as_slice())?;
                Ok(Command::Register(Registration::new(rows)))
            }
            Command::Purge(moment) => Ok(Command::Purge(*moment)),
            Command::Remove(kind, id) => Ok(Command::Remove(*kind, *id)),
        }
    }
}

/// The same segments with their types. Their bytes are shared, not copied.
fn shared_rows(
    alloc: Global,
    rows: &[(SegType, Segment)],
) -> Result<Vec<(SegType, Segment)>, AllocError>
    ensures same { IfOk result (λ copies. copies.items ≡ rows.now) }
    ensures memory { OnErr result (1 ≤ length rows.now) }
{
    if rows.is_empty() {
        return Ok(Vec::new(alloc));
    }
    let mut copies = Vec::with_capacity(alloc, rows.len())?;
    for (kind, segment) in rows {
        copies.push((*kind, segment.try_clone()?))?;
    }
    Ok(copies)
}
