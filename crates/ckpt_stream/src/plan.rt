//! The plan for all rows, its edits, and how many bytes and rows are left after it.

ghost use Rattle.std.specs.Prelude.{◌∷◌, [], ◌≡◌, ◌^◌, ◌-◌, length, min};
ghost use Rattle.std.specs.Option.{ForSome, option_map, option_to_list};
ghost use Rattle.ckpt_stream.specs.Planning.{SameEdits};
ghost use Rattle.row_map.specs.Row.{row_view};
ghost use Rattle.ckpt_stream.specs.Edits.{bytes_kept, len_if_any};

use row_map::{ROW_HEAD, Row};
use seg_core::encoded_len;

/// The edits that turn the records before into the records after commands, and the rows that they
/// put.
#[derive(Drop)]
pub struct Plan {
    pub edits: Vec<Edit>,
    /// For each key that the commands name, in the order of the keys: the row that they leave under
    /// it. A row shares its segment.
    pub rows: Vec<Option<Row>>,
    /// The number of bytes of the records after. A greater number is given as 2^64 - 1.
    pub size: u64,
    /// The number of rows after. A greater number is given as 2^64 - 1.
    pub count: u64,
}

/// One edit of the records of rows. Edits are applied in their order, and go over the records from
/// the first byte on.
#[derive(Clone, Copy, Debug, PartialEq, Eq)]
pub enum Edit {
    /// The next bytes are kept: this number of them.
    Keep(u32),
    /// The next bytes are left out: this number of them.
    Pass(u32),
    /// The record of the row that is left under the next key is written here, where there is one.
    Put,
}

const _: () = prove!(size_of::<Edit>() == 8);

impl Edit {
    /// Two edits of bytes as one, where they are of one kind and all their bytes are fewer than
    /// 2^32.
    pub(crate) fn joined(self, next: Edit) -> Option<Edit>
        ensures { ForSome result (λ both. SameEdits (self ∷ next ∷ []) (both ∷ [])) }
    {
        match (self, next) {
            (Edit::Keep(count), Edit::Keep(more)) => Some(Edit::Keep(count.checked_add(more)?)),
            (Edit::Pass(count), Edit::Pass(more)) => Some(Edit::Pass(count.checked_add(more)?)),
            _ => None,
        }
    }
}

/// The number of bytes that edits keep. A number above 2^64 - 1 is given as 2^64 - 1.
pub(crate) fn kept_bytes(edits: &[Edit]) -> u64
    ensures { result ≡ min (bytes_kept edits.now) (2 ^ 64 - 1) }
{
    let mut size: u64 = 0;
    for edit in edits {
        if let Edit::Keep(count) = edit {
            size = size.saturating_add(u64::from(*count));
        }
    }
    size
}

/// The number of bytes of the record of a row, 0 where there is no row.
pub(crate) fn record_len(row: &Option<Row>) -> u64
    ensures { result ≡ len_if_any (option_map row_view row.now) }
{
    match row {
        Some(row) => (ROW_HEAD + encoded_len(&row.segment)) as u64,
        None => 0,
    }
}

/// One where there is a row, and 0 where there is none.
pub(crate) fn one_if_any(row: &Option<Row>) -> u64
    ensures { result ≡ length (option_to_list (option_map row_view row.now)) }
{
    match row {
        Some(_) => 1,
        None => 0,
    }
}
