//! The keys of rows.

ghost use Rattle.std.specs.Prelude.{◌≡◌, length};

/// The key of a row: its type's number, and its id. Keys are in the order of their bytes.
#[derive(Clone, Copy)]
pub struct RowKey {
    pub kind: u8,
    pub id: [u8; 32],
    pub ghost long: { length id ≡ 32 },
}
