//! An iterator over a range of the rows of a database.

ghost use Rattle.std.specs.Prelude.{◌≡◌, length};
ghost use Rattle.std.specs.Iterator.{YieldsFirstBy, at_most};
ghost use Rattle.row_map.specs.Row.{row_view};
ghost use Rattle.row_map.specs.RowMap.{views_of};

use crate::row::Row;
use crate::row_key::RowKey;
use std::collections::btree_map::Range;
use std::marker::Model;

/// The rows that are left of a range of keys, in the order of their keys.
#[derive(Drop)]
pub struct RowRange<'a> {
    rows: Range<'a, RowKey, Row>,
}

impl<'a> Model for RowRange<'a> {
    ghost use Rattle.std.specs.Prelude.{List};
    ghost use Rattle.row_map.specs.Database.{RowView};
    ghost use Rattle.row_map.specs.RowMap.{views_of};

    ghost Value = { List RowView };

    ghost view = { λ s. views_of s.rows };
}

impl<'a> RowRange<'a> {
    /// An iterator over these rows.
    pub(crate) fn of(rows: Range<'a, RowKey, Row>) -> RowRange<'a>
        ensures { result ≡ views_of rows.entry }
    {
        RowRange { rows }
    }
}

impl<'a> Iterator for RowRange<'a> {
    type Item = &'a Row;

    ghost next_gives = { YieldsFirstBy (λ row. row_view row.now) (λ s. s) };

    ghost remaining = { λ s. at_most (length s) };

    fn next(&mut self) -> Option<&'a Row> {
        match self.rows.next() {
            Some((_, row)) => Some(row),
            None => None,
        }
    }
}
