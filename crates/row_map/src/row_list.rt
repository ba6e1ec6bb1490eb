//! An iterator over the rows of a database.

ghost use Rattle.std.specs.Prelude.{◌≡◌, length};
ghost use Rattle.std.specs.Iterator.{YieldsFirstBy, at_most};
ghost use Rattle.row_map.specs.Row.{row_view, row_views};

use crate::row::Row;
use crate::row_key::RowKey;
use std::collections::btree_map::Values;
use std::marker::Model;

/// The rows that are left, in the order of their keys.
#[derive(Drop)]
pub struct Rows<'a> {
    rows: Values<'a, RowKey, Row>,
}

impl<'a> Model for Rows<'a> {
    ghost use Rattle.std.specs.Prelude.{List};
    ghost use Rattle.row_map.specs.Database.{RowView};
    ghost use Rattle.row_map.specs.Row.{row_views};

    ghost Value = { List RowView };

    ghost view = { λ s. row_views s.rows };
}

impl<'a> Rows<'a> {
    /// An iterator over these rows.
    pub(crate) fn of(rows: Values<'a, RowKey, Row>) -> Rows<'a>
        ensures { result ≡ row_views rows.entry }
    {
        Rows { rows }
    }
}

impl<'a> Iterator for Rows<'a> {
    type Item = &'a Row;

    ghost next_gives = { YieldsFirstBy (λ row. row_view row.now) (λ s. s) };

    ghost remaining = { λ s. at_most (length s) };

    fn next(&mut self) -> Option<&'a Row> {
        self.rows.next()
    }
}
