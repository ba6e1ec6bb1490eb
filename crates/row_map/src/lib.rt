//! Rows by their keys, a type and an id, and puts, removals and purges of rows.
//!
//! To the layer above, a `RowMap` has the rows that the definitions give after a put and after a
//! removal, and returns the rows of a type and those after an id. It keeps lower bounds of the
//! moments at which its rows expire: by these `PurgeWalk` finds the next row that a purge drops. An
//! `EndIndex` has the rows by the ISD-AS at one of their ends, or by the ISDs at both: `keys_at`
//! returns those of one type and one ISD-AS by rising id, `keys_after` those of them whose ids are
//! above a given one, and `keys_between` those of one type and a range of ISD-AS. None visits
//! others. `end_keys.rt` keeps an index in step with a map.
#![tactic(auto)]

mod bucket_walk;
mod change;
mod end;
mod end_keys;
mod expiry_bounds;
mod format;
mod index;
mod index_row;
mod key_order;
mod purge_walk;
mod row;
mod row_key;
mod row_list;
mod row_map;
mod row_puts;
mod row_range;
mod type_counts;

pub use bucket_walk::BucketWalk;
pub use change::Change;
pub use end::{By, End};
pub use end_keys::{add_all, index_of, index_row_of, isds_number, sweep, take_out, touched_rows};
pub use expiry_bounds::BUCKETS;
pub use format::{MOST_ROW_BYTES, ROW_HEAD, type_byte};
pub use index::{EndIndex, IndexKeys};
pub use index_row::IndexRow;
pub use purge_walk::PurgeWalk;
pub use row::Row;
pub use row_key::RowKey;
pub use row_list::Rows;
pub use row_map::{RowMap, map_of};
pub use row_puts::{Saved, put_row, restore, rows_of, saved_rows};
pub use row_range::RowRange;
