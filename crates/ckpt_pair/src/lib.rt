//! The two halves of a store: how their heads and checkpoints are read and written, and which half
//! is chosen.
//!
//! To the layer above, each call returns what the definitions of `store_layout` give for the bytes,
//! with the rows of `path_records`, and an error exactly where they give one.
#![tactic(auto)]

mod choice;
mod encoding;
mod error;
mod format;
mod laws;
mod reading;
mod row_stream;

pub use choice::{Head, Heads, choose, openings_continue_at_the_tail, read_head, tail_half};
pub use encoding::{checkpoint_front, checkpoint_head, encode_checkpoint};
pub use error::PairError;
pub use format::{CHECKPOINT_MAGIC, COUNT_AT, SIZE_AT, area_room};
pub use laws::rows::{
    checkpoints_are_read_by_their_fronts, databases_can_be_checkpoints,
    read_checkpoints_are_databases, streams_read_halves,
};
pub use path_records::DatabaseReader;
pub use reading::{Checkpoint, Front, feed_rows_by, finish_rows, read_front, read_half};
pub use row_stream::RowStream;
