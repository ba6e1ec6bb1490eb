//! Tests of checkpoints that are made while they are written, over areas of several pieces. They
//! check what no clause states: that calls succeed, the bytes as `ckpt_pair` makes them of the rows
//! at once, pieces that are prepared, calls that fail, refused memory, and a device that answers a
//! read wrongly.

mod commands;
mod failures;
mod large_rows;
mod lies;
mod prepared;
mod refused;
mod rounds;
mod sealed;
mod sparse;
mod streamed;
mod watched;
