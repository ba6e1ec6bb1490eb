//! Tests of sessions over a store in memory, as `once` answers them: sessions that come in pieces,
//! readers and writers that fail, refused memory, a store that is full and one whose journal is
//! sealed. Single messages, with their replies, are lines of `test_program`.

mod digits;
mod frames;
mod full_store;
mod many_commands;
mod refused_memory;
mod sessions;
mod streams;
mod worked;
