//! Tests of steps of `group_core` that are refused: for want of memory, with a value of another
//! state, and while a value is out.

mod refused;
mod strangers;
