//! Lists of bytes as a device of 512-byte sectors holds them: parts, big-endian numbers, padding
//! and gates.
//!
//! To the layers above: the definitions by which the contracts of devices, journals and checkpoints
//! describe bytes, and the few calls that read or write such bytes. The lemmas of `proofs/` are for
//! these layers.
#![tactic(auto)]

mod editing;
mod format;
mod gates;
mod laws;
mod numbers;
mod sectors;

pub use editing::{drop_front, put};
pub use format::{OPEN, SECTOR};
pub use gates::{closed_gate, closed_gates, is_open, open_gate};
pub use laws::content::{encoded_numbers, gate_test_is_exact, overwritten_parts, padded_sectors};
pub use numbers::{read_u32, read_u64};
pub use sectors::{pad, sector_count};
