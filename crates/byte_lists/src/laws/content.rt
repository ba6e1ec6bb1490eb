//! Laws on bytes and sectors. Each law is the contract of a function that does nothing, so that the
//! law is proved with the crate.

ghost use Rattle.std.specs.Prelude.{◌≡◌, ◌↔◌, ℕ, ◌+◌, ◌*◌, ◌^◌, ◌<◌, ◌≤◌, List, ◌++◌, length, IsTrue};
ghost use Rattle.std.specs.Int.{w32, w64, to_be_bytes};
ghost use Rattle.byte_lists.specs.Content.{part, AreBytes, AreOverwritten};
ghost use Rattle.byte_lists.specs.Numbers.{four_at, eight_at};
ghost use Rattle.byte_lists.specs.Sectors.{sectors_of, padded, IsLeastRoom, IsOpenGate, is_open_gate};
ghost use Rattle.byte_lists.specs.declared.format.TheConstants.{SECTOR};

/// The parts of a content after one part of the content was overwritten.
pub fn overwritten_parts()
    ensures { (at : ℕ) (bytes content : List ℕ) → at + length bytes ≤ length content → AreOverwritten at bytes content }
{}

/// A number that is encoded is read again at any offset, and bytes that are read as a number are
/// the encoding of that number.
pub fn encoded_numbers()
    ensures four { (n : ℕ) (before after : List ℕ) → n < 2 ^ 32
        → four_at (length before) (before ++ (to_be_bytes w32 n ++ after)) ≡ n }
    ensures eight { (n : ℕ) (before after : List ℕ) → n < 2 ^ 64
        → eight_at (length before) (before ++ (to_be_bytes w64 n ++ after)) ≡ n }
    ensures four_back { (at : ℕ) (bytes : List ℕ) → AreBytes bytes → at + 4 ≤ length bytes
        → to_be_bytes w32 (four_at at bytes) ≡ part at 4 bytes }
    ensures eight_back { (at : ℕ) (bytes : List ℕ) → AreBytes bytes → at + 8 ≤ length bytes
        → to_be_bytes w64 (eight_at at bytes) ≡ part at 8 bytes }
{}

/// `sectors_of` is the least number of sectors that has room for the bytes, and padded bytes fill
/// this number of sectors.
pub fn padded_sectors()
    ensures least { (n : ℕ) → IsLeastRoom n }
    ensures padded { (bytes : List ℕ) → length (padded bytes) ≡ SECTOR * sectors_of (length bytes) }
{}

/// The test of a gate is true exactly when the gate is open.
pub fn gate_test_is_exact()
    ensures { (sector : List ℕ) → IsTrue (is_open_gate sector) ↔ IsOpenGate sector }
{}
