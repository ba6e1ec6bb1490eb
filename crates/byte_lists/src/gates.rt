//! Gates: sectors whose first byte is 0xA7 when the gate is open. A closed gate is written as
//! zeros.

ghost use Rattle.std.specs.Prelude.{◌≡◌, ◌↔◌, ◌++◌, length, IsTrue};
ghost use Rattle.byte_lists.specs.Sectors as laws;

use crate::format::{OPEN, SECTOR};

/// Whether this sector is an open gate. The first byte alone decides.
pub fn is_open(sector: &[u8]) -> bool
    ensures { IsTrue result ↔ laws.IsOpenGate sector.now }
{
    sector.first() == Some(&OPEN)
}

/// The bytes of an open gate: 0xA7, and 511 zeros.
pub fn open_gate() -> [u8; 512]
    ensures { result ≡ laws.open_gate }
{
    let mut gate = [0; SECTOR];
    gate[0] = OPEN;
    gate
}

/// The bytes of a closed gate: 512 zeros.
pub fn closed_gate() -> [u8; 512]
    ensures { result ≡ laws.closed_gate }
{
    [0; SECTOR]
}

/// The bytes of two closed gates, one after the other: 1,024 zeros.
pub fn closed_gates() -> [u8; 1024]
    ensures same { result ≡ laws.closed_gate ++ laws.closed_gate }
    ensures size { length result ≡ 1024 }
{
    [0; 2 * SECTOR]
}
