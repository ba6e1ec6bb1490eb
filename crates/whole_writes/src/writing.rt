//! The loop that writes all of some bytes to a writer.

ghost use Rattle.std.specs.Prelude.{◌≤◌, [], length, take, OnOk, OnErr, IfOk};
ghost use Rattle.std.specs.Io.KnownBytes.{Appends};
ghost use Rattle.whole_writes.specs.Written.{IsWrittenInPart};

use std::io::Write;

/// A write failed, or took no byte.
pub struct WriteFailed;

/// Writes all of the bytes. A write that takes no byte is a failure, and no failed write is
/// repeated. After an error a front of the bytes, perhaps of no byte, is written.
pub fn write_all<W: Write>(writer: &mut W, bytes: &[u8]) -> Result<(), WriteFailed>
    ensures ok { OnOk result (Appends (W.contents writer.old) (W.contents writer.new) bytes.now) }
    ensures err { OnErr result (IsWrittenInPart (W.contents writer.old) (W.contents writer.new) bytes.now) }
{
    let mut rest = bytes;
    while !rest.is_empty() {
        let count = write_some(writer, rest)?;
        rest = rest.split_at(count).1;
    }
    Ok(())
}

/// Writes a front of the bytes, of at least one byte, and returns the length of that front.
fn write_some<W: Write>(writer: &mut W, bytes: &[u8]) -> Result<usize, WriteFailed>
    ensures ok { IfOk result (λ n. Appends (W.contents writer.old) (W.contents writer.new) (take n bytes.now)) }
    ensures some { IfOk result (λ n. 1 ≤ n) }
    ensures within { IfOk result (λ n. n ≤ length bytes.now) }
    ensures nothing { OnErr result (Appends (W.contents writer.old) (W.contents writer.new) []) }
{
    match writer.write(bytes) {
        Ok(0) | Err(_) => Err(WriteFailed),
        Ok(count) => Ok(count),
    }
}
