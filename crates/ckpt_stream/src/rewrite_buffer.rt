//! The buffer of a rewrite: bytes are appended to those in use, and taken from their front.

ghost use Rattle.std.specs.Prelude.{◌≡◌, ◌+◌, ◌-◌, ◌≤◌, ◌++◌, length, take, drop};
ghost use Rattle.std.specs.Option.{option_map};
ghost use Rattle.row_map.specs.Row.{row_view};
ghost use Rattle.ckpt_stream.specs.Edits.{record_if_any};

use byte_lists::put;
use path_records::row_head;
use row_map::{ROW_HEAD, Row};

/// Appends the record of a row, where there is one, and returns the number of bytes that are in use
/// then.
pub(crate) fn put_if_any(buffer: &mut [u8], used: usize, row: &Option<Row>) -> usize
    requires { used + 16389 ≤ length buffer.old }
    ensures put { take result buffer.new ≡ take used buffer.old ++ record_if_any (option_map row_view row.now) }
    ensures buffer { length buffer.new ≡ length buffer.old }
    ensures inside { result ≤ used + 16389 }
{
    match row {
        Some(row) => {
            let encoding = row.segment.encoding();
            put(buffer, used, &row_head(row.kind, &row.segment));
            put(buffer, used + ROW_HEAD, encoding);
            used + ROW_HEAD + encoding.len()
        }
        None => used,
    }
}

/// Appends bytes of a window, and returns the number of bytes that are in use then.
pub(crate) fn put_part(
    buffer: &mut [u8],
    used: usize,
    window: &[u8],
    start: usize,
    count: usize,
) -> usize
    requires room { used + count ≤ length buffer.old }
    requires inside { start + count ≤ length window.now }
    ensures put { take result buffer.new ≡ take used buffer.old ++ take count (drop start window.now) }
    ensures buffer { length buffer.new ≡ length buffer.old }
    ensures used { result ≡ used + count }
{
    put(buffer, used, &window[start..start + count]);
    used + count
}

/// Removes bytes from the front, moves the others in use there, and returns the number of bytes
/// that are in use then.
pub(crate) fn cut_front(buffer: &mut [u8], used: usize, count: usize) -> usize
    requires used { used ≤ length buffer.old }
    requires count { count ≤ used }
    ensures left { take result buffer.new ≡ drop count (take used buffer.old) }
    ensures buffer { length buffer.new ≡ length buffer.old }
    ensures used { result ≡ used - count }
{
    buffer.copy_within(count..used, 0);
    used - count
}
