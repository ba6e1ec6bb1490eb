//! Overwriting a part of bytes, and dropping the first ones.

ghost use Rattle.std.specs.Prelude.{◌≡◌, ◌+◌, ◌≤◌, ◌++◌, length, take, drop};
ghost use Rattle.byte_lists.specs.Content.{overwrite};

/// Overwrites the bytes from an offset on with a part. The offset counts bytes; all other bytes are
/// unchanged.
pub fn put(bytes: &mut [u8], at: usize, part: &[u8])
    requires { at + length part.now ≤ length bytes.old }
    ensures put { bytes.new ≡ overwrite at part.now bytes.old }
    ensures front { take (at + length part.now) bytes.new ≡ take at bytes.old ++ part.now }
    ensures size { length bytes.new ≡ length bytes.old }
{
    bytes[at..at + part.len()].copy_from_slice(part);
}

/// Drops this number of bytes at the front; the bytes after them move to the front.
pub fn drop_front(bytes: &mut Vec<u8>, count: usize)
    requires { count ≤ length bytes.old.items }
    ensures { bytes.new.items ≡ drop count bytes.old.items }
{
    let rest = bytes.len() - count;
    bytes.copy_within(count.., 0);
    bytes.truncate(rest);
}
