//! Fields and varints of the wire format.

use crate::checks::{assert_bytes, done};
use crate::host::Host;
use pw_wire::{
    Field, Value, WireError, all_fields, encoded_fields, encoded_varint, field_or_fault,
    next_field, put_bytes_field, put_varint, put_varint_field,
};
use std::alloc::Global;
use std::test::Fail;
use test_support::{TestHost, assert_same};

const LARGEST: [u8; 10] = [255, 255, 255, 255, 255, 255, 255, 255, 255, 1];

const TOO_LARGE: [u8; 10] = [255, 255, 255, 255, 255, 255, 255, 255, 255, 2];

const GOES_ON: [u8; 11] = [128, 128, 128, 128, 128, 128, 128, 128, 128, 128, 0];

/// The varint after a tag of one byte, and how many bytes it takes.
fn varint_behind(message: &[u8]) -> Result<(u64, usize), WireError> {
    match next_field(message)? {
        Some(
            (
                Field {
                    number: _,
                    value: Value::Varint(n),
                },
                len,
            ),
        ) => Ok((n, len - 1)),
        _ => Err(WireError::BadWire),
    }
}

/// Varints, and the result of reading each.
const VARINTS: [(&[u8], Result<(u64, usize), WireError>); 6] = [
    (&[0], Ok((0, 1))),
    (&[0x80, 0], Ok((0, 2))),
    (&[0x96, 1, 7], Ok((150, 2))),
    (&LARGEST, Ok((u64::MAX, 10))),
    (&GOES_ON, Err(WireError::LongVarint)),
    (&[128; 9], Err(WireError::Truncated)),
];

/// A field of a varint.
fn varint_field(alloc: Global, varint: &[u8]) -> Result<Vec<u8>, Fail> {
    let mut message = Vec::from_slice(alloc, &[0x08])?;
    message.extend_from_slice(varint)?;
    Ok(message)
}

#[test]
fn varint_encodings(rt: HostRuntime) -> Result<(), Fail> {
    let host = Host(&rt);
    for (varint, expected) in &VARINTS {
        let message = varint_field(rt.alloc(), varint)?;
        assert_same(&host, &varint_behind(&message), expected, varint);
    }
    Ok(())
}

/// A message, the number and the value of its first field, and how many bytes that has.
#[derive(Clone, Copy)]
struct First {
    message: &'static [u8],
    number: u32,
    value: Value<'static>,
    len: usize,
}

/// The example fields of protobuf's page on its encoding, each with a byte after it.
#[rattlefmt::skip]
const FIELDS: [First; 4] = [
    First { message: &[0x08, 0x96, 1, 9], number: 1, value: Value::Varint(150), len: 3 },
    First { message: b"\x12\x07testing.", number: 2, value: Value::Bytes(b"testing"), len: 9 },
    First {
        message: &[0x19, 1, 2, 3, 4, 5, 6, 7, 8, 9],
        number: 3,
        value: Value::Fixed64(0x0807060504030201),
        len: 9,
    },
    First { message: &[0x25, 1, 2, 3, 4, 9], number: 4, value: Value::Fixed32(0x04030201), len: 5 },
];

/// Checks what a message's next field is.
fn assert_field(
    rt: &impl TestHost,
    message: &[u8],
    wanted: Result<Option<(Field<'_>, usize)>, WireError>,
) {
    assert_same(rt, &next_field(message), &wanted, &message);
}

#[test]
fn fields_of_each_wire_type(rt: HostRuntime) {
    let host = Host(&rt);
    for row in &FIELDS {
        let field = Field {
            number: row.number,
            value: row.value,
        };
        assert_field(&host, row.message, Ok(Some((field, row.len))));
    }
}

/// Messages, and the faults of their first fields.
const FAULTS: [(&[u8], WireError); 5] = [
    (&[0x0a], WireError::Truncated),
    (&TOO_LARGE, WireError::LongVarint),
    (&[0], WireError::BadField),
    (&[0x0b], WireError::GroupWire),
    (&[0x0e], WireError::BadWire),
];

#[test]
fn wire_faults(rt: HostRuntime) {
    let host = Host(&rt);
    for (message, error) in &FAULTS {
        assert_field(&host, message, Err(*error));
    }
    assert_field(&host, &[], Ok(None));
}

/// Two varints, and two fields between them.
fn put_all(alloc: Global) -> Result<Vec<u8>, Fail> {
    let mut put = Vec::new(alloc);
    put_varint(&mut put, 150)?;
    put_varint_field(&mut put, 1, 150)?;
    put_bytes_field(&mut put, 2, b"testing")?;
    put_varint(&mut put, u64::MAX)?;
    Ok(put)
}

/// The bytes of these fields.
fn all_put(alloc: Global) -> Result<Vec<u8>, Fail> {
    let mut expected = Vec::from_slice(alloc, &[0x96, 1, 0x08, 0x96, 1])?;
    expected.extend_from_slice(b"\x12\x07testing")?;
    expected.extend_from_slice(&LARGEST)?;
    Ok(expected)
}

#[test]
fn encodings_that_are_put(rt: HostRuntime) {
    let host = Host(&rt);
    let put = done(&rt, put_all(rt.alloc()));
    let expected = done(&rt, all_put(rt.alloc()));
    assert_bytes(&host, &put, &expected, "what is put");
}

// Run with each allocation failing in turn: a put that is refused adds nothing, and succeeds when
// it is tried again.
#[test]
fn refused_memory_changes_nothing(rt: HostRuntime) -> Result<(), Fail> {
    let host = Host(&rt);
    let mut out = Vec::new(rt.alloc());
    if put_varint(&mut out, 150).is_err() {
        assert_bytes(&host, &out, &[], "a varint is refused");
        put_varint(&mut out, 150)?;
    }
    assert_bytes(&host, &out, &[0x96, 1], "a varint");
    if put_varint_field(&mut out, 1, 150).is_err() {
        assert_bytes(&host, &out, &[0x96, 1], "a field is refused");
        put_varint_field(&mut out, 1, 150)?;
    }
    assert_bytes(&host, &out, &[0x96, 1, 0x08, 0x96, 1], "a field");
    if put_bytes_field(&mut out, 2, b"testing").is_err() {
        assert_bytes(&host, &out, &[0x96, 1, 0x08, 0x96, 1], "bytes are refused");
        put_bytes_field(&mut out, 2, b"testing")?;
    }
    let whole = b"\x96\x01\x08\x96\x01\x12\x07testing";
    assert_bytes(&host, &out, whole, "a field of bytes");
    Ok(())
}

#[test]
fn text_of_a_fault(rt: HostRuntime) -> Result<(), Fail> {
    let text = format!(in rt.alloc(); "{}", WireError::GroupWire)?;
    assert_eq!(rt; text.as_str(), "a field is a group");
    Ok(())
}

// The laws are functions that do nothing.
#[test]
fn laws_return(_rt: HostRuntime) {
    field_or_fault();
    all_fields();
    encoded_varint();
    encoded_fields();
}
