//! Ids of segments, and the digest that they are. The values are from Python's hashlib, and from
//! FIPS 180-4's examples.

use crate::host::Host;
use crate::messages::checked::{PEERED, SEGMENT};
use seg_check::seg_id;
use seg_core::read_segment;
use sha2::{Digest, Sha256};
use std::test::Fail;
use test_support::{ID, assert_same, leaving_by};

// The id depends on the path alone: it is the same with another time and with other peers, and not
// with another egress.
#[test]
fn ids_tell_the_path(rt: HostRuntime) {
    let host = Host(&rt);
    let id = hex::encode(rt.alloc(), &ID).expect(&rt, "a text");
    let same = id.as_str();
    let other = "be3e32a19b42c4f9e0860ee2ace91013c58b8e188f2144964d172f4b549092a7";
    let mut later = SEGMENT;
    later[3] += 1;
    let cases: [(&[u8], &str); 4] = [
        (&SEGMENT, same),
        (&later, same),
        (&PEERED, same),
        (&leaving_by(3), other),
    ];
    for (message, id) in cases {
        let segment = read_segment(rt.alloc(), message).expect(&rt, "a segment");
        let found = hex::encode(rt.alloc(), &seg_id(&segment)).expect(&rt, "a text");
        assert_same(&host, &found.as_str(), &id, &message);
    }
}

#[test]
fn fips_180_4_examples(rt: HostRuntime) -> Result<(), Fail> {
    let host = Host(&rt);
    let long =
        "abcdefghbcdefghicdefghijdefghijkefghijklfghijklmghijklmnhijklmnoijklmnopjklmnopqklmnopqrlmnopqrsmnopqrstnopqrstu";
    for (message, digest) in [
        (
            "",
            "e3b0c44298fc1c149afbf4c8996fb92427ae41e4649b934ca495991b7852b855",
        ),
        (
            "abc",
            "ba7816bf8f01cfea414140de5dae2223b00361a396177a9cb410ff61f20015ad",
        ),
        (
            "abcdbcdecdefdefgefghfghighijhijkijkljklmklmnlmnomnopnopq",
            "248d6a61d20638b8e5c026930c3e6039a33ce45964ff2167f6ecedd419db06c1",
        ),
        (
            long,
            "cf5b16a778af8380036ce59e7b0492370b249b11e8f07a51afac45037afee9d1",
        ),
    ] {
        let mut hasher = Sha256::new();
        hasher.update(message);
        let found = hex::encode(rt.alloc(), &hasher.finalize())?;
        assert_same(&host, &found.as_str(), &digest, &message);
    }
    Ok(())
}

// A million times the letter a, in pieces of 12 bytes and a last one of 4.
#[test]
fn fips_180_4_long_example(rt: HostRuntime) -> Result<(), Fail> {
    let mut hasher = Sha256::new();
    for _ in 0..83_333 {
        hasher.update(b"aaaaaaaaaaaa");
    }
    hasher.update(b"aaaa");
    let found = hex::encode(rt.alloc(), &hasher.finalize())?;
    assert_eq!(rt;
        found.as_str(),
        "cdc76e5c9914fb9281a1c7e284d73e67f1809a48a497200e046d39ccc7112cd0"
    );
    Ok(())
}
