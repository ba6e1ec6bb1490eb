//! What bytes ask for.

use crate::checks::assert_same;
use status_page::{Asked, read_head};

const REQUESTS: &[(&str, Asked)] = &[
    ("GET /metrics HTTP/1.1\r\nHost: a\r\n\r\n", Asked::Page),
    ("GET /metrics HTTP/1.0\r\n\r\n", Asked::Page),
    ("GET /metrics HTTP/1.1\n\n", Asked::Page),
    ("GET /healthz HTTP/1.1\r\nHost: a\r\n\r\n", Asked::Health),
    ("GET /healthz HTTP/1.0\r\n\r\n", Asked::Health),
    ("HEAD /healthz HTTP/1.1\r\n\r\n", Asked::OtherMethod),
    ("GET /health HTTP/1.1\r\n\r\n", Asked::OtherPath),
    ("GET / HTTP/1.1\r\nHost: a\r\n\r\n", Asked::Plots),
    ("GET / HTTP/1.0\r\n\r\n", Asked::Plots),
    ("HEAD / HTTP/1.1\r\n\r\n", Asked::OtherMethod),
    ("GET // HTTP/1.1\r\n\r\n", Asked::OtherPath),
    ("GET /? HTTP/1.1\r\n\r\n", Asked::OtherPath),
    ("GET /livez HTTP/1.1\r\n\r\n", Asked::Alive),
    ("POST /livez HTTP/1.1\r\n\r\n", Asked::OtherMethod),
    ("GET /livez/ HTTP/1.1\r\n\r\n", Asked::OtherPath),
    ("GET /readyz HTTP/1.1\r\n\r\n", Asked::Ready),
    ("HEAD /readyz HTTP/1.1\r\n\r\n", Asked::OtherMethod),
    ("GET /Readyz HTTP/1.1\r\n\r\n", Asked::OtherPath),
    ("GET /metrics/ HTTP/1.1\r\n\r\n", Asked::OtherPath),
    ("GET /metrics?a HTTP/1.1\r\n\r\n", Asked::OtherPath),
    ("POST / HTTP/1.1\r\n\r\n", Asked::OtherMethod),
    ("POST /metrics HTTP/1.1\r\n\r\n", Asked::OtherMethod),
    ("get /metrics HTTP/1.1\r\n\r\n", Asked::OtherMethod),
    ("", Asked::More),
    ("GET /metrics HTTP/1.1\r\nHost: a\r\n", Asked::More),
    ("GET /metrics HTTP/2.0\r\n\r\n", Asked::Unreadable),
    ("GET /metrics HTTP/1.1\r\n: a\r\n\r\n", Asked::Unreadable),
];

/// These requests. The prover writes a constant out where it is named, so no loop names it.
fn requests() -> &'static [(&'static str, Asked)] {
    REQUESTS
}

#[test]
fn requests_are_read(rt: HostRuntime) {
    for (bytes, wanted) in requests() {
        assert_same(&rt, &read_head(bytes.as_bytes()), wanted, bytes);
    }
}
