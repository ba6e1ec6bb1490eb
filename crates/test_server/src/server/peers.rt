//! Peers of a server.

use crate::server::checks::assert_same;
use crate::server::worlds::Outside;
use std::alloc::Global;
use std::io;
use std::io::{ErrorKind, Read, Write};
use std::net::{Shutdown, SocketAddr, TcpStream};
use std::process::Abort;
use std::time::Duration;

/// How long a peer waits for the server, in seconds.
const PATIENCE: u64 = 20;

/// How often a peer asks for a seat.
const MOST_ASKED: u64 = 100_000;

/// The request of no segments, and the reply to it: a destination that is no AS.
pub(crate) const EMPTY_LOOKUP: &str = "0000000102";

pub(crate) const NO_DESTINATION: &str = "00000002ff41";

/// The bytes of a hexadecimal text.
pub(crate) fn bytes_of(alloc: Global, text: &str) -> io::Result<Vec<u8>> {
    hex::decode(alloc, text.as_bytes()).map_err(|_| io::Error::from(ErrorKind::InvalidInput))
}

/// One end of a connection to a server.
#[derive(Drop)]
pub(crate) struct Peer {
    alloc: Global,
    stream: TcpStream,
}

impl Peer {
    /// Connects to a server.
    pub(crate) fn connect<R: Outside>(rt: R, alloc: Global, to: SocketAddr) -> io::Result<Peer> {
        let stream = TcpStream::connect(&rt, to)?;
        stream.set_read_timeout(Some(Duration::from_secs(PATIENCE)))?;
        stream.set_nodelay(true)?;
        Ok(Peer { alloc, stream })
    }

    /// Sends the bytes of a hexadecimal text.
    pub(crate) fn send(&mut self, text: &str) -> io::Result<()> {
        let bytes = bytes_of(self.alloc, text)?;
        self.stream.write_all(bytes.as_slice())
    }

    /// Bounds the time that a write waits for the server.
    pub(crate) fn limit_writes(&mut self, time: Duration) -> io::Result<()> {
        self.stream.set_write_timeout(Some(time))
    }

    /// Sends the bytes of a hexadecimal text, each by itself.
    pub(crate) fn send_slowly(&mut self, text: &str) -> io::Result<()> {
        let bytes = bytes_of(self.alloc, text)?;
        for byte in &bytes {
            self.stream.write_all(&[*byte])?;
        }
        Ok(())
    }

    /// Receives as many bytes as are wanted: whether they are these.
    fn receives_bytes(&mut self, bytes: &mut [u8], wanted: &[u8]) -> io::Result<bool> {
        self.stream.read_exact(bytes)?;
        Ok(*bytes == *wanted)
    }

    /// Receives as many bytes as this hexadecimal text encodes: whether they are these.
    pub(crate) fn receives(&mut self, text: &str) -> io::Result<bool> {
        let wanted = bytes_of(self.alloc, text)?;
        let mut bytes = bytes_of(self.alloc, text)?;
        self.receives_bytes(bytes.as_mut_slice(), wanted.as_slice())
    }

    /// Sends a request, and receives the reply: whether it is this one.
    pub(crate) fn asks(&mut self, request: &str, reply: &str) -> io::Result<bool> {
        self.send(request)?;
        self.receives(reply)
    }

    /// Sends no more.
    pub(crate) fn end_side(&mut self) -> io::Result<()> {
        self.stream.shutdown(Shutdown::Write)
    }

    /// Sends no more, and receives all until the server ends the connection, as hexadecimal text.
    pub(crate) fn end(mut self) -> io::Result<String> {
        self.end_side()?;
        self.receive()
    }

    /// Receives all until the server ends the connection, as hexadecimal text.
    pub(crate) fn receive(mut self) -> io::Result<String> {
        received(self.alloc, &mut self.stream)
    }
}

/// All that is received, as hexadecimal text.
fn received(alloc: Global, stream: &mut TcpStream) -> io::Result<String> {
    let mut bytes = Vec::new(alloc);
    stream.read_to_end(&mut bytes)?;
    Ok(hex::encode(alloc, bytes.as_slice())?)
}

/// Has a session of its own: what a server replies to all of this.
pub(crate) fn replies<R: Outside>(
    rt: R,
    alloc: Global,
    to: SocketAddr,
    requests: &str,
) -> io::Result<String> {
    let mut peer = Peer::connect(rt, alloc, to)?;
    peer.send(requests)?;
    peer.end()
}

/// Has two sessions, one after the other: what a server replies to each.
fn two_replies<R: Outside>(
    rt: R,
    alloc: Global,
    to: SocketAddr,
    one: &str,
    other: &str,
) -> io::Result<(String, String)> {
    let first = replies(rt, alloc, to, one)?;
    let second = replies(rt, alloc, to, other)?;
    Ok((first, second))
}

/// Has four sessions, one after the other: what a server replies to each.
pub(crate) fn four_replies<R: Outside>(
    rt: R,
    alloc: Global,
    to: SocketAddr,
    requests: [&str; 4],
) -> io::Result<[String; 4]> {
    let (first, second) = two_replies(rt, alloc, to, requests[0], requests[1])?;
    let (third, fourth) = two_replies(rt, alloc, to, requests[2], requests[3])?;
    Ok([first, second, third, fourth])
}

/// Sees that sessions were replied this, each by its number.
pub(crate) fn assert_replies(rt: &impl Abort, seen: &[String; 4], wanted: &[&str; 4]) {
    for (number, (replies, wanted)) in seen.iter().zip(wanted).enumerate() {
        assert_same(rt, &replies.as_str(), wanted, &number);
    }
}

/// Asks in a session of its own: whether the reply is this one.
pub(crate) fn is_replied<R: Outside>(
    rt: R,
    alloc: Global,
    to: SocketAddr,
    request: &str,
    reply: &str,
) -> io::Result<bool> {
    Peer::connect(rt, alloc, to)?.asks(request, reply)
}

/// Whether an empty lookup in a session of its own is answered.
pub(crate) fn has_session<R: Outside>(rt: R, alloc: Global, to: SocketAddr) -> io::Result<bool> {
    is_replied(rt, alloc, to, EMPTY_LOOKUP, NO_DESTINATION)
}

/// What a peer is sent that sends nothing itself, until the server ends the connection.
pub(crate) fn unasked<R: Outside>(rt: R, alloc: Global, to: SocketAddr) -> io::Result<String> {
    Peer::connect(rt, alloc, to)?.receive()
}

/// A peer that has asked for a seat, and whether it has one.
fn asking<R: Outside>(rt: R, alloc: Global, to: SocketAddr) -> io::Result<(Peer, bool)> {
    let mut peer = Peer::connect(rt, alloc, to)?;
    let is_seated = peer.asks(EMPTY_LOOKUP, NO_DESTINATION).unwrap_or(false);
    Ok((peer, is_seated))
}

/// A peer that has a seat. An earlier session may not have left its own yet, so the peer asks
/// again.
pub(crate) fn seated<R: Outside>(rt: R, alloc: Global, to: SocketAddr) -> io::Result<Peer> {
    for _ in 0..MOST_ASKED {
        let (peer, is_seated) = asking(rt, alloc, to)?;
        if is_seated {
            return Ok(peer);
        }
    }
    Err(io::Error::from(ErrorKind::TimedOut))
}
