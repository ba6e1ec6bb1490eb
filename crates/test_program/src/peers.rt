//! The peers of a server.

use crate::given::Bound;
use crate::parts::Peers;
use std::alloc::Global;
use std::io;
use std::io::{ErrorKind, Read, Write};
use std::net::{Net, Shutdown, SocketAddr, TcpListener, TcpStream};

/// What follows the replies of a session.
const END: &str = "; the session has ended\n";

/// How often a peer asks for a place, since an earlier session may not have left its own yet.
const MOST_ASKED: u64 = 1_000_000;

/// An empty lookup.
const EMPTY_LOOKUP: [u8; 5] = [0, 0, 0, 1, 2];

/// The last byte of the reply to an empty lookup.
const NO_DESTINATION: u8 = 0x41;

/// Meets a server: what each session was replied, a line each. Where one fails, nobody waits for
/// the others.
pub(crate) fn meet<R: Net<Listener = TcpListener, Stream = TcpStream>>(
    rt: &R,
    alloc: Global,
    bound: &Bound,
    peers: &Peers,
) -> io::Result<String> {
    let met = replies_of(rt, alloc, bound.address, peers);
    if met.is_err() {
        bound.shut();
    }
    met
}

/// What the sessions that were held one after the other were replied, the one that came while the
/// others were open, and those of silent peers.
fn replies_of<R: Net<Listener = TcpListener, Stream = TcpStream>>(
    rt: &R,
    alloc: Global,
    to: SocketAddr,
    peers: &Peers,
) -> io::Result<String> {
    let mut all = String::new(alloc);
    for requests in peers.sessions {
        let replies = ask(rt, alloc, to, requests)?;
        all.push_str(replies.as_str())?;
        all.push_str(END)?;
    }
    if peers.together != 0 {
        let replies = turned_away(rt, alloc, to, peers.together)?;
        all.push_str(replies.as_str())?;
        all.push_str(END)?;
        drop(with_a_place(rt, to)?);
    }
    for _ in 0..peers.silent {
        let mut stream = TcpStream::connect(rt, to)?;
        all.push_str(received(alloc, &mut stream)?.as_str())?;
        all.push_str(END)?;
    }
    Ok(all)
}

/// Asks in a session of its own: what the server replies until it has ended the session, as
/// hexadecimal text.
fn ask<R: Net<Listener = TcpListener, Stream = TcpStream>>(
    rt: &R,
    alloc: Global,
    to: SocketAddr,
    requests: &str,
) -> io::Result<String> {
    let mut stream = TcpStream::connect(rt, to)?;
    let Ok(bytes) = hex::decode(alloc, requests.as_bytes()) else {
        return Err(io::Error::from(ErrorKind::InvalidInput));
    };
    stream.write_all(bytes.as_slice())?;
    stream.shutdown(Shutdown::Write)?;
    received(alloc, &mut stream)
}

/// What a peer is replied that sends nothing, while this number of sessions is open.
fn turned_away<R: Net<Listener = TcpListener, Stream = TcpStream>>(
    rt: &R,
    alloc: Global,
    to: SocketAddr,
    open: usize,
) -> io::Result<String> {
    let mut peers = Vec::new(alloc);
    for _ in 0..open {
        peers.push(with_a_place(rt, to)?)?;
    }
    let mut stream = TcpStream::connect(rt, to)?;
    received(alloc, &mut stream)
}

/// All that is received until the server closes the connection, as hexadecimal text.
fn received(alloc: Global, stream: &mut TcpStream) -> io::Result<String> {
    let mut bytes = Vec::new(alloc);
    stream.read_to_end(&mut bytes)?;
    Ok(hex::encode(alloc, bytes.as_slice())?)
}

/// A peer that has a session, and keeps it open.
fn with_a_place<R: Net<Listener = TcpListener, Stream = TcpStream>>(
    rt: &R,
    to: SocketAddr,
) -> io::Result<TcpStream> {
    for _ in 0..MOST_ASKED {
        let mut stream = TcpStream::connect(rt, to)?;
        if is_answered(&mut stream) {
            return Ok(stream);
        }
    }
    Err(io::Error::from(ErrorKind::TimedOut))
}

/// Whether an empty lookup is answered as one.
fn is_answered(stream: &mut TcpStream) -> bool {
    let mut reply = [0u8; 6];
    stream.write_all(&EMPTY_LOOKUP).is_ok()
        && stream.read_exact(&mut reply).is_ok()
        && reply[5] == NO_DESTINATION
}
