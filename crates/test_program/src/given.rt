//! The system of one command line.
//!
//! Its words are given, what it says on standard error is kept, and at one address a listener is
//! bound already, so that a peer may connect before the server listens. All else is that of the
//! system below, to which `passed` hands it on.

ghost use Rattle.std.specs.Io.{WritesAtMost};

use std::alloc::{AllocError, Global};
use std::env::FillError;
use std::fmt::Display;
use std::io;
use std::net::{Net, Shutdown, SocketAddr, TcpListener, TcpStream};
use std::os::fd::OwnedFd;
use std::rt::Env;
use std::sync::{Arc, Mutex, Wait};
use std::time::{Clock, Duration};

/// How a text begins that goes to standard error.
const MARK: &str = "standard error: ";

/// What follows a time, which is another one in each run.
const MILLISECONDS: &str = " ms";

/// The letter in the place of a time.
const TIME: &str = "T";

/// How a line names a peer, whose port is another one in each run.
const PEER: &str = "that of 127.0.0.1:";

/// The word in the place of a peer's port.
const PORT: &str = "PORT";

/// How a line begins to name a process, which not every system can.
const PROCESS: &str = " (process ";

/// The word in the place of an address, which is another one in each run.
pub(crate) const ADDRESS: &str = "ADDR";

/// A listener, with its address and the address as a text.
#[derive(Drop)]
pub(crate) struct Bound {
    pub(crate) listener: TcpListener,
    pub(crate) address: SocketAddr,
    pub(crate) text: String,
}

impl Bound {
    /// A listener at a free port of the loopback.
    pub(crate) fn new<R: Net<Listener = TcpListener, Stream = TcpStream>>(
        rt: &R,
        alloc: Global,
    ) -> io::Result<Bound> {
        let listener = TcpListener::bind(rt, "127.0.0.1:0")?;
        let address = listener.local_addr()?;
        let text = format!(in alloc; "{address}")?;
        Ok(Bound {
            listener,
            address,
            text,
        })
    }

    /// Shuts the socket down, so that nobody waits any more for a connection.
    pub(crate) fn shut(&self) {
        if let Ok(listener) = self.listener.try_clone() {
            let _shut = TcpStream::from(OwnedFd::from(listener)).shutdown(Shutdown::Both);
        }
    }
}

/// The system of one command line, over the system below. Threads of the line have clones of it.
#[derive(Drop)]
pub(crate) struct Given<R> {
    pub(crate) host: R,
    /// The words, of which the first is the program's name.
    words: Arc<Vec<String>>,
    /// What is bound at its address.
    bound: Arc<Bound>,
    /// What the line has said on standard error.
    said: Arc<Mutex<String>>,
    /// Whether who says something waits for ever.
    is_stuck: bool,
}

impl<R: Copy> Clone for Given<R> {
    fn clone(&self) -> Result<Given<R>, AllocError> {
        Ok(Given {
            host: self.host,
            words: Arc::try_clone(&self.words)?,
            bound: Arc::try_clone(&self.bound)?,
            said: Arc::try_clone(&self.said)?,
            is_stuck: self.is_stuck,
        })
    }
}

impl<R: AllocGlobal + Wait + Clock + Drop> Given<R> {
    /// The system of a line of these words.
    pub(crate) fn new(
        host: R,
        words: Vec<String>,
        bound: &Arc<Bound>,
        is_stuck: bool,
    ) -> Result<Given<R>, AllocError> {
        let alloc: Global = host.alloc();
        Ok(Given {
            words: Arc::new(alloc, words)?,
            bound: Arc::try_clone(bound)?,
            said: Arc::new(alloc, Mutex::new(String::new(alloc)))?,
            is_stuck,
            host,
        })
    }

    /// What the line has said on standard error.
    pub(crate) fn said(&self) -> Result<String, AllocError> {
        let said = self.said.lock(&self.host);
        String::from_str(self.host.alloc(), said.as_str())
    }

    /// Keeps a text that goes to standard error, and its end: with `ADDRESS` in the place of the
    /// address, `PORT` in that of a peer's port, `TIME` in that of a time, and without a process
    /// that it names.
    fn say(&self, text: &str, end: &str) -> io::Result<()> {
        if self.is_stuck {
            for _ in self.host.forever() {
                self.host.sleep(Duration::from_secs(1));
            }
        }
        let alloc: Global = self.host.alloc();
        let text = text.replace(alloc, self.bound.text.as_str(), ADDRESS)?;
        let text = portless(alloc, text.as_str())?;
        let text = timeless(alloc, text.as_str())?;
        let text = without_process(alloc, text.as_str())?;
        let mut said = self.said.lock(&self.host);
        (*said).push_str(MARK)?;
        (*said).push_str(text.as_str())?;
        (*said).push_str(end)?;
        Ok(())
    }
}

/// A text with `PORT` in the place of the port of the peer that it names, if it names one.
fn portless(alloc: Global, text: &str) -> Result<String, AllocError> {
    match text.split_once(PEER) {
        Some((before, after)) => {
            let after = after.trim_start_matches(|c: char| c.is_ascii_digit());
            format!(in alloc; "{before}{PEER}{PORT}{after}")
        }
        None => String::from_str(alloc, text),
    }
}

/// A text with `TIME` in the place of the time that it has, if it has one.
fn timeless(alloc: Global, text: &str) -> Result<String, AllocError> {
    match text.split_once(MILLISECONDS) {
        Some((before, after)) => {
            let before = before.trim_end_matches(|c: char| c.is_ascii_digit());
            format!(in alloc; "{before}{TIME}{MILLISECONDS}{after}")
        }
        None => String::from_str(alloc, text),
    }
}

/// A text without the process that it names in brackets, if it names one.
fn without_process(alloc: Global, text: &str) -> Result<String, AllocError> {
    match text.split_once(PROCESS) {
        Some((before, after)) => {
            let after = after.trim_start_matches(|c: char| c != ')');
            format!(in alloc; "{before}{}", after.trim_start_matches(')'))
        }
        None => String::from_str(alloc, text),
    }
}

impl<R> Env for Given<R> {
    fn arg(&self, i: usize, buf: &mut [u8]) -> Result<usize, FillError>
        ensures bound { WritesAtMost result buf.new }
    {
        let Some(word) = self.words.get(i) else {
            return Err(FillError::NotPresent);
        };
        copied(word.as_bytes(), buf)
    }

    fn var(&self, _name: &str, _buf: &mut [u8]) -> Result<usize, FillError> {
        Err(FillError::NotPresent)
    }

    fn var_at(&self, _i: usize, _buf: &mut [u8]) -> Result<usize, FillError> {
        Err(FillError::NotPresent)
    }
}

/// Copies bytes to the start of a buffer, and answers how many.
fn copied(bytes: &[u8], buf: &mut [u8]) -> Result<usize, FillError>
    ensures bound { WritesAtMost result buf.new }
{
    if bytes.len() > buf.len() {
        return Err(FillError::TooLong);
    }
    buf[..bytes.len()].copy_from_slice(bytes);
    Ok(bytes.len())
}

impl<R: AllocGlobal + Wait + Clock + Drop> Eprint for Given<R> {
    fn eprint<D: Display + Drop>(&self, value: D) -> io::Result<()> {
        let text = format!(in self.host.alloc(); "{value}")?;
        self.say(text.as_str(), "")
    }

    fn eprintln<D: Display + Drop>(&self, value: D) -> io::Result<()> {
        let text = format!(in self.host.alloc(); "{value}")?;
        self.say(text.as_str(), "\n")
    }
}

impl<R: Net<Listener = TcpListener, Stream = TcpStream>> Net for Given<R> {
    type Stream = TcpStream;

    type Listener = TcpListener;

    fn bind(&self, addr: SocketAddr) -> io::Result<TcpListener> {
        if addr == self.bound.address {
            return self.bound.listener.try_clone();
        }
        self.host.bind(addr)
    }

    fn connect(&self, addr: SocketAddr) -> io::Result<TcpStream> {
        self.host.connect(addr)
    }

    fn connect_timeout(&self, addr: SocketAddr, timeout: Duration) -> io::Result<TcpStream> {
        self.host.connect_timeout(addr, timeout)
    }

    fn lookup_host(&self, host: &str, port: u16, found: &mut [SocketAddr]) -> io::Result<usize> {
        self.host.lookup_host(host, port, found)
    }
}
