//! Sockets that lie above the standard descriptors.
//!
//! Where a program starts with a closed standard handle, the system gives the number of that handle
//! to the next socket, and what the program prints would be sent to a peer.

ghost use Rattle.std.specs.Prelude.{◌<ℤ◌, pos, IfOk};
ghost use Rattle.std.specs.Net.Tcp.{stream_raw_fd, listener_raw_fd};

use libc::STDERR_FILENO;
use std::io;
use std::io::ErrorKind;
use std::net::{TcpListener, TcpStream};
use std::os::fd::AsRawFd;

/// The same connection by a descriptor above the standard ones. The error is the system's, where it
/// gives no such descriptor.
pub(crate) fn raised(stream: TcpStream) -> io::Result<TcpStream>
    ensures { IfOk result (λ stream. pos 2 <ℤ stream_raw_fd stream) }
{
    if stream.as_raw_fd() > STDERR_FILENO {
        return Ok(stream);
    }
    let other = stream.try_clone()?;
    if other.as_raw_fd() > STDERR_FILENO {
        Ok(other)
    } else {
        Err(io::Error::from(ErrorKind::Unsupported))
    }
}

/// The same listener by a descriptor above those of standard input, output and error. The error is
/// the system's, where it gives no such descriptor.
pub fn raised_listener(listener: TcpListener) -> io::Result<TcpListener>
    ensures { IfOk result (λ listener. pos 2 <ℤ listener_raw_fd listener) }
{
    if listener.as_raw_fd() > STDERR_FILENO {
        return Ok(listener);
    }
    let other = listener.try_clone()?;
    if other.as_raw_fd() > STDERR_FILENO {
        Ok(other)
    } else {
        Err(io::Error::from(ErrorKind::Unsupported))
    }
}
