//! A direction of a connection, of which a session alone makes calls.

ghost use Rattle.std.specs.Prelude.{◌≡◌};

use crate::stream_calls::StreamCalls;
use std::marker::Model;

/// A direction of a connection before its session. Contracts see its calls. No call gives them out,
/// so that nothing but a session (`serve_connection`) reads or writes by them.
#[derive(Drop)]
pub struct Sealed<T> {
    stream: T,
}

impl<T> Model for Sealed<T> {
    ghost Value = { T };

    ghost view = { λ s. s.stream };
}

impl<T: StreamCalls> Sealed<T> {
    /// Seals the calls of a connection.
    pub fn of(stream: T) -> Sealed<T>
        ensures { result ≡ stream }
    {
        Sealed { stream }
    }

    /// The calls, to set up the connection.
    pub(crate) fn stream(&self) -> &T
        ensures { result.now ≡ self.now }
    {
        &self.stream
    }

    /// The same where no session is served.
    pub(crate) fn close(self) -> Closed<T>
        ensures { result ≡ self }
    {
        let Sealed { stream } = self;
        Closed { stream }
    }

    /// The calls, of which a session is served.
    pub(crate) fn into_stream(self) -> T
        ensures { result ≡ self }
    {
        let Sealed { stream } = self;
        stream
    }
}

/// A direction of a connection whose session has ended. Contracts see its calls. None is made any
/// more.
#[derive(Drop)]
pub struct Closed<T> {
    stream: T,
}

impl<T> Model for Closed<T> {
    ghost Value = { T };

    ghost view = { λ c. c.stream };
}

impl<T: StreamCalls> Closed<T> {
    /// The calls of a session that has ended.
    pub(crate) fn of(stream: T) -> Closed<T>
        ensures { result ≡ stream }
    {
        Closed { stream }
    }

    /// The calls, to be read by tests: those that read or write need them as `&mut`.
    pub fn stream(&self) -> &T
        ensures { result.now ≡ self.now }
    {
        &self.stream
    }
}
