//! The parts of the system that the program uses.

use std::fs::File;
use std::net::{Net, TcpListener, TcpStream};
use std::rt::{Env, Files};
use std::sync::Wait;
use std::thread::Threads;
use std::time::Clock;

/// The parts of the system that the program uses.
pub trait System: Env
    + Print
    + Eprint
    + AllocGlobal
    + Files<File = File>
    + Net<Listener = TcpListener, Stream = TcpStream>
    + Wait
    + Clock
    + Threads
    + Clone
    + Drop
    + Send
    + Sync
    + 'static {}

impl<
    R: Env
        + Print
        + Eprint
        + AllocGlobal
        + Files<File = File>
        + Net<Listener = TcpListener, Stream = TcpStream>
        + Wait
        + Clock
        + Threads
        + Clone
        + Drop
        + Send
        + Sync
        + 'static,
> System for R {}

/// The parts of the system that the threads of a server use, and those that print its lines and
/// read its input. A thread that outlives its caller has a clone of the handle.
pub(crate) trait Host: AllocGlobal
    + Eprint
    + Wait
    + Clock
    + Threads
    + Clone
    + Drop
    + Send
    + Sync
    + 'static {}

impl<R: AllocGlobal + Eprint + Wait + Clock + Threads + Clone + Drop + Send + Sync + 'static> Host
    for R {}
