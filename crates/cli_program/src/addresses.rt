//! Where a server listens.

use clap::ArgMatches;
use cli_commands::{Failure, is_address};
use cli_words::{LISTEN, LOOKUPS, STATUS_LISTEN};
use server_front::{Listeners, raised_listener, set_accept_timeout};
use std::net::{Net, TcpListener, TcpStream};

/// The address of an option that may be left out.
fn optional_address<'a>(
    words: &ArgMatches<'a>,
    option: &'static str,
) -> Result<Option<&'a str>, Failure<'a>> {
    match words.get_str(option) {
        Some(text) => Ok(Some(address_of(option, text)?)),
        None => Ok(None),
    }
}

/// The text of an option, which has to be an address.
fn address_of<'a>(option: &'static str, text: &'a str) -> Result<&'a str, Failure<'a>> {
    if is_address(text) {
        Ok(text)
    } else {
        Err(Failure::Address(option, text))
    }
}

/// Listens at the addresses of the words, once all of them are read.
pub(crate) fn listen<'a, R: Net<Listener = TcpListener, Stream = TcpStream>>(
    rt: &R,
    words: &ArgMatches<'a>,
) -> Result<Listeners<TcpListener>, Failure<'a>> {
    let sessions = address_of(LISTEN, words.get_str(LISTEN).unwrap_or(""))?;
    let lookups = optional_address(words, LOOKUPS)?;
    let status = optional_address(words, STATUS_LISTEN)?;
    let sessions = bind(rt, sessions)?;
    let lookups = bind_optional(rt, lookups)?;
    let status = bind_optional(rt, status)?;
    Ok(Listeners::new(sessions, lookups, status))
}

/// Listens at an address, if there is one.
fn bind_optional<'a, R: Net<Listener = TcpListener, Stream = TcpStream>>(
    rt: &R,
    at: Option<&'a str>,
) -> Result<Option<TcpListener>, Failure<'a>> {
    match at {
        Some(address) => Ok(Some(bind(rt, address)?)),
        None => Ok(None),
    }
}

/// Listens at an address, by a descriptor above the standard ones: of a name at the first of its
/// addresses that is free. An accept fails soon where no peer comes.
fn bind<'a, R: Net<Listener = TcpListener, Stream = TcpStream>>(
    rt: &R,
    at: &'a str,
) -> Result<TcpListener, Failure<'a>> {
    let no_listener = |error| Failure::Listen(at, error);
    let listener = TcpListener::bind(rt, at).map_err(no_listener)?;
    let listener = raised_listener(listener).map_err(no_listener)?;
    set_accept_timeout(&listener).map_err(no_listener)?;
    Ok(listener)
}
