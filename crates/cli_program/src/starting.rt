//! The lines of a server that starts.

use crate::notices::Notices;
use crate::system::Host;
use ckpt_pair::area_room;
use cli_commands::Priority;
use cli_words::CORES;
use isd_as::parse;
use sector_dev::Device;
use server_front::Listeners;
use std::alloc::{AllocError, Global};
use std::net::TcpListener;
use std::time::{Clock, Instant};
use store_open::Store;

/// Says that no core AS is named.
pub(crate) fn say_without_cores<R: Host>(alloc: Global, notices: &Notices<R>) {
    let line = "no --cores: lookups between two named ASes are refused by 0x43";
    notices.say_as(Priority::Warning, line.to_string(alloc));
}

/// Says which texts of the core ASes have a part that is 0. A lookup by them is as without them: by
/// an AS that is 0 each side is a core AS, and an ISD that is 0 is refused with any other AS.
pub(crate) fn say_wildcards<R: Host>(alloc: Global, notices: &Notices<R>, list: &str) {
    for text in list.split(',') {
        if let Ok(core) = parse(text)
            && core.has_zero_part()
        {
            let line = format!(in alloc; "--{CORES} has {text}, which names no AS");
            notices.say_as(Priority::Warning, line);
        }
    }
}

/// Says what the opening of a store has found, and how long it took.
pub(crate) fn say_opened<R: Host, D: Device>(
    rt: &R,
    notices: &Notices<R>,
    path: &str,
    store: &Store<D>,
    begun: Option<Instant>,
) {
    let milliseconds = milliseconds_since(rt, begun);
    notices.say(opened_line(rt.alloc(), path, store, milliseconds));
}

/// Says that the rows of a store do not fit its checkpoint area, if they do not.
pub(crate) fn say_overfull<R: Host, D: Device>(notices: &Notices<R>, store: &Store<D>) {
    if is_overfull(store) {
        notices.note_overfull();
    }
}

/// Whether the rows of a store, or those of its sealed half, do not fit its checkpoint area.
fn is_overfull<D: Device>(store: &Store<D>) -> bool {
    let room = area_room(store.geometry().checkpoint);
    store.db().encoded_len() > room || (store.is_sealed() && store.sealed_len() > room)
}

/// The line of what the opening of a store has found.
fn opened_line<D: Device>(
    alloc: Global,
    path: &str,
    store: &Store<D>,
    milliseconds: u64,
) -> Result<String, AllocError> {
    let (version, place, rows) = (store.version(), store.place(), store.db().len());
    let bytes = store.db().encoded_len();
    let room = area_room(store.geometry().checkpoint);
    let sealed = if store.is_sealed() {
        "sealed"
    } else {
        "not sealed"
    };
    format!(in alloc;
        "opened {path} in {milliseconds} ms: version {version}, place {place}, {rows} rows, {bytes} of {room} bytes, {sealed}"
    )
}

/// The number of milliseconds since a moment, or 0 where the clock cannot be read.
pub(crate) fn milliseconds_since(clock: &impl Clock, begun: Option<Instant>) -> u64 {
    let Some(begun) = begun else {
        return 0;
    };
    match begun.elapsed(clock) {
        Ok(elapsed) => elapsed
            .as_secs()
            .saturating_mul(1_000)
            .saturating_add(u64::from(elapsed.subsec_millis())),
        Err(_) => 0,
    }
}

/// Says where the server listens, and what it serves.
pub(crate) fn say_addresses<R: Host, D: Device>(
    alloc: Global,
    notices: &Notices<R>,
    path: &str,
    store: &Store<D>,
    listeners: &Listeners<TcpListener>,
) {
    notices.say(serves_line(alloc, path, store, listeners));
    if let Some(address) = listeners.lookups_at() {
        notices.say(format!(in alloc; "lookups at {address}"));
    }
    if let Some(address) = listeners.status_at() {
        notices.say(format!(in alloc; "status at {address}"));
    }
}

/// The line of what is served at the listener for sessions.
fn serves_line<D: Device>(
    alloc: Global,
    path: &str,
    store: &Store<D>,
    listeners: &Listeners<TcpListener>,
) -> Result<String, AllocError> {
    let (version, place, rows) = (store.version(), store.place(), store.db().len());
    match listeners.sessions_at() {
        Ok(address) => format!(in alloc;
            "serves {path} at {address}: version {version}, place {place}, {rows} rows"
        ),
        Err(_) => format!(in alloc; "serves {path}: version {version}, place {place}, {rows} rows"),
    }
}
