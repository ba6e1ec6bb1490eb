//! Making the showcase of a hub and its readers.

ghost use Rattle.std.specs.Prelude.{◌≡◌, [], true, IfOk, drop, length};
ghost use Rattle.left_right.specs.Sides.{view};
ghost use Rattle.log_history.specs.Entries.{new_log};
ghost use Rattle.hub_readers.specs.Shown.{IsShownAfter};

use crate::error::ReaderError;
use crate::ghosts::name::ReaderName;
use crate::published::Published;
use crate::reader::HubReader;
use crate::show::{HubShow, HubWriter};
use left_right::writer::Writer;
use log_history::{LogHistory, PastLog};
use path_db::PathDb;
use std::alloc::{AllocError, Global};
use std::sync::Wait;
use std::thread::Threads;

/// The number of readers of a hub that are handed out.
pub const READERS: usize = 64;

/// The number of readers that are made: one more is the hub's own.
pub const SEATS: usize = READERS + 1;

/// Makes the showcase of the hub of this name, and all its readers, over rows at a place. The
/// history is of what is shown. No group is published yet, and nothing is owed. Up to four threads
/// make the copies of the rows that are published.
pub fn open_readers<N: ReaderName, R: Wait + Threads + Drop + Sync>(
    rt: R,
    alloc: Global,
    history: LogHistory,
    db: &PathDb,
    place: u64,
) -> Result<(HubShow<N, R>, Vec<HubReader<N>>), ReaderError>
    requires opening { record { db = db.now; place = place } ≡ N.opening }
    requires history { history ≡ new_log N.shown }
    requires shut { N.shut ≡ true }
    ensures value { IfOk result (λ made. made.0.value ≡ N.opening) }
    ensures owed { IfOk result (λ made. made.0.owed ≡ []) }
    ensures groups { IfOk result (λ made. made.0.groups ≡ []) }
    ensures readers { IfOk result (λ made. length made.1.items ≡ SEATS) }
{
    let past = history.past();
    let writer = new_writer::<N, R>(&rt, alloc, &past, db, place)?;
    match new_readers(alloc, &past, &writer) {
        Ok(readers) => Ok((HubShow::over(rt, alloc, writer, history), readers)),
        Err(refused) => {
            writer.take(&rt);
            Err(refused)
        }
    }
}

/// The writer that publishes rows at a place. No group is published yet.
fn new_writer<N: ReaderName, R: Threads + Sync>(
    rt: &R,
    alloc: Global,
    past: &PastLog,
    db: &PathDb,
    place: u64,
) -> Result<HubWriter<N>, AllocError>
    requires opening { record { db = db.now; place = place } ≡ N.opening }
    requires past { past.now ≡ new_log N.shown }
    ensures value { IfOk result (λ w. w.desk.shown.value.value ≡ N.opening) }
    ensures shown { IfOk result (λ w. IsShownAfter N.opening N.shown w.desk.shown.value []) }
    ensures groups { IfOk result (λ w. (view w.desk.place).groups ≡ []) }
    ensures idle { IfOk result (λ w. drop w.behind w.log.items ≡ []) }
{
    let (first, second) = db.indexed_pair(rt)?;
    let first = Published::new(first, place, past.again());
    let second = Published::new(second, place, past.again());
    Writer::new(alloc, first, second, SEATS)
}

/// All readers of a writer. Nothing is shown to them yet.
fn new_readers<N: ReaderName>(
    alloc: Global,
    past: &PastLog,
    writer: &HubWriter<N>,
) -> Result<Vec<HubReader<N>>, ReaderError>
    requires past { past.now ≡ new_log N.shown }
    requires shut { N.shut ≡ true }
    ensures { IfOk result (λ readers. length readers.items ≡ SEATS) }
{
    let mut readers = Vec::with_capacity(alloc, SEATS)?;
    for _ in 0..SEATS {
        let Ok(seat) = writer.factory().reader() else {
            return Err(ReaderError::NoReader);
        };
        if readers.push(HubReader::over(seat, past.again())).is_err() {
            return Err(ReaderError::NoMemory);
        }
    }
    Ok(readers)
}
