//! The seats of a server: one for each session at one time.

ghost use Rattle.std.specs.Prelude.{◌≡◌, ◌+◌, ◌≤◌, ◌<◌, ◌-◌, ◌^◌, IfErr, OnOk, min, true, false};
ghost use Rattle.server_front.specs.Seating.{count_of, limit_of, refusal_of, has_host, held_by};
ghost use Rattle.server_front.specs.declared.seats.NoSeat.TheVariants.{AddressFull, NoMemory};

use paced_stream::AcceptedStream;
use std::alloc::{AllocError, Global};
use std::net::SocketAddr;
use std::sync::atomic::{AtomicU64, Ordering};
use std::sync::{Arc, Mutex, Wait};

/// The most sessions at one time.
pub const MOST_SESSIONS: u64 = 64;

/// The fewest seats for sessions that may have commands, and the fewest sessions that have room for
/// commands under way.
pub const LEAST_COMMAND_SEATS: u64 = 8;

/// The most seats for sessions without commands: for those of the listener of lookups, and the most
/// that are spare where others have commands under way.
pub const MOST_LOOKUP_SEATS: u64 = MOST_SESSIONS - LEAST_COMMAND_SEATS;

/// The number of seats for the sessions that may have commands, and of those for the others, of
/// which this number is wanted. Without a listener of lookups all seats are for the former.
pub fn shares_of(has_lookups: bool, wanted: u64) -> (u64, u64)
    ensures all { result.0 + result.1 ≡ 64 }
    ensures none { has_lookups ≡ false → result.1 ≡ 0 }
    ensures some { has_lookups ≡ true → result.1 ≡ min wanted 56 }
{
    let lookups = lookup_share(has_lookups, wanted);
    (MOST_SESSIONS - lookups, lookups)
}

/// The number of seats for the sessions that only look up.
fn lookup_share(has_lookups: bool, wanted: u64) -> u64
    ensures none { has_lookups ≡ false → result ≡ 0 }
    ensures some { has_lookups ≡ true → result ≡ min wanted 56 }
    ensures most { result ≤ 56 }
{
    if has_lookups {
        wanted.min(MOST_LOOKUP_SEATS)
    } else {
        0
    }
}

/// A connection that was accepted, and the address of its peer.
#[derive(Drop)]
pub struct Peer {
    pub stream: Arc<AcceptedStream, Global>,
    pub address: SocketAddr,
}

/// Why a peer has no seat.
#[derive(Clone, Copy, Debug, PartialEq, Eq)]
pub enum NoSeat {
    /// All seats are taken.
    Full,
    /// The peers of one address have as many seats as one address may have.
    AddressFull,
    /// Memory for the seat was refused.
    NoMemory,
}

/// The seats, and who has them. Threads share them, so that no clause says which of them are taken.
#[derive(Drop)]
pub struct Seats {
    seats: Mutex<Vec<Option<Peer>>>,
    /// The number of seats that are taken.
    taken: AtomicU64,
    /// The number of seats.
    count: u64,
    /// The most seats of one address, or 0 for no limit.
    most: u64,
}

impl Seats {
    /// This number of seats, which are all free. The peers of one address may take `most` of them,
    /// or all if that is 0.
    pub fn new(alloc: Global, count: u64, most: u64) -> Seats
        ensures { (count_of result ≡ count) × (limit_of result ≡ most) }
    {
        Seats {
            seats: Mutex::new(Vec::new(alloc)),
            taken: AtomicU64::new(0),
            count,
            most,
        }
    }

    /// Gives a peer a seat, and returns the number of the seat.
    pub fn take<R: Wait>(&self, rt: &R, peer: &Peer) -> Result<usize, NoSeat>
        ensures some { OnOk result (0 < count_of self.now) }
        ensures limited { IfErr result (λ why. why ≡ AddressFull → 0 < limit_of self.now) }
    {
        let mut seats = self.seats.lock(rt);
        let seats = &mut *seats;
        let held = held_by(seats.as_slice(), &peer.address);
        if let Some(refusal) = refusal_of(self.count, self.taken(), held, self.most) {
            return Err(refusal);
        }
        let Ok(peer) = peer.again() else {
            return Err(NoSeat::NoMemory);
        };
        let number = put(seats, peer)?;
        self.taken.fetch_add(1, Ordering::SeqCst);
        Ok(number)
    }

    /// The peer in the seat of this number, if there is one.
    pub fn peer<R: Wait>(&self, rt: &R, number: usize) -> Option<Peer> {
        let seats = self.seats.lock(rt);
        match seats.as_slice().get(number) {
            Some(Some(peer)) => peer.again().ok(),
            Some(None) | None => None,
        }
    }

    /// Frees the seat of this number.
    pub fn leave<R: Wait>(&self, rt: &R, number: usize) {
        let mut seats = self.seats.lock(rt);
        if let Some(seat) = seats.as_mut_slice().get_mut(number) {
            if seat.take().is_some() {
                self.taken.fetch_sub(1, Ordering::SeqCst);
            }
        }
    }

    /// Shuts down the connections of all peers that have seats.
    pub fn shut<R: Wait>(&self, rt: &R) {
        let seats = self.seats.lock(rt);
        for seat in seats.as_slice() {
            if let Some(peer) = seat {
                peer.stream.shut();
            }
        }
    }

    /// The number of seats that are taken, by one read of it. No clause says which number that is.
    pub fn taken(&self) -> u64 {
        self.taken.load(Ordering::SeqCst)
    }
}

impl Peer {
    /// The same peer once more.
    fn again(&self) -> Result<Peer, AllocError> {
        Ok(Peer {
            stream: Arc::try_clone(&self.stream)?,
            address: self.address,
        })
    }
}

/// The number of seats that the peers of this address's host have.
fn held_by(seats: &[Option<Peer>], address: &SocketAddr) -> u64
    ensures { result ≡ min (held_by seats.now address.now) (2 ^ 64 - 1) }
{
    let mut held = 0u64;
    for seat in seats {
        if has_host(seat, address) {
            held = held.saturating_add(1);
        }
    }
    held
}

/// Whether a seat has a peer of this address's host. The ports may differ.
fn has_host(seat: &Option<Peer>, address: &SocketAddr) -> bool
    ensures { result ≡ has_host address.now seat.now }
{
    match seat {
        Some(peer) => peer.address.ip() == address.ip(),
        None => false,
    }
}

/// Why a further peer gets no seat, if it gets none: `taken` of the seats are taken, `held` of them
/// by peers of its address, which may have `most`, where 0 is no limit.
fn refusal_of(seats: u64, taken: u64, held: u64, most: u64) -> Option<NoSeat>
    ensures { result ≡ refusal_of seats taken held most }
{
    if taken >= seats {
        Some(NoSeat::Full)
    } else if most > 0 && held >= most {
        Some(NoSeat::AddressFull)
    } else {
        None
    }
}

/// Puts a peer into a free seat, and returns the number of the seat.
fn put(seats: &mut Vec<Option<Peer>>, peer: Peer) -> Result<usize, NoSeat>
    ensures { IfErr result (λ why. why ≡ NoMemory) }
{
    let number = seats.len();
    for (free, seat) in seats.as_mut_slice().iter_mut().enumerate() {
        if seat.is_none() {
            *seat = Some(peer);
            return Ok(free);
        }
    }
    match seats.push(Some(peer)) {
        Ok(()) => Ok(number),
        Err(_refused) => Err(NoSeat::NoMemory),
    }
}
