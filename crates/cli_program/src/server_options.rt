//! How a server runs, by the words of its command line.

ghost use Rattle.std.specs.Prelude.{◌≡◌, ℕ, ◌*◌, codes, option_map, IfOk};
ghost use Rattle.std.specs.Duration.{as_nanos};
ghost use Rattle.clap.specs.Words.{first_value, found_of};
ghost use Rattle.cli_commands.specs.Options.{IsKeyOf, IsNumberOf};
ghost use Rattle.cli_program.specs.Options.{AreKindsOf, IsRosterOf, limit_of, bound_of};

use clap::ArgMatches;
use cli_commands::{Failure, cores_in, key_in, u32_in};
use cli_words::{
    FUTURE, GRACE, IDLE, LEAVE, LISTS, LOOKUP_SEATS, MOST_SEATS, PEER_SESSIONS, PURGE, PURGE_GRACE,
    SESSIONS, SPARE,
};
use path_server::{Kinds, Options};
use seg_lookup::Roster;
use server_front::MOST_LOOKUP_SEATS;
use std::alloc::Global;
use std::time::Duration;

// An option of seats has the bound that the server has.
const _: () = prove!(MOST_SEATS == MOST_LOOKUP_SEATS as i64);

/// The number of seconds that a peer may be silent where no option names it.
const IDLE_SECONDS: u32 = 300;

/// The number of seats for sessions that only look up where no option names it.
const LOOKUP_SEATS_LEFT_OUT: u32 = 16;

/// The number of seconds that open sessions have where the server is asked to end, if no option
/// names it.
const GRACE_SECONDS: u32 = 10;

/// The options of the server, as the words have them.
pub(crate) fn options_of<'a>(alloc: Global, words: &ArgMatches<'a>) -> Result<Options, Failure<'a>>
    ensures cores { IfOk result (λ options. IsRosterOf (first_value (found_of words.now) (codes "cores")) options.cores) }
    ensures key { IfOk result (λ options. IsKeyOf (first_value (found_of words.now) (codes "key")) options.key) }
    ensures kinds { IfOk result (λ options. AreKindsOf (found_of words.now) options.kinds) }
    ensures sessions { IfOk result (λ options. IsNumberOf (found_of words.now) (codes "sessions") 64 0 options.sessions) }
    ensures peers { IfOk result (λ options. IsNumberOf (found_of words.now) (codes "peer-sessions") 64 0 options.peer_sessions) }
    ensures idle { IfOk result (λ options. (count : ℕ) × IsNumberOf (found_of words.now) (codes "idle") 32 300 count
        × (option_map as_nanos options.idle ≡ limit_of count)) }
    ensures leave { IfOk result (λ options. (count : ℕ) × IsNumberOf (found_of words.now) (codes "leave") 32 0 count
        × (option_map as_nanos options.leave ≡ limit_of count)) }
    ensures future { IfOk result (λ options. (count : ℕ) × IsNumberOf (found_of words.now) (codes "future") 32 0 count
        × (options.future ≡ bound_of count)) }
    ensures spare { IfOk result (λ options. IsNumberOf (found_of words.now) (codes "spare") 32 0 options.spare) }
    ensures lookups { IfOk result (λ options. IsNumberOf (found_of words.now) (codes "lookup-seats") 32 16 options.lookup_seats) }
    ensures purge { IfOk result (λ options. (count : ℕ) × IsNumberOf (found_of words.now) (codes "purge") 32 0 count
        × (option_map as_nanos options.purge ≡ limit_of count)) }
    ensures purge_grace { IfOk result (λ options. IsNumberOf (found_of words.now) (codes "purge-grace") 32 0 options.purge_grace) }
    ensures grace { IfOk result (λ options. (count : ℕ) × IsNumberOf (found_of words.now) (codes "grace") 32 10 count
        × (as_nanos options.grace ≡ count * 1_000_000_000)) }
{
    let cores = Roster::new(cores_in(alloc, words)?);
    let key = key_in(alloc, words)?;
    Ok(Options {
        cores,
        key,
        kinds: kinds_in(words),
        sessions: u64_in(words, SESSIONS),
        peer_sessions: u64_in(words, PEER_SESSIONS),
        idle: limit(u32_in(words, IDLE, IDLE_SECONDS)),
        leave: limit(u32_in(words, LEAVE, 0)),
        future: bound(u32_in(words, FUTURE, 0)),
        spare: u64::from(u32_in(words, SPARE, 0)),
        lookup_seats: u64::from(u32_in(words, LOOKUP_SEATS, LOOKUP_SEATS_LEFT_OUT)),
        purge: limit(u32_in(words, PURGE, 0)),
        purge_grace: u64::from(u32_in(words, PURGE_GRACE, 0)),
        grace: seconds(u32_in(words, GRACE, GRACE_SECONDS)),
    })
}

/// The kinds of messages that sessions have: lists are among them where the words say so.
fn kinds_in(words: &ArgMatches<'_>) -> Kinds
    ensures { AreKindsOf (found_of words.now) result }
{
    if words.get_flag(LISTS) {
        Kinds::WithLists
    } else {
        Kinds::Base
    }
}

/// The number of an option, or 0 where the option is left out.
fn u64_in(words: &ArgMatches<'_>, name: &str) -> u64
    ensures { IsNumberOf (found_of words.now) name.now 64 0 result }
{
    words.get_one::<u64>(name).unwrap_or(0)
}

/// The time of this number of seconds, of which 0 is none.
fn limit(count: u32) -> Option<Duration>
    ensures { option_map as_nanos result ≡ limit_of count }
{
    if count == 0 {
        return None;
    }
    Some(seconds(count))
}

/// This number of seconds, of which 0 is no bound.
fn bound(count: u32) -> Option<u64>
    ensures { result ≡ bound_of count }
{
    if count == 0 {
        return None;
    }
    Some(u64::from(count))
}

/// The time of this number of seconds.
fn seconds(count: u32) -> Duration
    ensures { as_nanos result ≡ count * 1_000_000_000 }
{
    Duration::from_secs(u64::from(count))
}
