//! Index rows, which say that they have expired without their segments.

use crate::checks::done;
use crate::host::Host;
use crate::rows::worked::{EXPIRY, apply, no_rows};
use isd_as::IsdAs;
use path_db::{Command, PathDb, Registration};
use row_map::IndexRow;
use seg_core::{SegType, Segment, read_segment};
use std::alloc::Global;
use std::test::Fail;
use test_support::{EXP_TIME, TestHost, assert_same};

/// The half seconds by which a segment expires earlier whose exp_time is lower by 1.
const UNIT: u64 = 675;

const TYPES: [SegType; 3] = [SegType::Up, SegType::Down, SegType::Core];

/// The worked segment with an exp_time of its first AS, which leaves that AS by this interface.
/// Both are below 128.
fn leaving(alloc: Global, egress: u8, exp_time: u8) -> Result<Segment, Fail> {
    let mut message = test_support::leaving_by(egress);
    message[EXP_TIME] = exp_time;
    Ok(read_segment(alloc, &message)?)
}

/// A moment, and whether a row is known to expire by it.
type Moment = (u64, bool);

/// Whether the worked segment with this exp_time is known to expire by each of three moments, as a
/// row of each type.
fn assert_moments(
    rt: &impl TestHost,
    alloc: Global,
    exp_time: u8,
    moments: [Moment; 3],
) -> Result<(), Fail> {
    for kind in &TYPES {
        let index_row = IndexRow::new(*kind, 7, leaving(alloc, 5, exp_time)?);
        for (moment, is_known) in &moments {
            assert_same(
                rt,
                &index_row.expires_by(*moment),
                is_known,
                &(exp_time, moment),
            );
        }
    }
    Ok(())
}

#[test]
fn index_rows_have_24_bytes(rt: HostRuntime) {
    assert_same(&Host(&rt), &size_of::<IndexRow>(), &24, &"bytes");
}

// The second one expires within a second, and is known to be expired at its end.
#[test]
fn index_rows_know_the_second_of_their_expiry(rt: HostRuntime) {
    let host = Host(&rt);
    let whole = [(EXPIRY - 1, false), (EXPIRY, true), (EXPIRY + 1, true)];
    done(&rt, assert_moments(&host, rt.alloc(), 63, whole));
    let half = EXPIRY - UNIT;
    let half = [(half - 1, false), (half, false), (half + 1, true)];
    done(&rt, assert_moments(&host, rt.alloc(), 62, half));
}

/// The ends of the worked segment.
const FIRST: u64 = 0x0001_ff00_0000_0110;

const LAST: u64 = 0x0001_ff00_0000_0111;

/// 40 rows of these ends, of which each fourth outlasts the others by a unit of exp_time.
fn filled(alloc: Global) -> Result<PathDb, Fail> {
    let mut rows = Vec::new(alloc);
    for egress in 1..41u8 {
        let exp_time = if egress % 4 == 0 { 63 } else { 62 };
        rows.push((SegType::Down, leaving(alloc, egress, exp_time)?))?;
    }
    let mut database = no_rows(alloc);
    apply(&mut database, &Command::Register(Registration::new(rows)))?;
    Ok(database)
}

/// Moments, and how many of these rows a lookup of their ends shows at each.
const SHOWN: [(u64, usize); 6] = [
    (EXPIRY - UNIT - 1, 40),
    (EXPIRY - UNIT, 10),
    (EXPIRY - UNIT + 1, 10),
    (EXPIRY - 1, 10),
    (EXPIRY, 0),
    (EXPIRY + 1, 0),
];

/// Looks the rows up by their ends, and by their last AS alone. All 40 are visited, and at most
/// three more are counted, as the rows that have not expired are visited four at a time.
fn assert_shown(rt: &impl TestHost, alloc: Global) -> Result<(), Fail> {
    let database = filled(alloc)?;
    let end = IsdAs::from_u64(LAST);
    for start in &[FIRST, 0] {
        let start = IsdAs::from_u64(*start);
        for (moment, count) in &SHOWN {
            let (shown, visited) = database.matching_counted(
                SegType::Down,
                start,
                end,
                *moment,
                64,
            )?;
            assert_same(rt, &shown.len(), count, moment);
            assert_same(
                rt,
                &(visited >= 40 && visited < 44),
                &true,
                &(moment, visited),
            );
        }
    }
    Ok(())
}

#[test]
fn lookups_leave_out_what_has_expired(rt: HostRuntime) {
    done(&rt, assert_shown(&Host(&rt), rt.alloc()));
}
