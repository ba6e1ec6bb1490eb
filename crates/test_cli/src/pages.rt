//! The page of some numbers, line by line.

use crate::checks::{assert_same, assert_true};
use group_core::Numbers;
use group_phases::{Check, Flush};
use status_page::{
    CallTime, CodeCount, Counts, EndCounts, LOOKUP_BUCKETS, LookupTimes, MemoryWaits,
    OutcomeCounts, OwnPurges, RefusedCounts, Usage, page, response,
};
use std::test::Fail;
use store_loops::{Bucket, CommitTimes, DeviceCall};

/// A state that has committed five commands and has two rows, while a group is being written and a
/// journal is sealed.
pub(crate) const NUMBERS: Numbers = Numbers {
    place: 5,
    rows: 2,
    up: 1,
    core: 0,
    down: 1,
    bytes: 186,
    most_bytes: 992,
    journal_sectors: 64,
    journal_used: 6,
    pending: 3,
    epoch: 7,
    version: 2,
    flush: Flush::Written,
    check: Check::Sealed,
    sealed: true,
    stopped: false,
};

/// The times of some commits, in microseconds.
const TIMES: [u64; 4] = [700, 4_000, 5_000, 61_060_300];

/// The times of the buckets of lookups, in microseconds, and their counts.
const LOOKUPS: [(u64, u64); LOOKUP_BUCKETS] = [
    (2, 0),
    (5, 1),
    (10, 800),
    (20, 1_100),
    (50, 1_230),
    (100, 1_231),
    (200, 1_232),
    (500, 1_232),
    (1_000, 1_232),
    (10_000, 1_233),
    (100_000, 1_233),
    (1_000_000, 1_233),
];

/// How long lookups took, one of them longer than all buckets.
fn lookups() -> LookupTimes {
    let mut buckets = [Bucket {
        microseconds: 0,
        count: 0,
    }; LOOKUP_BUCKETS];
    for (bucket, (microseconds, count)) in buckets.iter_mut().zip(&LOOKUPS) {
        *bucket = Bucket {
            microseconds: *microseconds,
            count: *count,
        };
    }
    LookupTimes {
        buckets,
        count: 1_234,
        microseconds: 1_517_003,
    }
}

/// What the server has done, while a gate is being synced.
pub(crate) fn counts() -> Counts {
    let mut commits = CommitTimes::new();
    for time in TIMES {
        commits.add(time);
    }
    Counts {
        call: Some(CallTime {
            call: DeviceCall::SyncGate,
            microseconds: 12_003_045,
        }),
        groups: 4,
        seals: 1,
        checkpoints: 0,
        checkpoint_time: 7_250_001,
        waits: MemoryWaits {
            flusher: false,
            checkpointer: true,
        },
        commits,
        lookups: lookups(),
        sessions: 6,
        started: 20,
        refused: RefusedCounts {
            seats: 8,
            address: 2,
            thread: 1,
        },
        ended: EndCounts {
            closed: 5,
            idle: 4,
            frame: 3,
            connection: 2,
            memory: 1,
            server: 0,
        },
        registered: 2,
        found: 1_234,
        listed: 56,
        purged: 3,
        removed: 0,
        outcomes: OutcomeCounts {
            inserted: 5,
            updated: 4_294_967_296,
            kept: 7,
            removed: 3,
        },
        own_purges: OwnPurges {
            resting: true,
            rows: 2,
        },
        dropped: 12,
        seconds: 86_400,
        begun: 1_796_000_000,
        usage: Some(Usage {
            memory: 5_480_448,
            processor: 61_070_000,
            open_files: 19,
            most_files: 1_024,
        }),
    }
}

/// What it has refused.
const REFUSALS: [CodeCount; 2] = [
    CodeCount {
        code: 0x01,
        count: 9,
    },
    CodeCount {
        code: 0xff,
        count: 18_446_744_073_709_551_615,
    },
];

const PAGE: &str = "\
# HELP pathd_rows Segments in the store.
# TYPE pathd_rows gauge
pathd_rows 2
# HELP pathd_rows_by_type Segments in the store, by type.
# TYPE pathd_rows_by_type gauge
pathd_rows_by_type{type=\"up\"} 1
pathd_rows_by_type{type=\"core\"} 0
pathd_rows_by_type{type=\"down\"} 1
# HELP pathd_rows_bytes Bytes of the records of these segments.
# TYPE pathd_rows_bytes gauge
pathd_rows_bytes 186
# HELP pathd_rows_limit_bytes Bytes of records that have room.
# TYPE pathd_rows_limit_bytes gauge
pathd_rows_limit_bytes 992
# HELP pathd_commands_total Commands that were committed since the store was made.
# TYPE pathd_commands_total counter
pathd_commands_total 5
# HELP pathd_commands_pending Commands that are accepted and not committed yet.
# TYPE pathd_commands_pending gauge
pathd_commands_pending 3
# HELP pathd_stopped 1 where the store takes no more commands.
# TYPE pathd_stopped gauge
pathd_stopped 0
# HELP pathd_epoch Number of the checkpoint that counts.
# TYPE pathd_epoch gauge
pathd_epoch 7
# HELP pathd_format_version Version of the format of the half that counts.
# TYPE pathd_format_version gauge
pathd_format_version 2
# HELP pathd_journal_sealed 1 where a full journal awaits its checkpoint.
# TYPE pathd_journal_sealed gauge
pathd_journal_sealed 1
# HELP pathd_journal_sectors Sectors of one of the two journals.
# TYPE pathd_journal_sectors gauge
pathd_journal_sectors 64
# HELP pathd_journal_used_sectors Sectors that groups have taken in the journal to which the next group goes.
# TYPE pathd_journal_used_sectors gauge
pathd_journal_used_sectors 6
# HELP pathd_flusher_phase 1 for the step that the flusher is in.
# TYPE pathd_flusher_phase gauge
pathd_flusher_phase{phase=\"resting\"} 0
pathd_flusher_phase{phase=\"staged\"} 0
pathd_flusher_phase{phase=\"written\"} 1
pathd_flusher_phase{phase=\"stable\"} 0
pathd_flusher_phase{phase=\"opened\"} 0
pathd_flusher_phase{phase=\"doubtful\"} 0
pathd_flusher_phase{phase=\"durable\"} 0
pathd_flusher_phase{phase=\"following\"} 0
pathd_flusher_phase{phase=\"followed\"} 0
pathd_flusher_phase{phase=\"durable_followed\"} 0
# HELP pathd_checkpointer_phase 1 for the step that the checkpointer is in.
# TYPE pathd_checkpointer_phase gauge
pathd_checkpointer_phase{phase=\"ready\"} 0
pathd_checkpointer_phase{phase=\"sealed\"} 1
pathd_checkpointer_phase{phase=\"planned\"} 0
pathd_checkpointer_phase{phase=\"laid\"} 0
pathd_checkpointer_phase{phase=\"switched\"} 0
pathd_checkpointer_phase{phase=\"switch_failed\"} 0
pathd_checkpointer_phase{phase=\"live\"} 0
pathd_checkpointer_phase{phase=\"closing\"} 0
pathd_checkpointer_phase{phase=\"close_failed\"} 0
# HELP pathd_call_seconds Time that the call of the device has taken so far, where it is under way.
# TYPE pathd_call_seconds gauge
pathd_call_seconds{call=\"write_group\"} 0.000000
pathd_call_seconds{call=\"sync_group\"} 0.000000
pathd_call_seconds{call=\"open_gate\"} 0.000000
pathd_call_seconds{call=\"sync_gate\"} 12.003045
pathd_call_seconds{call=\"begin\"} 0.000000
pathd_call_seconds{call=\"write_chunk\"} 0.000000
pathd_call_seconds{call=\"sync_chunks\"} 0.000000
pathd_call_seconds{call=\"open_half\"} 0.000000
pathd_call_seconds{call=\"sync_half\"} 0.000000
pathd_call_seconds{call=\"close_half\"} 0.000000
pathd_call_seconds{call=\"sync_close\"} 0.000000
pathd_call_seconds{call=\"write_following\"} 0.000000
pathd_call_seconds{call=\"sync_followed\"} 0.000000
# HELP pathd_groups_total Groups of commands that were committed.
# TYPE pathd_groups_total counter
pathd_groups_total 4
# HELP pathd_seals_total Journals that were sealed.
# TYPE pathd_seals_total counter
pathd_seals_total 1
# HELP pathd_checkpoints_total Checkpoints that were completed.
# TYPE pathd_checkpoints_total counter
pathd_checkpoints_total 0
# HELP pathd_checkpoint_seconds_total Time that the completed checkpoints took.
# TYPE pathd_checkpoint_seconds_total counter
pathd_checkpoint_seconds_total 7.250001
# HELP pathd_memory_waits 1 where the thread was refused memory, and tries again.
# TYPE pathd_memory_waits gauge
pathd_memory_waits{actor=\"flusher\"} 0
pathd_memory_waits{actor=\"checkpointer\"} 1
# HELP pathd_commit_seconds Time from the first step of a group to its commit.
# TYPE pathd_commit_seconds histogram
pathd_commit_seconds_bucket{le=\"0.000500\"} 0
pathd_commit_seconds_bucket{le=\"0.001000\"} 1
pathd_commit_seconds_bucket{le=\"0.002000\"} 1
pathd_commit_seconds_bucket{le=\"0.005000\"} 3
pathd_commit_seconds_bucket{le=\"0.010000\"} 3
pathd_commit_seconds_bucket{le=\"0.020000\"} 3
pathd_commit_seconds_bucket{le=\"0.050000\"} 3
pathd_commit_seconds_bucket{le=\"0.100000\"} 3
pathd_commit_seconds_bucket{le=\"0.200000\"} 3
pathd_commit_seconds_bucket{le=\"0.500000\"} 3
pathd_commit_seconds_bucket{le=\"1.000000\"} 3
pathd_commit_seconds_bucket{le=\"+Inf\"} 4
pathd_commit_seconds_sum 61.070000
pathd_commit_seconds_count 4
# HELP pathd_sessions Sessions that are open.
# TYPE pathd_sessions gauge
pathd_sessions 6
# HELP pathd_sessions_started_total Sessions that were started.
# TYPE pathd_sessions_started_total counter
pathd_sessions_started_total 20
# HELP pathd_sessions_refused_total Connections that were refused a session, by the reason.
# TYPE pathd_sessions_refused_total counter
pathd_sessions_refused_total{reason=\"seats\"} 8
pathd_sessions_refused_total{reason=\"address\"} 2
pathd_sessions_refused_total{reason=\"thread\"} 1
# HELP pathd_session_ends_total Sessions that have ended, by the cause.
# TYPE pathd_session_ends_total counter
pathd_session_ends_total{cause=\"closed\"} 5
pathd_session_ends_total{cause=\"idle\"} 4
pathd_session_ends_total{cause=\"frame\"} 3
pathd_session_ends_total{cause=\"connection\"} 2
pathd_session_ends_total{cause=\"memory\"} 1
pathd_session_ends_total{cause=\"server\"} 0
# HELP pathd_replies_total Replies to messages that were not refused, by kind.
# TYPE pathd_replies_total counter
pathd_replies_total{kind=\"found\"} 1234
pathd_replies_total{kind=\"listed\"} 56
pathd_replies_total{kind=\"registered\"} 2
pathd_replies_total{kind=\"purged\"} 3
pathd_replies_total{kind=\"removed\"} 0
# HELP pathd_outcomes_total Segments and rows of acknowledged commands, by what became of them.
# TYPE pathd_outcomes_total counter
pathd_outcomes_total{outcome=\"inserted\"} 5
pathd_outcomes_total{outcome=\"updated\"} 4294967296
pathd_outcomes_total{outcome=\"kept\"} 7
pathd_outcomes_total{outcome=\"removed\"} 3
# HELP pathd_purges_resting 1 where the server's own purges rest, since its clock is not trusted.
# TYPE pathd_purges_resting gauge
pathd_purges_resting 1
# HELP pathd_own_purged_rows_total Segments that the server's own purges have dropped.
# TYPE pathd_own_purged_rows_total counter
pathd_own_purged_rows_total 2
# HELP pathd_lookup_seconds Time from a whole message of a lookup to the segments of its reply.
# TYPE pathd_lookup_seconds histogram
pathd_lookup_seconds_bucket{le=\"0.000002\"} 0
pathd_lookup_seconds_bucket{le=\"0.000005\"} 1
pathd_lookup_seconds_bucket{le=\"0.000010\"} 800
pathd_lookup_seconds_bucket{le=\"0.000020\"} 1100
pathd_lookup_seconds_bucket{le=\"0.000050\"} 1230
pathd_lookup_seconds_bucket{le=\"0.000100\"} 1231
pathd_lookup_seconds_bucket{le=\"0.000200\"} 1232
pathd_lookup_seconds_bucket{le=\"0.000500\"} 1232
pathd_lookup_seconds_bucket{le=\"0.001000\"} 1232
pathd_lookup_seconds_bucket{le=\"0.010000\"} 1233
pathd_lookup_seconds_bucket{le=\"0.100000\"} 1233
pathd_lookup_seconds_bucket{le=\"1.000000\"} 1233
pathd_lookup_seconds_bucket{le=\"+Inf\"} 1234
pathd_lookup_seconds_sum 1.517003
pathd_lookup_seconds_count 1234
# HELP pathd_notices_dropped_total Notices that were dropped, since the log took none.
# TYPE pathd_notices_dropped_total counter
pathd_notices_dropped_total 12
# HELP pathd_uptime_seconds Time that the server has run.
# TYPE pathd_uptime_seconds gauge
pathd_uptime_seconds 86400
# HELP process_start_time_seconds When the server began, in seconds since 1970.
# TYPE process_start_time_seconds gauge
process_start_time_seconds 1796000000
# HELP process_resident_memory_bytes Bytes of memory that the process has in use.
# TYPE process_resident_memory_bytes gauge
process_resident_memory_bytes 5480448
# HELP process_cpu_seconds_total Processor time of the process, in user and system mode.
# TYPE process_cpu_seconds_total counter
process_cpu_seconds_total 61.070000
# HELP process_open_fds File descriptors that the process has open.
# TYPE process_open_fds gauge
process_open_fds 19
# HELP process_max_fds File descriptors that the process may have open.
# TYPE process_max_fds gauge
process_max_fds 1024
# HELP pathd_build_info 1 for the version of the program, and the format that its checkpoints have.
# TYPE pathd_build_info gauge
pathd_build_info{version=\"1.0-rc1\",format=\"2\"} 1
# HELP pathd_refusals_total Messages that were refused, by code.
# TYPE pathd_refusals_total counter
pathd_refusals_total{code=\"01\"} 9
pathd_refusals_total{code=\"ff\"} 18446744073709551615
";

#[test]
fn page_of_some_numbers(rt: HostRuntime) -> Result<(), Fail> {
    let alloc = rt.alloc();
    let text = page(alloc, &NUMBERS, &counts(), &REFUSALS)?;
    assert_eq!(rt; text.as_str(), PAGE);
    let whole = response(alloc, text.as_str())?;
    let is_whole = whole.as_str().ends_with(text.as_str());
    assert_true(&rt, is_whole, "the page is in the response");
    Ok(())
}

#[test]
fn response_with_a_page(rt: HostRuntime) -> Result<(), Fail> {
    let whole = response(rt.alloc(), "pathd_rows 2\n")?;
    let head =
        "HTTP/1.1 200 OK\r\nContent-Type: text/plain; version=0.0.4\r\nContent-Length: 13\r\nConnection: close\r\n\r\n";
    assert_same(&rt, &whole.as_str().starts_with(head), &true, &whole);
    assert_same(&rt, &whole.len(), &(head.len() + 13), &"bytes");
    Ok(())
}
