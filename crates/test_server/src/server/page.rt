//! The page of a server's numbers after one session.

/// The page before the number of commits that took half a millisecond.
const BEFORE_TIMES: &str = "\
# HELP pathd_rows Segments in the store.
# TYPE pathd_rows gauge
pathd_rows 1
# HELP pathd_rows_by_type Segments in the store, by type.
# TYPE pathd_rows_by_type gauge
pathd_rows_by_type{type=\"up\"} 0
pathd_rows_by_type{type=\"core\"} 0
pathd_rows_by_type{type=\"down\"} 1
# HELP pathd_rows_bytes Bytes of the records of these segments.
# TYPE pathd_rows_bytes gauge
pathd_rows_bytes 93
# HELP pathd_rows_limit_bytes Bytes of records that have room.
# TYPE pathd_rows_limit_bytes gauge
pathd_rows_limit_bytes 992
# HELP pathd_commands_total Commands that were committed since the store was made.
# TYPE pathd_commands_total counter
pathd_commands_total 4
# HELP pathd_commands_pending Commands that are accepted and not committed yet.
# TYPE pathd_commands_pending gauge
pathd_commands_pending 0
# HELP pathd_stopped 1 where the store takes no more commands.
# TYPE pathd_stopped gauge
pathd_stopped 0
# HELP pathd_epoch Number of the checkpoint that counts.
# TYPE pathd_epoch gauge
pathd_epoch 1
# HELP pathd_format_version Version of the format of the half that counts.
# TYPE pathd_format_version gauge
pathd_format_version 2
# HELP pathd_journal_sealed 1 where a full journal awaits its checkpoint.
# TYPE pathd_journal_sealed gauge
pathd_journal_sealed 0
# HELP pathd_journal_sectors Sectors of one of the two journals.
# TYPE pathd_journal_sectors gauge
pathd_journal_sectors 516
# HELP pathd_journal_used_sectors Sectors that groups have taken in the journal to which the next group goes.
# TYPE pathd_journal_used_sectors gauge
pathd_journal_used_sectors 8
# HELP pathd_flusher_phase 1 for the step that the flusher is in.
# TYPE pathd_flusher_phase gauge
pathd_flusher_phase{phase=\"resting\"} 1
pathd_flusher_phase{phase=\"staged\"} 0
pathd_flusher_phase{phase=\"written\"} 0
pathd_flusher_phase{phase=\"stable\"} 0
pathd_flusher_phase{phase=\"opened\"} 0
pathd_flusher_phase{phase=\"doubtful\"} 0
pathd_flusher_phase{phase=\"durable\"} 0
pathd_flusher_phase{phase=\"following\"} 0
pathd_flusher_phase{phase=\"followed\"} 0
pathd_flusher_phase{phase=\"durable_followed\"} 0
# HELP pathd_checkpointer_phase 1 for the step that the checkpointer is in.
# TYPE pathd_checkpointer_phase gauge
pathd_checkpointer_phase{phase=\"ready\"} 1
pathd_checkpointer_phase{phase=\"sealed\"} 0
pathd_checkpointer_phase{phase=\"planned\"} 0
pathd_checkpointer_phase{phase=\"laid\"} 0
pathd_checkpointer_phase{phase=\"switched\"} 0
pathd_checkpointer_phase{phase=\"switch_failed\"} 0
pathd_checkpointer_phase{phase=\"live\"} 0
pathd_checkpointer_phase{phase=\"closing\"} 0
pathd_checkpointer_phase{phase=\"close_failed\"} 0
# HELP pathd_call_seconds Time that the call of the device has taken so far, where it is under way.
# TYPE pathd_call_seconds gauge
pathd_call_seconds{call=\"write_group\"} 0.000000
pathd_call_seconds{call=\"sync_group\"} 0.000000
pathd_call_seconds{call=\"open_gate\"} 0.000000
pathd_call_seconds{call=\"sync_gate\"} 0.000000
pathd_call_seconds{call=\"begin\"} 0.000000
pathd_call_seconds{call=\"write_chunk\"} 0.000000
pathd_call_seconds{call=\"sync_chunks\"} 0.000000
pathd_call_seconds{call=\"open_half\"} 0.000000
pathd_call_seconds{call=\"sync_half\"} 0.000000
pathd_call_seconds{call=\"close_half\"} 0.000000
pathd_call_seconds{call=\"sync_close\"} 0.000000
pathd_call_seconds{call=\"write_following\"} 0.000000
pathd_call_seconds{call=\"sync_followed\"} 0.000000
# HELP pathd_groups_total Groups of commands that were committed.
# TYPE pathd_groups_total counter
pathd_groups_total 4
# HELP pathd_seals_total Journals that were sealed.
# TYPE pathd_seals_total counter
pathd_seals_total 0
# HELP pathd_checkpoints_total Checkpoints that were completed.
# TYPE pathd_checkpoints_total counter
pathd_checkpoints_total 0
# HELP pathd_checkpoint_seconds_total Time that the completed checkpoints took.
# TYPE pathd_checkpoint_seconds_total counter
pathd_checkpoint_seconds_total 0.000000
# HELP pathd_memory_waits 1 where the thread was refused memory, and tries again.
# TYPE pathd_memory_waits gauge
pathd_memory_waits{actor=\"flusher\"} 0
pathd_memory_waits{actor=\"checkpointer\"} 0
# HELP pathd_commit_seconds Time from the first step of a group to its commit.
# TYPE pathd_commit_seconds histogram
pathd_commit_seconds_bucket{le=\"0.000500\"} ";

/// The page between the last two times of commits.
const ALL_TIMED: &str = "\npathd_commit_seconds_bucket{le=\"+Inf\"} 4\npathd_commit_seconds_sum ";

/// The page between the times of commits and the number of lookups that took two microseconds.
const BEFORE_LOOKUPS: &str = "
pathd_commit_seconds_count 4
# HELP pathd_sessions Sessions that are open.
# TYPE pathd_sessions gauge
pathd_sessions 1
# HELP pathd_sessions_started_total Sessions that were started.
# TYPE pathd_sessions_started_total counter
pathd_sessions_started_total 1
# HELP pathd_sessions_refused_total Connections that were refused a session, by the reason.
# TYPE pathd_sessions_refused_total counter
pathd_sessions_refused_total{reason=\"seats\"} 0
pathd_sessions_refused_total{reason=\"address\"} 0
pathd_sessions_refused_total{reason=\"thread\"} 0
# HELP pathd_session_ends_total Sessions that have ended, by the cause.
# TYPE pathd_session_ends_total counter
pathd_session_ends_total{cause=\"closed\"} 0
pathd_session_ends_total{cause=\"idle\"} 0
pathd_session_ends_total{cause=\"frame\"} 0
pathd_session_ends_total{cause=\"connection\"} 0
pathd_session_ends_total{cause=\"memory\"} 0
pathd_session_ends_total{cause=\"server\"} 0
# HELP pathd_replies_total Replies to messages that were not refused, by kind.
# TYPE pathd_replies_total counter
pathd_replies_total{kind=\"found\"} 1
pathd_replies_total{kind=\"listed\"} 1
pathd_replies_total{kind=\"registered\"} 2
pathd_replies_total{kind=\"purged\"} 1
pathd_replies_total{kind=\"removed\"} 1
# HELP pathd_outcomes_total Segments and rows of acknowledged commands, by what became of them.
# TYPE pathd_outcomes_total counter
pathd_outcomes_total{outcome=\"inserted\"} 1
pathd_outcomes_total{outcome=\"updated\"} 0
pathd_outcomes_total{outcome=\"kept\"} 0
pathd_outcomes_total{outcome=\"removed\"} 0
# HELP pathd_purges_resting 1 where the server's own purges rest, since its clock is not trusted.
# TYPE pathd_purges_resting gauge
pathd_purges_resting 0
# HELP pathd_own_purged_rows_total Segments that the server's own purges have dropped.
# TYPE pathd_own_purged_rows_total counter
pathd_own_purged_rows_total 0
# HELP pathd_lookup_seconds Time from a whole message of a lookup to the segments of its reply.
# TYPE pathd_lookup_seconds histogram
pathd_lookup_seconds_bucket{le=\"0.000002\"} ";

/// The page between the last two times of lookups.
const ALL_LOOKUPS_TIMED: &str =
    "\npathd_lookup_seconds_bucket{le=\"+Inf\"} 1\npathd_lookup_seconds_sum ";

/// The page between the times of lookups and the number of seconds.
const BEFORE_SECONDS: &str = "
pathd_lookup_seconds_count 1
# HELP pathd_notices_dropped_total Notices that were dropped, since the log took none.
# TYPE pathd_notices_dropped_total counter
pathd_notices_dropped_total 0
# HELP pathd_uptime_seconds Time that the server has run.
# TYPE pathd_uptime_seconds gauge
pathd_uptime_seconds ";

/// The page between the number of seconds and the moment at which the server began.
const BEFORE_BEGUN: &str = "
# HELP process_start_time_seconds When the server began, in seconds since 1970.
# TYPE process_start_time_seconds gauge
process_start_time_seconds ";

/// The page after that moment.
const AFTER_BEGUN: &str = "
# HELP pathd_build_info 1 for the version of the program, and the format that its checkpoints have.
# TYPE pathd_build_info gauge
pathd_build_info{version=\"1.0-rc1\",format=\"2\"} 1
# HELP pathd_refusals_total Messages that were refused, by code.
# TYPE pathd_refusals_total counter
pathd_refusals_total{code=\"01\"} 0
pathd_refusals_total{code=\"11\"} 0
pathd_refusals_total{code=\"12\"} 0
pathd_refusals_total{code=\"13\"} 0
pathd_refusals_total{code=\"14\"} 0
pathd_refusals_total{code=\"15\"} 0
pathd_refusals_total{code=\"22\"} 0
pathd_refusals_total{code=\"23\"} 0
pathd_refusals_total{code=\"24\"} 0
pathd_refusals_total{code=\"25\"} 0
pathd_refusals_total{code=\"26\"} 0
pathd_refusals_total{code=\"27\"} 0
pathd_refusals_total{code=\"28\"} 0
pathd_refusals_total{code=\"29\"} 1
pathd_refusals_total{code=\"2a\"} 0
pathd_refusals_total{code=\"31\"} 0
pathd_refusals_total{code=\"32\"} 0
pathd_refusals_total{code=\"33\"} 0
pathd_refusals_total{code=\"41\"} 2
pathd_refusals_total{code=\"42\"} 0
pathd_refusals_total{code=\"43\"} 0
pathd_refusals_total{code=\"51\"} 0
pathd_refusals_total{code=\"52\"} 0
pathd_refusals_total{code=\"53\"} 0
pathd_refusals_total{code=\"54\"} 0
pathd_refusals_total{code=\"55\"} 0
pathd_refusals_total{code=\"57\"} 0
pathd_refusals_total{code=\"62\"} 0
pathd_refusals_total{code=\"63\"} 0
pathd_refusals_total{code=\"64\"} 0
";

/// A text without the number at its front.
fn after_number(text: &str) -> &str {
    text.trim_start_matches(|letter: char| letter.is_ascii_digit() || letter == '.')
}

/// The page in an answer, whatever the times of commits and lookups, the number of seconds and the
/// moment of the start are.
pub(crate) fn is_page(answer: &str) -> bool {
    let Some((head, page)) = answer.split_once("\r\n\r\n") else {
        return false;
    };
    let Some(rest) = page.strip_prefix(BEFORE_TIMES) else {
        return false;
    };
    let Some((_times, rest)) = rest.split_once(ALL_TIMED) else {
        return false;
    };
    let Some(rest) = after_number(rest).strip_prefix(BEFORE_LOOKUPS) else {
        return false;
    };
    let Some((_times, rest)) = rest.split_once(ALL_LOOKUPS_TIMED) else {
        return false;
    };
    let Some(rest) = after_number(rest).strip_prefix(BEFORE_SECONDS) else {
        return false;
    };
    let Some(begun) = after_number(rest).strip_prefix(BEFORE_BEGUN) else {
        return false;
    };
    // The number has ten digits until the year 2286.
    let rest = after_number(begun);
    head.starts_with("HTTP/1.1 200 OK\r\n") && begun.len() == rest.len() + 10 && rest == AFTER_BEGUN
}
