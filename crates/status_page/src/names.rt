//! The names of the metrics, and what the page says of each.

pub(crate) const ROWS: &str = "pathd_rows";

pub(crate) const ROWS_HELP: &str = "Segments in the store.";

pub(crate) const ROWS_BY_TYPE: &str = "pathd_rows_by_type";

pub(crate) const ROWS_BY_TYPE_HELP: &str = "Segments in the store, by type.";

pub(crate) const ROW_BYTES: &str = "pathd_rows_bytes";

pub(crate) const ROW_BYTES_HELP: &str = "Bytes of the records of these segments.";

pub(crate) const MOST_BYTES: &str = "pathd_rows_limit_bytes";

pub(crate) const MOST_BYTES_HELP: &str = "Bytes of records that have room.";

pub(crate) const COMMANDS: &str = "pathd_commands_total";

pub(crate) const COMMANDS_HELP: &str = "Commands that were committed since the store was made.";

pub(crate) const PENDING: &str = "pathd_commands_pending";

pub(crate) const PENDING_HELP: &str = "Commands that are accepted and not committed yet.";

pub(crate) const STOPPED: &str = "pathd_stopped";

pub(crate) const STOPPED_HELP: &str = "1 where the store takes no more commands.";

pub(crate) const EPOCH: &str = "pathd_epoch";

pub(crate) const EPOCH_HELP: &str = "Number of the checkpoint that counts.";

pub(crate) const FORMAT: &str = "pathd_format_version";

pub(crate) const FORMAT_HELP: &str = "Version of the format of the half that counts.";

pub(crate) const SEALED: &str = "pathd_journal_sealed";

pub(crate) const SEALED_HELP: &str = "1 where a full journal awaits its checkpoint.";

pub(crate) const JOURNAL: &str = "pathd_journal_sectors";

pub(crate) const JOURNAL_HELP: &str = "Sectors of one of the two journals.";

pub(crate) const JOURNAL_USED: &str = "pathd_journal_used_sectors";

pub(crate) const JOURNAL_USED_HELP: &str =
    "Sectors that groups have taken in the journal to which the next group goes.";

pub(crate) const FLUSHER: &str = "pathd_flusher_phase";

pub(crate) const FLUSHER_HELP: &str = "1 for the step that the flusher is in.";

pub(crate) const CHECKPOINTER: &str = "pathd_checkpointer_phase";

pub(crate) const CHECKPOINTER_HELP: &str = "1 for the step that the checkpointer is in.";

pub(crate) const CALLS: &str = "pathd_call_seconds";

pub(crate) const CALLS_HELP: &str =
    "Time that the call of the device has taken so far, where it is under way.";

pub(crate) const GROUPS: &str = "pathd_groups_total";

pub(crate) const GROUPS_HELP: &str = "Groups of commands that were committed.";

pub(crate) const SEALS: &str = "pathd_seals_total";

pub(crate) const SEALS_HELP: &str = "Journals that were sealed.";

pub(crate) const CHECKPOINTS: &str = "pathd_checkpoints_total";

pub(crate) const CHECKPOINTS_HELP: &str = "Checkpoints that were completed.";

pub(crate) const CHECKPOINT_TIME: &str = "pathd_checkpoint_seconds_total";

pub(crate) const CHECKPOINT_TIME_HELP: &str = "Time that the completed checkpoints took.";

pub(crate) const WAITS: &str = "pathd_memory_waits";

pub(crate) const WAITS_HELP: &str = "1 where the thread was refused memory, and tries again.";

pub(crate) const COMMITS: &str = "pathd_commit_seconds";

pub(crate) const COMMITS_HELP: &str = "Time from the first step of a group to its commit.";

pub(crate) const SESSIONS: &str = "pathd_sessions";

pub(crate) const SESSIONS_HELP: &str = "Sessions that are open.";

pub(crate) const STARTED: &str = "pathd_sessions_started_total";

pub(crate) const STARTED_HELP: &str = "Sessions that were started.";

pub(crate) const REFUSED: &str = "pathd_sessions_refused_total";

pub(crate) const REFUSED_HELP: &str = "Connections that were refused a session, by the reason.";

pub(crate) const ENDS: &str = "pathd_session_ends_total";

pub(crate) const ENDS_HELP: &str = "Sessions that have ended, by the cause.";

pub(crate) const REPLIES: &str = "pathd_replies_total";

pub(crate) const REPLIES_HELP: &str = "Replies to messages that were not refused, by kind.";

pub(crate) const OUTCOMES: &str = "pathd_outcomes_total";

pub(crate) const OUTCOMES_HELP: &str =
    "Segments and rows of acknowledged commands, by what became of them.";

pub(crate) const PURGES_RESTING: &str = "pathd_purges_resting";

pub(crate) const PURGES_RESTING_HELP: &str =
    "1 where the server's own purges rest, since its clock is not trusted.";

pub(crate) const OWN_PURGED: &str = "pathd_own_purged_rows_total";

pub(crate) const OWN_PURGED_HELP: &str = "Segments that the server's own purges have dropped.";

pub(crate) const LOOKUPS: &str = "pathd_lookup_seconds";

pub(crate) const LOOKUPS_HELP: &str =
    "Time from a whole message of a lookup to the segments of its reply.";

pub(crate) const DROPPED: &str = "pathd_notices_dropped_total";

pub(crate) const DROPPED_HELP: &str = "Notices that were dropped, since the log took none.";

pub(crate) const UPTIME: &str = "pathd_uptime_seconds";

pub(crate) const UPTIME_HELP: &str = "Time that the server has run.";

pub(crate) const BEGUN: &str = "process_start_time_seconds";

pub(crate) const BEGUN_HELP: &str = "When the server began, in seconds since 1970.";

pub(crate) const MEMORY: &str = "process_resident_memory_bytes";

pub(crate) const MEMORY_HELP: &str = "Bytes of memory that the process has in use.";

pub(crate) const PROCESSOR: &str = "process_cpu_seconds_total";

pub(crate) const PROCESSOR_HELP: &str = "Processor time of the process, in user and system mode.";

pub(crate) const OPEN_FILES: &str = "process_open_fds";

pub(crate) const OPEN_FILES_HELP: &str = "File descriptors that the process has open.";

pub(crate) const MOST_FILES: &str = "process_max_fds";

pub(crate) const MOST_FILES_HELP: &str = "File descriptors that the process may have open.";

pub(crate) const BUILD: &str = "pathd_build_info";

pub(crate) const BUILD_HELP: &str =
    "1 for the version of the program, and the format that its checkpoints have.";

pub(crate) const REFUSALS: &str = "pathd_refusals_total";

pub(crate) const REFUSALS_HELP: &str = "Messages that were refused, by code.";
