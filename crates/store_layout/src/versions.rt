//! The versions of the format, and what each allows in the groups of a journal.

ghost use Rattle.std.specs.Prelude.{◌≡◌, ◌≤◌};
ghost use Rattle.store_layout.specs.Limits.{allows, limits_of};
ghost use Rattle.store_layout.specs.declared.versions.TheConstants.{MOST_COMMANDS};

/// The greatest version of the format that is known. Checkpoints are written in this version.
pub const LATEST: u32 = 2;

/// The most commands of a group in any version.
pub const MOST_COMMANDS: usize = 32;

/// The most commands of a group in version 1.
const FIRST_MOST_COMMANDS: usize = 8;

/// The kinds of commands that a version may allow.
#[derive(Clone, Copy, Debug, PartialEq, Eq)]
pub enum JournalKind {
    /// Registrations of segments.
    Registration,
    /// Purges of the rows that have expired at a moment.
    Purge,
    /// Removals of a segment by its type and id.
    Removal,
}

/// The most commands of a group in a version: 8 in version 1, and 32 from version 2 on.
pub fn most_commands(version: u32) -> usize
    ensures exact { result ≡ (limits_of version).most }
    ensures some { 1 ≤ result }
    ensures few { result ≤ MOST_COMMANDS }
{
    if version <= 1 {
        FIRST_MOST_COMMANDS
    } else {
        MOST_COMMANDS
    }
}

/// Whether a version allows commands of a kind: removals from version 2 on, and registrations and
/// purges in each version.
pub fn allows(version: u32, kind: JournalKind) -> bool
    ensures { result ≡ allows (limits_of version) kind }
{
    match kind {
        JournalKind::Registration | JournalKind::Purge => true,
        JournalKind::Removal => version > 1,
    }
}
