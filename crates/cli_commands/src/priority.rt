//! The priorities of lines on standard error.

ghost use Rattle.std.specs.Prelude.{◌≡◌};
ghost use Rattle.cli_commands.specs.declared.priority.Priority.{Priority};
ghost use Rattle.cli_commands.specs.Priorities.{mark_of, mark_where};

use std::fmt::Display;

/// How urgent a line is, as a log's reader selects lines by it.
#[derive(Clone, Copy, Debug, PartialEq, Eq)]
pub enum Priority {
    /// The server or its store has failed.
    Error,
    /// Something was refused, or was tried in vain.
    Warning,
    /// The server goes on as it should.
    Info,
}

impl Priority {
    /// What a line begins with, by which systemd's journal and syslog know its priority, and
    /// nothing where lines have no priority.
    pub fn mark_where(self, is_marked: bool) -> &'static str
        ensures { result.now ≡ mark_where self is_marked }
    {
        if is_marked { self.mark() } else { "" }
    }

    /// What a line of this priority begins with.
    fn mark(self) -> &'static str
        ensures { result.now ≡ mark_of self }
    {
        match self {
            Priority::Error => "<3>",
            Priority::Warning => "<4>",
            Priority::Info => "<6>",
        }
    }
}

/// A line of a server, without its priority.
pub trait Line: Display {
    /// The priority of the line.
    ghost priority_of: { Self → Priority };

    /// The priority of the line.
    fn priority(&self) -> Priority
        ensures { result ≡ priority_of self.now };
}
