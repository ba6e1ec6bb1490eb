//! A line of a server on standard error.

ghost use Rattle.std.specs.Prelude.{◌≡◌};
ghost use Rattle.cli_program.specs.Priorities.{line_priority, report_priority};

use cli_commands::{Line, Priority};
use path_server::Report;
use sector_dev::FileFault;
use std::fmt;
use std::fmt::{Display, Formatter};

/// What a line says.
#[derive(Drop)]
pub(crate) enum ServerLine {
    /// What a server reported.
    Report(Report),
    /// What failed in the store's file.
    Fault(FileFault),
    /// The server is ready, and its start took so long.
    Ready { milliseconds: u64 },
    /// A line of the program's own, with its priority.
    Text(Priority, String),
}

impl Display for ServerLine {
    fn fmt<W: fmt::Write>(&self, f: &mut Formatter<W>) -> fmt::Result {
        match self {
            ServerLine::Report(report) => write!(f, "{}", *report),
            ServerLine::Fault(fault) => write!(f, "{}", *fault),
            ServerLine::Ready { milliseconds } => write!(f, "ready in {milliseconds} ms"),
            ServerLine::Text(_, text) => write!(f, "{}", text.as_str()),
        }
    }
}

impl Line for ServerLine {
    ghost priority_of = { λ line. line_priority line };

    fn priority(&self) -> Priority {
        match self {
            ServerLine::Report(report) => report_priority(report),
            ServerLine::Fault(_) => Priority::Error,
            ServerLine::Ready { .. } => Priority::Info,
            ServerLine::Text(priority, _) => *priority,
        }
    }
}

/// The priority of a report.
fn report_priority(report: &Report) -> Priority
    ensures { result ≡ report_priority report.now }
{
    match report {
        Report::Stopped
        | Report::Exhausted
        | Report::HalfDamaged { .. }
        | Report::Overfull
        | Report::Defect => Priority::Error,
        Report::TurnedAway(_)
        | Report::LookupsTurnedAway(_)
        | Report::AddressFull(_)
        | Report::NoThread(_)
        | Report::NotAccepted { .. }
        | Report::Faulted { .. }
        | Report::NotPurged(_)
        | Report::PurgesRest(_)
        | Report::PurgedMost { .. }
        | Report::NoMemory(_) => Priority::Warning,
        Report::Ready
        | Report::PurgedAgain
        | Report::PurgesGoOn
        | Report::MemoryGiven(_)
        | Report::CheckpointBegun
        | Report::CheckpointDone { .. } => Priority::Info,
    }
}
