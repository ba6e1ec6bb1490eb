//! The server's lines on standard error, and the program's wishes for the server.

ghost use Rattle.std.specs.Prelude.{◌≡◌};

use crate::input::read_to_the_end;
use crate::server_line::ServerLine;
use crate::signals::Signals;
use crate::starting::milliseconds_since;
use crate::system::Host;
use crate::usage::UsageFiles;
use cli_commands::{Lines, Priority};
use path_server::{Report, Reports, Usage};
use sector_dev::LastFault;
use std::alloc::{AllocError, Global};
use std::io::Read;
use std::sync::{Arc, Wait};
use std::thread;
use std::time::{Clock, Instant};

/// What the threads of the program and those of its server share.
#[derive(Drop)]
struct Shared {
    lines: Lines<ServerLine>,
    signals: Signals,
    /// What failed last in the store's file.
    last_fault: Arc<LastFault>,
    /// What says what the process uses, where the system has it.
    usage: Option<UsageFiles>,
}

/// Takes the reports of a server, and has a thread of its own print them on standard error, a line
/// each, unless the program should be quiet. A thread that reports waits for no print.
#[derive(Drop)]
pub(crate) struct Notices<R> {
    rt: R,
    /// When the start of the server began, where the clock could be read.
    begun: Option<Instant>,
    is_quiet: bool,
    shared: Arc<Shared>,
}

impl<R: Host> Notices<R> {
    /// Starts the thread that prints, unless the program should be quiet. Each line begins with its
    /// priority where `is_marked` says so. Memory is refused where no thread is given. `last_fault`
    /// is that of the store's file.
    pub(crate) fn new(
        rt: &R,
        is_quiet: bool,
        is_marked: bool,
        last_fault: &Arc<LastFault>,
        usage: Option<UsageFiles>,
    ) -> Result<Notices<R>, AllocError> {
        let alloc: Global = rt.alloc();
        let shared = Arc::new(
            alloc,
            Shared {
                lines: Lines::new(alloc, is_marked)?,
                signals: Signals::new(),
                last_fault: Arc::try_clone(last_fault)?,
                usage,
            },
        )?;
        if !is_quiet {
            let theirs = Arc::try_clone(&shared)?;
            let host = rt.clone()?;
            let _printing = thread::spawn(rt, move || theirs.lines.print_all(&host))?;
        }
        Ok(Notices {
            rt: rt.clone()?,
            begun: Instant::now(rt).ok(),
            is_quiet,
            shared,
        })
    }

    /// The handle of the system.
    pub(crate) fn host(&self) -> &R
        ensures { result.now ≡ self.now.rt }
    {
        &self.rt
    }

    /// Has a line of the program's own printed, unless the program should be quiet. A line for
    /// which there was no memory is left out.
    pub(crate) fn say(&self, line: Result<String, AllocError>) {
        self.say_as(Priority::Info, line);
    }

    /// The same, for a line of a priority.
    pub(crate) fn say_as(&self, priority: Priority, line: Result<String, AllocError>) {
        if let Ok(text) = line
            && !self.is_quiet
        {
            let line = ServerLine::Text(priority, text);
            self.shared.lines.push(&self.rt, line);
        }
    }

    /// The rows of the store that was opened do not fit, so the server's store stops at once.
    pub(crate) fn note_overfull(&self) {
        self.shared.signals.note_overfull();
        self.push(Report::Overfull);
    }

    /// Waits until the server is ready or has ended. Returns whether it was ever ready.
    pub(crate) fn wait_until_ready(&self) -> bool {
        self.shared.signals.wait_until_ready(&self.rt)
    }

    /// The server has ended.
    pub(crate) fn note_over(&self) {
        self.shared.signals.note_over(&self.rt);
    }

    /// Asks the server to end.
    pub(crate) fn ask_for_end(&self) {
        self.shared.signals.ask_for_end();
    }

    /// Starts a thread that asks the server to end once an input has ended. Memory is refused where
    /// no thread is given.
    pub(crate) fn end_with<I: Read + Drop + Send + 'static>(
        &self,
        input: I,
    ) -> Result<(), AllocError> {
        let theirs = Arc::try_clone(&self.shared)?;
        let host = self.rt.clone()?;
        let _reading = thread::spawn(&self.rt, move || {
            read_to_the_end(&host, input);
            theirs.signals.ask_for_end();
        })?;
        Ok(())
    }

    /// Waits until the lines that wait are printed, for at most a second.
    pub(crate) fn flush(&self) {
        if !self.is_quiet {
            self.shared.lines.flush(&self.rt);
        }
    }

    /// Ends the lines: waits until those that wait are printed, for at most a second.
    pub(crate) fn end(&self) {
        if !self.is_quiet {
            self.shared.lines.end(&self.rt);
        }
    }
}

impl<R: Wait> Notices<R> {
    /// Has what failed last in the store's file printed, unless nothing did, or the program should
    /// be quiet.
    fn push_fault(&self) {
        if let Some(fault) = self.shared.last_fault.get()
            && !self.is_quiet
        {
            self.shared.lines.push(&self.rt, ServerLine::Fault(fault));
        }
    }

    /// Has a report printed, unless the program should be quiet.
    fn push(&self, report: Report) {
        if !self.is_quiet {
            self.shared.lines.push(&self.rt, ServerLine::Report(report));
        }
    }
}

impl<R: Wait + Clock> Notices<R> {
    /// Has a line printed that says how long the start of the server took, from the making of these
    /// notices on, unless the program should be quiet.
    fn push_ready(&self) {
        let milliseconds = milliseconds_since(&self.rt, self.begun);
        if !self.is_quiet {
            let line = ServerLine::Ready { milliseconds };
            self.shared.lines.push(&self.rt, line);
        }
    }
}

impl<R: Wait + Clock> Reports for Notices<R> {
    fn report(&self, report: Report) {
        match report {
            Report::Ready => {
                self.push_ready();
                self.shared.signals.note_ready(&self.rt);
            }
            // It is no fault of the device, and was said when the store was opened.
            Report::Stopped if self.shared.signals.is_overfull() => {}
            Report::Stopped => {
                self.push_fault();
                self.push(report);
            }
            _ => self.push(report),
        }
    }

    fn wants_end(&self) -> bool {
        self.shared.signals.wants_end()
    }

    fn dropped(&self) -> u64 {
        self.shared.lines.dropped(&self.rt)
    }

    fn usage(&self) -> Option<Usage> {
        match &self.shared.usage {
            Some(files) => files.usage(),
            None => None,
        }
    }
}
