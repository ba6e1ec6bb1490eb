//! The command that asks a server.

use crate::addresses::is_address;
use crate::failure::Failure;
use crate::options::u32_in;
use crate::stores::form_in;
use clap::ArgMatches;
use cli_ask::{
    Answer, AskError, Asked, NamedCode, Question, Refusals, TcpLink, WordError, ask, asked_of,
    register,
};
use cli_words::{AT_ONCE, Request, SERVER, TIMEOUT, WAIT, request_in, words_in};
use row_lines::RowForm;
use session_clock::{Now, SystemNow};
use session_core::MOST_SEGMENTS;
use std::fs::File;
use std::io;
use std::io::{BufWriter, ErrorKind, Read, Write};
use std::net::{Net, TcpListener, TcpStream, ToSocketAddrs};
use std::rt::Files;
use std::time::{Clock, Duration, Instant};

/// The number of seconds that a connection or a reply may take where no option names it.
const TIMEOUT_SECONDS: u32 = 10;

/// The milliseconds between two attempts to connect.
const PAUSE: u64 = 100;

/// The file that means standard input.
const INPUT: &str = "-";

/// Asks a server, and prints what it answers. The words are judged before anything is opened, and
/// the file of a registration is opened before a connection is made. No clause says what is
/// printed, since none says what a server replies.
pub fn ask_server<
    'a,
    R: AllocGlobal
        + Clock
        + Eprint
        + Files<File = File>
        + Net<Listener = TcpListener, Stream = TcpStream>,
    I: Read,
    O: Write,
>(rt: &R, options: &ArgMatches<'a>, input: &mut I, output: &mut O) -> Result<(), Failure<'a>> {
    let wanted = asked_in(options)?;
    let text = options.get_str(SERVER).unwrap_or("");
    if !is_address(text) {
        return Err(Failure::Peer(text));
    }
    let limit = seconds_in(options, TIMEOUT, TIMEOUT_SECONDS);
    let wait = seconds_in(options, WAIT, 0);
    let Ok(mut writer) = BufWriter::new(rt.alloc(), output) else {
        return Err(Failure::Memory);
    };
    let way = Way {
        rt,
        server: text,
        limit,
        wait,
    };
    let form = form_in(options, RowForm::Dated);
    let answered = match wanted {
        Asked::Registration(INPUT) => way.register(input, form, &mut writer),
        Asked::Registration(path) => way.register_file(path, form, &mut writer),
        Asked::Question(question) => {
            let question = if options.get_flag(AT_ONCE) {
                question.at_once()
            } else {
                question
            };
            let answered = way.ask(&question, form, &mut writer);
            if let Ok(Answer::Cut) = answered {
                let _ = eprintln!(rt;
                    "pathd: {text}: {MOST_SEGMENTS} segments are the most of a lookup; there may be more, and 'list' has all"
                );
            }
            answered.map(|_| ())
        }
    };
    let flushed = writer.flush();
    match answered {
        Err(AskError::Output) => Err(Failure::Output),
        Err(error) => Err(Failure::Asked(text, error)),
        Ok(()) => flushed.map_err(|_| Failure::Output),
    }
}

/// What the words of a request ask for.
fn asked_in<'a>(options: &ArgMatches<'a>) -> Result<Asked<'a>, Failure<'a>> {
    let request = request_in(options).unwrap_or(Request::List);
    match words_in(options) {
        Some(words) => asked_of(request, words).map_err(|error| Failure::Word(
            word_of(words, error),
            error,
        )),
        None => asked_of(request, &[]).map_err(|error| Failure::Word("", error)),
    }
}

/// The word that is not what it has to be.
fn word_of<'a>(words: &[&'a str], error: WordError) -> &'a str {
    let at = usize::from(error.number()).wrapping_sub(1);
    words.get(at).copied().unwrap_or("")
}

/// The time of an option, or another number of seconds where the option is left out.
fn seconds_in(options: &ArgMatches<'_>, name: &str, other: u32) -> Duration {
    Duration::from_secs(u64::from(u32_in(options, name, other)))
}

/// The way to a server.
#[derive(Drop)]
struct Way<'r, R> {
    rt: &'r R,
    /// The text of its address.
    server: &'r str,
    /// The time that the connection may take, and each reply.
    limit: Duration,
    /// The time for which the server is awaited where there is no connection.
    wait: Duration,
}

impl<
    R: AllocGlobal
        + Clock
        + Eprint
        + Files<File = File>
        + Net<Listener = TcpListener, Stream = TcpStream>,
> Way<'_, R> {
    /// Connects to the server. Where it can't, it tries again until the time of the wait is over.
    /// What is left of that time may be the time of a reply, too: a server that opens its store
    /// takes connections, and answers none.
    fn connect(&self) -> Result<TcpLink<'_, R>, AskError> {
        let begun = Instant::now(self.rt).map_err(AskError::Connect)?;
        for _ in 0..u64::MAX {
            let came = self.connect_once();
            let elapsed = begun.elapsed(self.rt).map_err(AskError::Connect)?;
            let left = self.wait.saturating_sub(elapsed);
            match came {
                Ok(stream) => return TcpLink::new(self.rt, stream, self.limit.max(left)),
                Err(error) if left.is_zero() => return Err(AskError::Connect(error)),
                Err(_) => self.rt.sleep(Duration::from_millis(PAUSE).min(left)),
            }
        }
        Err(AskError::Timeout)
    }

    /// Connects to the first of the server's addresses that takes a connection. The error is that
    /// of the last one.
    fn connect_once(&self) -> io::Result<TcpStream> {
        let mut failed = io::Error::from(ErrorKind::NotFound);
        for address in self.server.to_socket_addrs(self.rt)? {
            match TcpStream::connect_timeout(self.rt, &address, self.limit) {
                Ok(stream) => return Ok(stream),
                Err(error) => failed = error,
            }
        }
        Err(failed)
    }

    /// Asks the server anything but to register.
    fn ask<O: Write>(
        &self,
        question: &Question,
        form: RowForm,
        output: &mut O,
    ) -> Result<Answer, AskError> {
        let now = SystemNow::new(self.rt).now();
        let mut link = self.connect()?;
        ask(self.rt.alloc(), &mut link, question, now, form, output)
    }

    /// Has the server register the lines of a file.
    fn register_file<O: Write>(
        &self,
        path: &str,
        form: RowForm,
        output: &mut O,
    ) -> Result<(), AskError> {
        let mut file = File::open(self.rt, path).map_err(AskError::Input)?;
        self.register(&mut file, form, output)
    }

    /// Has the server register the lines of an input.
    fn register<I: Read, O: Write>(
        &self,
        input: &mut I,
        form: RowForm,
        output: &mut O,
    ) -> Result<(), AskError> {
        let mut link = self.connect()?;
        let mut refusals = Said { rt: self.rt };
        register(
            self.rt.alloc(),
            &mut link,
            input,
            form,
            output,
            &mut refusals,
        )
    }
}

/// Says on standard error which lines were refused.
#[derive(Drop)]
struct Said<'r, R> {
    rt: &'r R,
}

impl<R: Eprint> Refusals for Said<'_, R> {
    fn refused(&mut self, line: u64, code: u8) {
        let _ = eprintln!(self.rt; "pathd: line {line} is refused by {}", NamedCode(code));
    }
}
