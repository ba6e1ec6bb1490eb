//! What the words after the name of a request ask for.

ghost use Rattle.std.specs.Prelude.{◌≡◌};
ghost use Rattle.cli_ask.specs.Faults.{word_number};
ghost use Rattle.cli_ask.specs.Steps.{at_once_of};

use cli_words::Request;
use isd_as::{IaError, IsdAs, parse};
use row_lines::type_named;
use seg_core::SegType;
use std::fmt;

/// What the words ask for.
#[derive(Clone, Copy, Debug, PartialEq, Eq)]
pub enum Asked<'a> {
    /// A server is asked this.
    Question(Question),
    /// The segments of the lines of this file are registered; `-` is standard input.
    Registration(&'a str),
}

/// What a server is asked.
#[derive(Clone, Copy, Debug, PartialEq, Eq)]
pub enum Question {
    /// The segments that a lookup from the first to the second gives.
    Lookup(IsdAs, IsdAs),
    /// All segments of a type, or of all types, whose ends these patterns cover.
    List(Option<SegType>, IsdAs, IsdAs),
    /// What expires at this moment or before, in half seconds since 1970, is dropped, or what has
    /// expired now. It is dropped by several commands, each of which drops a part.
    Purge(Option<u64>),
    /// The same, by one command.
    PurgeAtOnce(Option<u64>),
    /// The segment of the type and the id is dropped.
    Remove(SegType, [u8; 32]),
}

impl Question {
    /// The same, but that a purge is one command.
    pub fn at_once(self) -> Question
        ensures { result ≡ at_once_of self }
    {
        match self {
            Question::Purge(moment) => Question::PurgeAtOnce(moment),
            other => other,
        }
    }
}

/// Why a word is none that its request has: the number of the word, from 1 on, and the reason.
#[derive(Clone, Copy, Debug, PartialEq, Eq)]
pub enum WordError {
    /// It is none of `up`, `down` and `core`.
    Type(u8),
    /// It is no ISD-AS.
    IsdAs(u8, IaError),
    /// It is no number of decimal digits below 2^64.
    Number(u8),
    /// It is no id of 64 hexadecimal digits.
    Id(u8),
}

impl WordError {
    /// The number of the word, from 1 on.
    pub fn number(&self) -> u8
        ensures { result ≡ word_number self.now }
    {
        match self {
            WordError::Type(number)
            | WordError::IsdAs(number, _)
            | WordError::Number(number)
            | WordError::Id(number) => *number,
        }
    }
}

impl fmt::Display for WordError {
    fn fmt<W: fmt::Write>(&self, f: &mut fmt::Formatter<W>) -> fmt::Result {
        match self {
            WordError::Type(_) => write!(f, "is none of up, down and core"),
            WordError::IsdAs(_, error) => write!(f, "is no ISD-AS: {error}"),
            WordError::Number(_) => write!(f, "is no number of half seconds since 1970"),
            WordError::Id(_) => write!(f, "is no id of 64 hexadecimal digits"),
        }
    }
}

/// What a request asks for by the words after its name. A word that is left out of a list covers
/// everything.
pub fn asked_of<'a>(request: Request, words: &[&'a str]) -> Result<Asked<'a>, WordError> {
    match request {
        Request::Lookup => Ok(Asked::Question(lookup_of(words)?)),
        Request::List => Ok(Asked::Question(list_of(words)?)),
        Request::Register => Ok(Asked::Registration(word_at(words, 1).unwrap_or(""))),
        Request::Purge => Ok(Asked::Question(Question::Purge(moment_at(words, 1)?))),
        Request::Remove => Ok(Asked::Question(removal_of(words)?)),
    }
}

/// The lookup of these words: its source and its destination.
fn lookup_of(words: &[&str]) -> Result<Question, WordError> {
    let source = side_at(words, 1)?;
    let destination = side_at(words, 2)?;
    Ok(Question::Lookup(source, destination))
}

/// The list of these words: a type, if there is one, and the patterns of both ends.
fn list_of(words: &[&str]) -> Result<Question, WordError> {
    let kind = type_at(words, 1)?;
    let start = side_at(words, 2)?;
    let end = side_at(words, 3)?;
    Ok(Question::List(kind, start, end))
}

/// The removal of these words: a type and an id.
fn removal_of(words: &[&str]) -> Result<Question, WordError> {
    let Some(kind) = type_at(words, 1)? else {
        return Err(WordError::Type(1));
    };
    let id = id_at(words, 2)?;
    Ok(Question::Remove(kind, id))
}

/// The ISD-AS that covers all.
const EVERYTHING: IsdAs = IsdAs { isd: 0, asn: 0 };

/// The word of this number, from 1 on.
fn word_at<'a>(words: &[&'a str], number: u8) -> Option<&'a str> {
    words.get(usize::from(number).wrapping_sub(1)).copied()
}

/// The ISD-AS of the word of this number. A word that is not there covers all.
fn side_at(words: &[&str], number: u8) -> Result<IsdAs, WordError> {
    match word_at(words, number) {
        Some(word) => match parse(word) {
            Ok(side) => Ok(side),
            Err(error) => Err(WordError::IsdAs(number, error)),
        },
        None => Ok(EVERYTHING),
    }
}

/// The type of the word of this number, if it is there.
fn type_at(words: &[&str], number: u8) -> Result<Option<SegType>, WordError> {
    match word_at(words, number) {
        Some(word) => match type_named(word) {
            Some(kind) => Ok(Some(kind)),
            None => Err(WordError::Type(number)),
        },
        None => Ok(None),
    }
}

/// The moment of the word of this number, if it is there: decimal digits, with no sign.
fn moment_at(words: &[&str], number: u8) -> Result<Option<u64>, WordError> {
    let Some(word) = word_at(words, number) else {
        return Ok(None);
    };
    if !word.bytes().all(|byte| byte.is_ascii_digit()) {
        return Err(WordError::Number(number));
    }
    match word.parse::<u64>() {
        Ok(moment) => Ok(Some(moment)),
        Err(_) => Err(WordError::Number(number)),
    }
}

/// The id of the word of this number.
fn id_at(words: &[&str], number: u8) -> Result<[u8; 32], WordError> {
    let mut id = [0; 32];
    let word = word_at(words, number).unwrap_or("");
    match hex::decode_to_slice(word, &mut id) {
        Ok(()) => Ok(id),
        Err(_) => Err(WordError::Id(number)),
    }
}
