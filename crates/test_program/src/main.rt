//! Whole command lines of `pathd`, each with what it prints, on standard output and then on
//! standard error, and its status: words that are refused, help, `once`, the commands over the file
//! of a store, of damaged ones too, and a server with its peers in the same process, up to as many
//! sessions as may be open at one time. The files are made in the folder that the program runs in.
#![tactic(auto)]

mod copies;
mod damaged;
mod given;
mod images;
mod input;
mod once;
mod output;
mod parts;
mod passed;
mod peers;
mod served;
mod stores;
mod words;

use crate::given::{ADDRESS, Bound, Given};
use crate::images::Change;
use crate::input::Input;
use crate::output::Output;
use crate::parts::{Before, Line};
use crate::peers::meet;
use byte_lists::SECTOR;
use cli_program::carry_out;
use std::collections::VecDeque;
use std::fs::{File, OpenOptions};
use std::io::{Print, Stdout, Write};
use std::net::{TcpListener, TcpStream};
use std::os::unix::fs::FileExt;
use std::rt::Files;
use std::sync::{Arc, Wait};
use std::time::Clock;
use std::{fs, io, thread};

/// The file of a store, and the one that is made of it.
const STORED: &str = "store";

const CHANGED: &str = "damaged";

/// The handles of the system.
type Handles = (Option<File>, Option<TcpListener>, Option<TcpStream>);

fn main(rt: HostRuntime) -> io::Result<()> {
    let bound = Arc::new(rt.alloc(), Bound::new(&rt, rt.alloc())?)?;
    // Each module hands its table out: the prover writes a constant out where it is named.
    let all = [
        words::parts(),
        once::parts(),
        stores::parts(),
        damaged::parts(),
        served::parts(),
        copies::parts(),
    ];
    for part in all.into_iter().flatten() {
        println!(rt; "# {}", part.what)?;
        let _lock = prepared(&rt, &part.before)?;
        for line in part.lines {
            println!(rt; "$ {}", line.0)?;
            let GivenLine {
                given,
                input,
                output,
            } = asked(rt, rt.stdout(), &bound, &part.before, *line)?;
            let (status, met) = thread::join(
                &rt,
                || {
                    // The prover takes the handles of a runtime from the types that the closure
                    // names.
                    let none: Handles = (None, None, None);
                    drop(none);
                    carry_out(&given, input, output)
                },
                || meet(&rt, rt.alloc(), &bound, &part.peers),
            );
            print_end(&rt, &given, status, met)?;
        }
    }
    Ok(())
}

/// A command line that is carried out: its system, its input and its output.
struct GivenLine<R> {
    given: Given<R>,
    input: Input,
    output: Output,
}

/// The system, the input and the output of a line.
fn asked<R: AllocGlobal + Files<File = File> + Wait + Clock + Drop>(
    rt: R,
    standard: Stdout,
    bound: &Arc<Bound>,
    before: &Before,
    (line, texts): Line,
) -> io::Result<GivenLine<R>> {
    let words = words_of(&rt, line, bound)?;
    let input = Input::new(joined(&rt, texts)?, before);
    let output = Output::new(&rt, standard, before)?;
    let given = Given::new(rt, words, bound, matches!(before, Before::NoLog))?;
    Ok(GivenLine {
        given,
        input,
        output,
    })
}

/// Prints what a line has said on standard error, its status, and what its peers were replied.
fn print_end<R: AllocGlobal + Print + Wait + Clock + Drop>(
    rt: &R,
    given: &Given<R>,
    status: u8,
    met: io::Result<String>,
) -> io::Result<()> {
    print!(rt; "{}", given.said()?)?;
    println!(rt; "status {status}")?;
    print!(rt; "{}", met?)
}

/// The words of a line, with the address in the place of `ADDRESS`.
fn words_of(rt: &impl AllocGlobal, line: &str, bound: &Bound) -> io::Result<Vec<String>> {
    let mut words = Vec::new(rt.alloc());
    for word in line.split(' ') {
        let text = if word == ADDRESS {
            bound.text.as_str()
        } else {
            word
        };
        words.push(text.to_string(rt.alloc())?)?;
    }
    Ok(words)
}

/// The bytes of these texts, one after the other.
fn joined(rt: &impl AllocGlobal, texts: &[&str]) -> io::Result<VecDeque<u8>> {
    let mut all = VecDeque::new(rt.alloc());
    for text in texts {
        all.write_all(text.as_bytes())?;
    }
    Ok(all)
}

/// Has everything so as it is before a part: the lock, where there is one.
fn prepared<R: AllocGlobal + Files<File = File>>(
    rt: &R,
    before: &Before,
) -> io::Result<Option<File>> {
    match before {
        Before::Nothing | Before::NoRoom | Before::NoLog => Ok(None),
        Before::Locked => {
            let file = File::open(rt, STORED)?;
            file.lock_shared()?;
            Ok(Some(file))
        }
        Before::Changes(changes) | Before::Terminal(changes) => {
            change(rt, changes)?;
            Ok(None)
        }
    }
}

/// Makes the one file of the other, and changes it.
fn change<R: AllocGlobal + Files<File = File>>(rt: &R, changes: &[Change]) -> io::Result<()> {
    fs::copy(rt, STORED, CHANGED)?;
    let file = OpenOptions::new().write(true).open(rt, CHANGED)?;
    for (sector, bytes) in changes {
        file.write_all_at(bytes, sector.wrapping_mul(SECTOR as u64))?;
    }
    Ok(())
}
