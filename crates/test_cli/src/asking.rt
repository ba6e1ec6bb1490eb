//! Asking before a store is lost: which answers agree, and what is printed and changed.

use crate::checks::{assert_same, assert_true};
use crate::commands::{SECTORS, formatted};
use crate::writers::{Room, assert_text, with_memory, with_room};
use cli_store::{Fault, Wishes, ask};
use sector_dev::{Device, MemDevice, SECTOR};
use std::alloc::Global;
use std::collections::VecDeque;
use std::io::Write;
use std::process::Abort;
use std::test::Fail;
use store_open::OpenError;
use test_fault_devices::FaultDevice;

/// What is asked for, what a person types, and what comes of it where a store is there.
#[derive(Clone, Copy)]
struct Asked {
    is_new: bool,
    is_forced: bool,
    is_terminal: bool,
    typed: &'static str,
    answer: Result<(), Fault>,
}

#[rattlefmt::skip]
const ASKED: &[Asked] = &[
    Asked { is_new: false, is_forced: false, is_terminal: false, typed: "no\n", answer: Ok(()) },
    Asked { is_new: true, is_forced: false, is_terminal: false, typed: "yes\n", answer: Err(Fault::Taken) },
    Asked { is_new: true, is_forced: false, is_terminal: true, typed: "yes\n", answer: Err(Fault::Taken) },
    Asked { is_new: false, is_forced: true, is_terminal: false, typed: "", answer: Ok(()) },
    Asked { is_new: false, is_forced: true, is_terminal: true, typed: "no\n", answer: Ok(()) },
    Asked { is_new: false, is_forced: false, is_terminal: true, typed: "yes\n", answer: Ok(()) },
    Asked { is_new: false, is_forced: false, is_terminal: true, typed: "no\n", answer: Err(Fault::Declined) },
    Asked { is_new: false, is_forced: false, is_terminal: true, typed: "", answer: Err(Fault::Declined) },
    Asked { is_new: false, is_forced: false, is_terminal: true, typed: "\n", answer: Err(Fault::Declined) },
    Asked { is_new: false, is_forced: false, is_terminal: true, typed: "y\n", answer: Err(Fault::Declined) },
    Asked { is_new: false, is_forced: false, is_terminal: true, typed: "yes", answer: Err(Fault::Declined) },
    Asked { is_new: false, is_forced: false, is_terminal: true, typed: "YES\n", answer: Err(Fault::Declined) },
    Asked { is_new: false, is_forced: false, is_terminal: true, typed: "yes\r\n", answer: Err(Fault::Declined) },
    Asked { is_new: false, is_forced: false, is_terminal: true, typed: "yes\n\n", answer: Err(Fault::Declined) },
];

/// All of these. The prover writes a constant out where it is named, so no loop names it.
fn all_asked() -> &'static [Asked] {
    ASKED
}

impl Asked {
    fn wishes(self) -> Wishes {
        Wishes {
            is_new: self.is_new,
            is_forced: self.is_forced,
            is_terminal: self.is_terminal,
        }
    }
}

/// What is printed of a new store before the answer.
const QUESTION: &str = "\
d has a store: version 2, place 0, 0 rows
A new store takes its place, and all that it has is lost. To go on, type yes: ";

/// A person at a terminal.
const PERSON: Wishes = Wishes {
    is_new: false,
    is_forced: false,
    is_terminal: true,
};

/// What a person types.
fn typed(alloc: Global, text: &str) -> Result<VecDeque<u8>, Fail> {
    let mut bytes = VecDeque::new(alloc);
    bytes.write_all(text.as_bytes())?;
    Ok(bytes)
}

/// The first sector of a device, which has one.
fn first_sector(rt: &impl Abort, device: &mut MemDevice) -> [u8; 512] {
    let mut sector = [0; SECTOR];
    if device.sectors() > 0 {
        let is_read = device.read(0, &mut sector).is_ok();
        assert_true(rt, is_read, "the first sector is read");
    }
    sector
}

/// What comes of asking about a device.
fn answer_about<D: Device>(
    alloc: Global,
    device: &mut D,
    wishes: Wishes,
    input: &mut VecDeque<u8>,
    output: &mut Room,
) -> Result<(), Fault> {
    ask(alloc, "d", device, wishes, input, output)
}

/// What comes of asking about a device in memory.
fn answer_to(
    alloc: Global,
    device: &mut MemDevice,
    asked: Asked,
    output: &mut Room,
) -> Result<Result<(), Fault>, Fail> {
    let mut input = typed(alloc, asked.typed)?;
    Ok(answer_about(alloc, device, asked.wishes(), &mut input, output))
}

/// Sees what comes of asking about a device in memory, and what is printed.
fn assert_asked(
    rt: &impl Abort,
    alloc: Global,
    device: &mut MemDevice,
    asked: Asked,
    (wanted, printed): (Result<(), Fault>, &str),
) -> Result<(), Fail> {
    let mut output = with_memory(alloc, 200)?;
    let answer = answer_to(alloc, device, asked, &mut output)?;
    assert_same(rt, &answer, &wanted, &asked.typed);
    assert_text(rt, &output, printed, &asked.typed);
    Ok(())
}

/// Sees what comes of asking about a store.
fn assert_of_store(rt: &impl Abort, alloc: Global, asked: Asked) -> Result<(), Fail> {
    let mut device = formatted(alloc)?;
    let before = first_sector(rt, &mut device);
    let question = if asked.wishes() == PERSON {
        QUESTION
    } else {
        ""
    };
    assert_asked(rt, alloc, &mut device, asked, (asked.answer, question))?;
    let after = first_sector(rt, &mut device);
    assert_true(rt, after == before, "the first sector is as it was");
    Ok(())
}

/// Sees that a store may be made where none is, and that nothing is asked.
fn assert_of_none(rt: &impl Abort, alloc: Global, asked: Asked) -> Result<(), Fail> {
    let mut device = MemDevice::new(alloc, SECTORS)?;
    assert_asked(rt, alloc, &mut device, asked, (Ok(()), ""))
}

#[test]
fn stores_that_are_there(rt: HostRuntime) -> Result<(), Fail> {
    for asked in all_asked() {
        assert_of_store(&rt, rt.alloc(), *asked)?;
    }
    Ok(())
}

#[test]
fn devices_without_a_store(rt: HostRuntime) -> Result<(), Fail> {
    for asked in all_asked() {
        assert_of_none(&rt, rt.alloc(), *asked)?;
    }
    Ok(())
}

/// What is printed before the answer of a store whose name is read before the device fails.
const NOT_OPENED: &str = "\
d has a store that does not open: the device failed
A new store takes its place, and all that it has is lost. To go on, type yes: ";

/// Sees what a person is answered who asks about a device, and what is printed with this much room.
fn assert_answered<D: Device>(
    rt: &impl Abort,
    alloc: Global,
    device: &mut D,
    input: &mut VecDeque<u8>,
    (room, wanted, printed): (usize, Result<(), Fault>, &str),
) {
    let mut output = with_room(alloc, room);
    let answer = answer_about(alloc, device, PERSON, input, &mut output);
    assert_same(rt, &answer, &wanted, &printed);
    assert_text(rt, &output, printed, &room);
}

/// The same, about a new store whose device fails at the call of this number.
fn assert_failing(
    rt: &impl Abort,
    alloc: Global,
    number: u64,
    input: &mut VecDeque<u8>,
    (wanted, printed): (Result<(), Fault>, &str),
) -> Result<(), Fail> {
    let mut failing = FaultDevice::new(formatted(alloc)?, number);
    assert_answered(rt, alloc, &mut failing, input, (200, wanted, printed));
    Ok(())
}

/// The same, about a new store whose output has room for ten bytes.
fn assert_full(rt: &impl Abort, alloc: Global, input: &mut VecDeque<u8>) -> Result<(), Fail> {
    let mut device = formatted(alloc)?;
    let wanted = (10, Err(Fault::Output), "d has a st");
    assert_answered(rt, alloc, &mut device, input, wanted);
    Ok(())
}

// What a person types is read by the last one alone, where it has a question.
#[test]
fn questions_that_fail(rt: HostRuntime) -> Result<(), Fail> {
    let alloc = rt.alloc();
    let mut input = typed(alloc, "yes\n")?;
    assert_full(&rt, alloc, &mut input)?;
    let failed = (Err(Fault::Open(OpenError::Device)), "");
    assert_failing(&rt, alloc, 0, &mut input, failed)?;
    assert_failing(&rt, alloc, 1, &mut input, (Ok(()), NOT_OPENED))
}
