//! A whole journal.

ghost use Rattle.std.specs.Prelude.{◌≡◌, ◌*◌, ◌≤◌, length, IfErr};
ghost use Rattle.byte_lists.specs.Sectors.{whole_sectors};
ghost use Rattle.byte_lists.specs.declared.format.TheConstants.{SECTOR};
ghost use Rattle.store_layout.specs.Limits.{limits_of};
ghost use Rattle.store_layout.specs.JournalReading.{journal_scan};
ghost use Rattle.gate_journal.specs.declared.error.JournalError.TheVariants.{NoMemory};
ghost use Rattle.gate_journal.specs.Commands.{command_format};
ghost use Rattle.gate_journal.specs.Reading.{GivesJournal};
ghost use Rattle.gate_journal.specs.Scanning.{reading_of, MayWantMemory};

use crate::error::JournalError;
use crate::scanner::{Progress, Scan, Scanner};
use byte_lists::SECTOR;
use std::alloc::Global;

/// Reads a journal of whole sectors by the version of its store. The first command must have this
/// place. The error is the first refusal in the order of the gates, and at each gate in the order
/// of the checks.
pub fn scan(alloc: Global, journal: &[u8], place: u64, version: u32) -> Result<Scan, JournalError>
    requires some { 1 ≤ whole_sectors journal.now }
    requires whole { length journal.now ≡ SECTOR * whole_sectors journal.now }
    ensures reading { GivesJournal reading_of result (journal_scan command_format (limits_of version) journal.now place) }
    ensures memory { IfErr result (λ e. e ≡ NoMemory → MayWantMemory (limits_of version) journal.now place) }
{
    let mut scanner = Scanner::new(alloc, (journal.len() / SECTOR) as u64, place, version);
    'pieces: loop {
        let wanted = scanner.wanted();
        let first = SECTOR * wanted.first as usize;
        let piece = &journal[first..first + SECTOR * wanted.count as usize];
        match scanner.take(alloc, piece)? {
            Progress::Done(scan) => return Ok(scan),
            Progress::More(next) => scanner = next,
        }
    }
}
