//! A journal that is read piece by piece.

ghost use Rattle.std.specs.Prelude.{◌≡◌, ℕ, ◌+◌, ◌*◌, ◌≤◌, List, length};
ghost use Rattle.byte_lists.specs.Sectors.{whole_sectors};
ghost use Rattle.byte_lists.specs.declared.format.TheConstants.{SECTOR};
ghost use Rattle.gate_journal.specs.Scanning.{first_wanted, count_wanted, IsReadUpTo, TakesPiece, CountsForReading};

use crate::encoding::payload_sectors;
use crate::error::JournalError;
use crate::header::{Header, read_header};
use crate::records::read_payload;
use byte_lists::is_open;
use path_db::Command;
use std::alloc::Global;
use std::marker::Model;

/// The reading of a journal.
#[derive(Drop)]
pub struct Scan {
    /// The commands, in their order.
    pub commands: Vec<Command>,
    /// The sector of the gate at which the journal ends, counted from the journal's start.
    pub tail: u64,
    /// Whether the journal ends with a seal. Otherwise the gate is closed.
    pub sealed: bool,
    /// The place reached: the one after the last command.
    pub place: u64,
}

/// What a scanner reads next.
#[derive(Clone, Copy)]
pub enum Stage {
    /// The gate.
    AtGate,
    /// The first sector after the gate, which is open.
    AtHeader,
    /// The whole payload of a group of this number of commands, whose records have this number of
    /// bytes.
    AtPayload(u8, u32),
}

/// Sectors of a journal, counted from its start.
#[derive(Clone, Copy)]
pub struct Piece {
    /// The first sector.
    pub first: u64,
    /// The number of sectors.
    pub count: u64,
}

/// A journal that is read up to a gate. The scanner asks for one piece after the other, and takes
/// each.
#[derive(Drop)]
pub struct Scanner {
    sectors: u64,
    version: u32,
    gate: u64,
    place: u64,
    stage: Stage,
    commands: Vec<Command>,
}

impl Model for Scanner {
    ghost use Rattle.std.specs.Prelude.{◌≤◌};
    ghost use Rattle.store_layout.specs.Group.{last_place};
    ghost use Rattle.gate_journal.specs.ScannerView.{ScannerView, IsInside};

    ghost Value = { ScannerView };

    ghost view = { λ s. record {
      sectors = s.sectors;
      version = s.version;
      gate = s.gate;
      place = s.place;
      stage = s.stage;
      commands = s.commands.items;
    } };

    ghost invariant = { λ s. IsInside s.stage s.sectors s.gate s.place × (s.sectors ≤ last_place) };
}

/// How far a journal is read.
#[derive(Drop)]
pub enum Progress {
    /// The journal is not read to its end yet.
    More(Scanner),
    /// The journal was read to its end.
    Done(Scan),
}

impl Scanner {
    ghost use Rattle.gate_journal.specs.declared.scanner.Stage.TheVariants.{AtGate, AtHeader, AtPayload};

    /// The start of a journal of this number of sectors, which is read by the version of its store.
    /// The first command must have this place.
    pub fn new(alloc: Global, sectors: u64, place: u64, version: u32) -> Scanner
        requires { 1 ≤ sectors }
        ensures version { result.version ≡ version }
        ensures sectors { result.sectors ≡ sectors }
        ensures start { (bytes : List ℕ) → whole_sectors bytes ≡ sectors → IsReadUpTo result bytes place }
    {
        Scanner {
            sectors,
            version,
            gate: 0,
            place,
            stage: Stage::AtGate,
            commands: Vec::new(alloc),
        }
    }

    /// The piece that the scanner reads next: a gate, the sector after it, or a whole payload. The
    /// piece is one of those sectors that count for the reading.
    pub fn wanted(&self) -> Piece
        ensures first { result.first ≡ first_wanted self.now }
        ensures count { result.count ≡ count_wanted self.now }
        ensures some { 1 ≤ result.count }
        ensures inside { result.first + result.count ≤ self.now.sectors }
        ensures needed { CountsForReading self.now (result.first + result.count) }
    {
        match self.stage {
            Stage::AtGate => Piece {
                first: self.gate,
                count: 1,
            },
            Stage::AtHeader => Piece {
                first: self.gate + 1,
                count: 1,
            },
            Stage::AtPayload(_, size) => Piece {
                first: self.gate + 1,
                count: payload_sectors(u64::from(size)),
            },
        }
    }

    /// Reads the piece for which `wanted` asks.
    pub fn take(self, alloc: Global, piece: &[u8]) -> Result<Progress, JournalError>
        requires { length piece.now ≡ SECTOR * count_wanted self }
        ensures { TakesPiece self piece.now result }
    {
        match self.stage {
            Stage::AtGate => self.take_gate(piece),
            Stage::AtHeader => self.take_header(piece),
            Stage::AtPayload(count, size) => self.take_payload(alloc, count, size, piece),
        }
    }

    /// Reads the gate.
    fn take_gate(self, piece: &[u8]) -> Result<Progress, JournalError>
        requires { self.stage ≡ AtGate }
        ensures { TakesPiece self piece.now result }
    {
        if !is_open(piece) {
            return Ok(Progress::Done(self.end(false)));
        }
        if self.sectors - self.gate < 2 {
            return Err(JournalError::PastEnd);
        }
        Ok(Progress::More(Scanner {
            sectors: self.sectors,
            version: self.version,
            gate: self.gate,
            place: self.place,
            stage: Stage::AtHeader,
            commands: self.commands,
        }))
    }

    /// Reads the first sector of the payload.
    fn take_header(self, piece: &[u8]) -> Result<Progress, JournalError>
        requires stage { self.stage ≡ AtHeader }
        requires sector { length piece.now ≡ SECTOR }
        ensures { TakesPiece self piece.now result }
    {
        match read_header(piece, self.version, self.gate, self.place, self.sectors)? {
            Header::Group(count, size) => Ok(Progress::More(Scanner {
                sectors: self.sectors,
                version: self.version,
                gate: self.gate,
                place: self.place,
                stage: Stage::AtPayload(count, size),
                commands: self.commands,
            })),
            Header::Seal => Ok(Progress::Done(self.end(true))),
        }
    }

    /// Reads the payload of a group.
    fn take_payload(
        self,
        alloc: Global,
        count: u8,
        size: u32,
        piece: &[u8],
    ) -> Result<Progress, JournalError>
        requires stage { self.stage ≡ AtPayload count size }
        requires payload { length piece.now ≡ SECTOR * count_wanted self }
        ensures { TakesPiece self piece.now result }
    {
        let mut commands = self.commands;
        read_payload(alloc, count, size, piece, self.version, &mut commands)?;
        Ok(Progress::More(Scanner {
            sectors: self.sectors,
            version: self.version,
            gate: self.gate + 1 + payload_sectors(u64::from(size)),
            place: self.place + u64::from(count),
            stage: Stage::AtGate,
            commands,
        }))
    }

    /// The reading of the journal, which ends at the scanner's gate.
    fn end(self, sealed: bool) -> Scan
        ensures commands { result.commands.items ≡ self.commands }
        ensures tail { result.tail ≡ self.gate }
        ensures sealed { result.sealed ≡ sealed }
        ensures place { result.place ≡ self.place }
    {
        Scan {
            commands: self.commands,
            tail: self.gate,
            sealed,
            place: self.place,
        }
    }
}
