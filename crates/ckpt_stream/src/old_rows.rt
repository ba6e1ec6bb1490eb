//! Reading the rows of a sealed half in pieces, each row once.

ghost use Rattle.std.specs.Prelude.{◌≡◌, ◌+◌, ◌-◌, ◌*◌, ◌^◌, ◌<◌, ◌≤◌, List, [], ℕ, length, take, IfOk, IfErr, OnOk, Some};
ghost use Rattle.byte_lists.specs.Sectors.{sectors_of};
ghost use Rattle.byte_lists.specs.declared.format.TheConstants.{SECTOR};
ghost use Rattle.sector_dev.specs.Disk.{IsHonest, reads_of};
ghost use Rattle.path_db.specs.declared.command.Command.{Command};
ghost use Rattle.path_db.specs.Command.{database_after_all};
ghost use Rattle.path_records.specs.RowRecord.{rows_decoding};
ghost use Rattle.store_layout.specs.declared.format.TheConstants.{BEFORE_ROWS};
ghost use Rattle.store_layout.specs.Layout.{IsGeometry, image_sectors};
ghost use Rattle.store_layout.specs.Geometry.{geometry_view};
ghost use Rattle.ckpt_pair.specs.Rows.{as_counted};
ghost use Rattle.ckpt_pair.specs.Stream.{HasStreamed};
ghost use Rattle.ckpt_stream.specs.Planner.{HasSeen};
ghost use Rattle.ckpt_stream.specs.Settling.{steps_to_settle};
ghost use Rattle.store_open.specs.Refusals.{LooksFor};
ghost use Rattle.store_open.specs.Sealed.{LooksAtHalf};
ghost use Rattle.ckpt_stream.specs.declared.half_read.HalfRead.TheVariants.{Rows};
ghost use Rattle.ckpt_stream.specs.OldRows.{AreRowsRead, RefusesRows, GoesOnInRows, AreSummedOn, AreSettled};
ghost use Rattle.ckpt_stream.specs.HalfRead.{IsHalfRead, IsWithin, pieces_to_come, ReadsOn};

use crate::ghosts::note::{RowsNote, and_row, no_rows, rows_after};
use crate::half_read::{HalfRead, RowsSettled};
use crate::making::row_part;
use crate::old_area::read_sectors;
use crate::planner::Planner;
use crate::sums::push_sums;
use byte_lists::SECTOR;
use ckpt_pair::{Front, RowStream};
use gate_journal::Scan;
use path_records::written_rows_are_counted;
use sector_dev::Device;
use std::alloc::{AllocError, Global};
use store_layout::{BEFORE_ROWS, Geometry, Half};
use store_open::{OpenError, SealedError};

/// The most sectors that a call reads of the rows.
pub(crate) const READ_SECTORS: u64 = 64;

/// The commands of the journal that a call names to the planner. A call copies all keys that are
/// named already, so from 64 times as many commands on it names a part of these: all calls together
/// copy some 64 times as many keys as there are, and not their square.
const NAMED: usize = 512;

/// The part of the commands named that a call may name beside them.
const PART: usize = 64;

/// The bytes of as many sectors.
const READ: usize = READ_SECTORS as usize * SECTOR;

/// The rows of a sealed half, read and planned up to a sector of its area.
#[derive(Drop)]
pub(crate) struct RowsRead {
    /// The front of the half's area.
    pub(crate) front: Front,
    /// The half's journal.
    pub(crate) journal: Scan,
    /// The number of the journal's first commands for which the planner plans. No row is read
    /// before it plans for all of them.
    pub(crate) named: usize,
    /// The rows so far, planned for these commands.
    pub(crate) planner: Planner,
    /// The bytes that are read and are no whole row yet.
    pub(crate) stream: RowStream,
    /// The rows so far.
    pub(crate) note: RowsNote,
    /// The sums of the sectors of the area that are read.
    pub(crate) sums: Vec<u64>,
    /// The number of sectors of the area that are read.
    pub(crate) first: u64,
}

/// The rows of an area before its first sector is read.
pub(crate) fn start_rows(alloc: Global, front: Front, journal: Scan) -> RowsRead
    ensures front { result.front ≡ front }
    ensures journal { result.journal ≡ journal }
    ensures first { result.first ≡ 0 }
    ensures sums { result.sums.items ≡ [] }
    ensures none { HasStreamed front.size front.count [] result.note.value result.stream }
    ensures read { AreRowsRead result }
    ensures few { pieces_to_come (Rows result) < 2 ^ 67 }
{
    let planner = Planner::new(alloc);
    let stream = RowStream::new(alloc, front.size, front.count);
    RowsRead {
        front,
        journal,
        named: 0,
        planner,
        stream,
        note: no_rows(),
        sums: Vec::new(alloc),
        first: 0,
    }
}

/// Names some commands of the journal to the planner. Once all are named, it reads on in the rows
/// of a half: at most 64 sectors. Where all sectors are read, what the journal's commands leave has
/// to be settled next.
pub(crate) fn rows_on<D: Device>(
    alloc: Global,
    device: &mut D,
    geometry: Geometry,
    half: Half,
    rows: RowsRead,
) -> Result<HalfRead, SealedError>
    requires allowed { IsGeometry (geometry_view geometry) }
    requires room { image_sectors (geometry_view geometry) ≤ (D.disk device.old).sectors }
    requires whole { IsHalfRead (Rows rows) }
    requires within { IsWithin (geometry_view geometry) (Rows rows) }
    ensures looks { LooksAtHalf result (D.disk device.old) (D.disk device.new) }
    ensures whole { IfOk result IsHalfRead }
    ensures within { IfOk result (IsWithin (geometry_view geometry)) }
    ensures nearer { IfOk result (λ next. pieces_to_come next ≤ pieces_to_come (Rows rows) - 1) }
    ensures reads { IsHonest (D.disk device.old) → ReadsOn (geometry_view geometry) half (reads_of (D.disk device.old)) (Rows rows) result }
{
    let mut rows = rows;
    if rows.named < rows.journal.commands.len() {
        name_next(&mut rows)?;
        return Ok(HalfRead::Rows(rows));
    }
    if rows.first == sectors_before_end(rows.front.size) {
        return Ok(HalfRead::Settled(settle_rows(rows)?));
    }
    make_room(&mut rows.sums, rows.first, rows.front.size)?;
    read_row_sectors(alloc, device, geometry.area_at(half), &mut rows)?;
    Ok(HalfRead::Rows(rows))
}

/// Takes the memory for the sums of all sectors up to the end of rows of `size` bytes, where no
/// sector is read. A list that grows would be copied by one call.
fn make_room(sums: &mut Vec<u64>, first: u64, size: u32) -> Result<(), AllocError>
    ensures { sums.new.items ≡ sums.old.items }
{
    if first == 0 {
        sums.reserve_exact(sectors_before_end(size) as usize)?;
    }
    Ok(())
}

/// Has the planner plan for the next commands of the journal.
fn name_next(rows: &mut RowsRead) -> Result<(), AllocError>
    requires read { AreRowsRead rows.old }
    requires more { rows.old.named < length rows.old.journal.commands.items }
    ensures same { rows.new ≡ record {
      front = rows.old.front;
      journal = rows.old.journal;
      named = rows.new.named;
      planner = rows.new.planner;
      stream = rows.old.stream;
      note = rows.old.note;
      sums = rows.old.sums;
      first = rows.old.first;
    } }
    ensures read { OnOk result (AreRowsRead rows.new) }
    ensures further { OnOk result (rows.old.named < rows.new.named) }
{
    let commands = &rows.journal.commands;
    let most = NAMED.max(rows.named / PART);
    let end = rows.named.saturating_add(most).min(commands.len());
    rows.planner.name(&commands[rows.named..end])?;
    rows.named = end;
    Ok(())
}

/// The number of sectors from the start of an area to the end of its rows, which have `size` bytes.
fn sectors_before_end(size: u32) -> u64
    ensures { result ≡ sectors_of (BEFORE_ROWS + size) }
{
    (BEFORE_ROWS as u64 + u64::from(size) + (SECTOR as u64 - 1)) / SECTOR as u64
}

/// Reads the next sectors of an area, at most 64, and sees the rows that end in them.
fn read_row_sectors<D: Device>(
    alloc: Global,
    device: &mut D,
    area: u64,
    rows: &mut RowsRead,
) -> Result<(), OpenError>
    requires room { SECTOR * area + BEFORE_ROWS + rows.old.front.size ≤ SECTOR * (D.disk device.old).sectors }
    requires read { AreRowsRead rows.old }
    requires more { rows.old.first < sectors_of (BEFORE_ROWS + rows.old.front.size) }
    requires named { length rows.old.journal.commands.items ≤ rows.old.named }
    ensures looks { LooksFor result (D.disk device.old) (D.disk device.new) }
    ensures front { rows.new.front ≡ rows.old.front }
    ensures journal { rows.new.journal ≡ rows.old.journal }
    ensures named { rows.new.named ≡ rows.old.named }
    ensures read { OnOk result (AreRowsRead rows.new) }
    ensures further { OnOk result (rows.old.first < rows.new.first) }
    ensures streamed { IsHonest (D.disk device.old) → GoesOnInRows area (reads_of (D.disk device.old)) rows.old rows.new result }
    ensures summed { IsHonest (D.disk device.old) → AreSummedOn area (reads_of (D.disk device.old)) rows.old
        → OnOk result (AreSummedOn area (reads_of (D.disk device.old)) rows.new) }
{
    let mut window = vec![in alloc; 0; READ]?;
    let first = rows.first;
    let count = (sectors_before_end(rows.front.size) - first).min(READ_SECTORS);
    read_sectors(device, area + first, count, &mut window)?;
    let part = row_part(&window, rows.front.size, first, count);
    push_sums(&mut rows.sums, first, count, part)?;
    let start = BEFORE_ROWS - (SECTOR * first as usize).min(BEFORE_ROWS);
    rows.stream.push(&window[start..SECTOR * count as usize])?;
    rows.first = first + count;
    see_rows(&mut rows.stream, &mut rows.planner, &mut rows.note)
}

/// Sees each row that a stream has whole.
fn see_rows(
    stream: &mut RowStream,
    planner: &mut Planner,
    note: &mut RowsNote,
) -> Result<(), OpenError>
    ensures seen { OnOk result ((commands : List Command) → HasSeen commands note.old.value planner.old → HasSeen commands note.new.value planner.new) }
    ensures streamed { OnOk result ((size count : ℕ) (pushed : List ℕ) → HasStreamed size count pushed note.old.value stream.old
        → HasStreamed size count pushed note.new.value stream.new) }
    ensures all { OnOk result ((size count : ℕ) (pushed : List ℕ) → HasStreamed size count pushed note.old.value stream.old → size ≤ length pushed
        → as_counted count (rows_decoding (take size pushed)) ≡ Some note.new.value) }
    ensures refused { IfErr result (RefusesRows note.old.value stream.old) }
{
    'rows: loop {
        match stream.next()? {
            Some(row) => {
                *note = and_row(&*note, &row);
                planner.see(row)?;
            }
            None => return Ok(()),
        }
    }
}

/// Sees the last rows, once all sectors are read, and begins to settle what the commands leave.
fn settle_rows(rows: RowsRead) -> Result<RowsSettled, OpenError>
    requires read { AreRowsRead rows }
    requires all { rows.first ≡ sectors_of (BEFORE_ROWS + rows.front.size) }
    requires named { length rows.journal.commands.items ≤ rows.named }
    ensures front { IfOk result (λ settled. settled.front ≡ rows.front) }
    ensures place { IfOk result (λ settled. settled.place ≡ rows.journal.place) }
    ensures after { IfOk result (λ settled. settled.after.value ≡ database_after_all settled.note.value rows.journal.commands.items) }
    ensures sums { IfOk result (λ settled. settled.sums.items ≡ rows.sums.items) }
    ensures settled { IfOk result AreSettled }
    ensures few { IfOk result (λ settled. steps_to_settle settled.settling < 2 ^ 65) }
    ensures rows { IfOk result (λ settled. (pushed : List ℕ) → HasStreamed rows.front.size rows.front.count pushed rows.note.value rows.stream
        → rows.front.size ≤ length pushed → as_counted rows.front.count (rows_decoding (take rows.front.size pushed)) ≡ Some settled.note.value) }
    ensures refused { IfErr result (RefusesRows rows.note.value rows.stream) }
{
    written_rows_are_counted();
    let mut rows = rows;
    see_rows(&mut rows.stream, &mut rows.planner, &mut rows.note)?;
    let (place, commands) = (rows.journal.place, rows.journal.commands);
    let after = rows_after(&rows.note, &commands);
    let settling = rows.planner.settle(commands)?;
    Ok(RowsSettled {
        front: rows.front,
        place,
        settling,
        note: rows.note,
        after,
        sums: rows.sums,
    })
}
