//! The lines of a drawing.

ghost use Rattle.std.specs.Prelude.{◌≡◌, Some, IfOk, IfErr, string_bytes};
ghost use Rattle.store_layout.specs.Geometry.{geometry_view};
ghost use Rattle.cli_store.specs.Drawing.{title_line, BeginsWithTitle, DrawsSo};
ghost use Rattle.cli_store.specs.Writing.{IsOfWriting};

use crate::error::Fault;
use crate::halves::{HalfFound, Halves};
use crate::walking::{End, Walk};
use crate::writing::write_all;
use std::alloc::{AllocError, Global};
use std::io::Write;
use store_layout::Half;
use store_open::Geometry;

/// Draws a store on a device of this number of sectors.
pub(crate) fn draw_store<W: Write>(
    alloc: Global,
    geometry: Geometry,
    sectors: u64,
    halves: &Halves,
    writer: &mut W,
) -> Result<(), Fault>
    ensures drawn { DrawsSo result (Some (geometry_view geometry)) (W.contents writer.old) (W.contents writer.new) }
    ensures of_writing { IfErr result IsOfWriting }
{
    let Ok(text) = drawing(alloc, geometry, sectors, halves) else {
        return Err(Fault::Memory);
    };
    write_all(writer, text.as_bytes())
}

fn drawing(
    alloc: Global,
    geometry: Geometry,
    sectors: u64,
    halves: &Halves,
) -> Result<String, AllocError>
    ensures { IfOk result (λ text. BeginsWithTitle (geometry_view geometry) (string_bytes text)) }
{
    let title = title_line(alloc, geometry)?;
    let first = half_lines(alloc, geometry, Half::First, halves.first)?;
    let second = half_lines(alloc, geometry, Half::Second, halves.second)?;
    let behind = behind_line(alloc, geometry.sectors(), sectors)?;
    let choice = choice_line(alloc, geometry, halves)?;
    format!(in alloc; "{title}{first}{second}{behind}{choice}")
}

/// The first line: sector 0, and the sizes in it.
fn title_line(alloc: Global, geometry: Geometry) -> Result<String, AllocError>
    ensures { IfOk result (λ line. string_bytes line ≡ title_line (geometry_view geometry)) }
{
    let checkpoint = geometry.checkpoint;
    let journal = geometry.journal;
    format!(in alloc;
        "0               store         checkpoint {checkpoint}, journal {journal} sectors\n"
    )
}

/// A line: the sectors, the region, and what is read there.
fn line(
    alloc: Global,
    at: u64,
    count: u64,
    region: &str,
    what: &str,
) -> Result<String, AllocError> {
    let range = if count == 1 {
        format!(in alloc; "{at}")?
    } else {
        let last = at.saturating_add(count).saturating_sub(1);
        format!(in alloc; "{at}-{last}")?
    };
    format!(in alloc; "{range:<16}{region:<14}{what}\n")
}

/// The lines of a half.
fn half_lines(
    alloc: Global,
    geometry: Geometry,
    half: Half,
    found: HalfFound,
) -> Result<String, AllocError> {
    let name = name_of(half);
    let (area, gate) = head_texts(alloc, found)?;
    let journal = journal_text(alloc, geometry.journal_at(half), found.journal)?;
    let area_name = format!(in alloc; "checkpoint {name}")?;
    let gate_name = format!(in alloc; "gate {name}")?;
    let journal_name = format!(in alloc; "journal {name}")?;
    let at = geometry.area_at(half);
    let first = line(alloc, at, u64::from(geometry.checkpoint), &area_name, &area)?;
    let second = line(alloc, geometry.gate_at(half), 1, &gate_name, gate)?;
    let start = geometry.journal_at(half);
    let third = line(
        alloc,
        start,
        u64::from(geometry.journal),
        &journal_name,
        &journal,
    )?;
    format!(in alloc; "{first}{second}{third}")
}

/// The texts of an area, and of the gate after it.
fn head_texts(alloc: Global, found: HalfFound) -> Result<(String, &'static str), AllocError> {
    let count = found.count;
    let size = found.size;
    Ok(match found.head {
        Ok(Some(head)) => {
            let version = head.version;
            let epoch = head.epoch;
            let place = head.place;
            let title = format!(in alloc; "version {version}, epoch {epoch}, place {place}")?;
            (
                format!(in alloc; "{title}, rows: {count}, bytes: {size}")?,
                "open",
            )
        }
        Ok(None) => (String::from_str(alloc, "free")?, "closed"),
        Err(error) => (format!(in alloc; "{error}")?, "open"),
    })
}

/// The text of a journal that begins in a sector.
fn journal_text(alloc: Global, start: u64, walk: Walk) -> Result<String, AllocError> {
    let groups = walk.groups;
    let place = walk.place;
    let sector = start.saturating_add(walk.gate);
    let end = match walk.end {
        End::Closed => "ends at the closed gate in sector",
        End::Sealed => "sealed in sector",
        End::Broken => "no group behind the gate in sector",
        End::Past => "past its end at sector",
    };
    if groups == 0 {
        return format!(in alloc; "groups: 0, {end} {sector}");
    }
    format!(in alloc; "groups: {groups}, up to place {place}, {end} {sector}")
}

/// The line of the sectors after the store.
fn behind_line(alloc: Global, store: u64, sectors: u64) -> Result<String, AllocError> {
    if sectors <= store {
        return Ok(String::new(alloc));
    }
    line(
        alloc,
        store,
        sectors - store,
        "behind",
        "no part of the store",
    )
}

/// The line of which half is chosen, and where the tail is.
fn choice_line(alloc: Global, geometry: Geometry, halves: &Halves) -> Result<String, AllocError> {
    match halves.choice() {
        Ok(choice) => {
            let name = name_of(choice.half);
            let tail = name_of(choice.tail);
            let gate = halves.get(choice.tail).journal.gate;
            let sector = geometry.journal_at(choice.tail).saturating_add(gate);
            format!(in alloc;
                "half {name} is chosen, and the tail is in journal {tail}, at sector {sector}\n"
            )
        }
        Err(error) => format!(in alloc; "no half is chosen: {error}\n"),
    }
}

fn name_of(half: Half) -> &'static str {
    match half {
        Half::First => "1",
        Half::Second => "2",
    }
}
