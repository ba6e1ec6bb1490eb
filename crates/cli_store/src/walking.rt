//! Walking over a journal by the headers of its groups.

ghost use Rattle.std.specs.Prelude.{◌+◌, ◌<◌, ◌≤◌, ◌^◌, IfOk};
ghost use Rattle.store_open.specs.Looking.{LooksAt};
ghost use Rattle.cli_store.specs.Walking.{GoesOnBehind};

use byte_lists::{is_open, read_u32, read_u64};
use gate_journal::{COUNT_AT, GROUP, PLACE_AT, SEAL, SIZE_AT, payload_sectors};
use sector_dev::{DevError, Device};
use store_open::read_sector;

/// How a journal ends.
#[derive(Clone, Copy, Debug, PartialEq, Eq)]
pub(crate) enum End {
    /// The journal ends at a closed gate.
    Closed,
    /// The journal ends with a seal.
    Sealed,
    /// The journal ends with what is neither a group nor a seal.
    Broken,
    /// The journal ends after its last sector.
    Past,
}

/// What the headers of a journal contain.
#[derive(Clone, Copy)]
pub(crate) struct Walk {
    /// The number of groups.
    pub groups: u64,
    /// The place after the last of them.
    pub place: u64,
    /// The sector of the gate where it ends, from the journal's start.
    pub gate: u64,
    pub end: End,
}

/// Goes from gate to gate over the journal in this number of sectors, which the device has. Records
/// are not read.
pub(crate) fn walk_journal<D: Device>(
    device: &mut D,
    start: u64,
    sectors: u64,
) -> Result<Walk, DevError>
    requires { start + sectors ≤ (D.disk device.old).sectors }
    ensures { LooksAt result (D.disk device.old) (D.disk device.new) }
{
    let mut groups = 0;
    let mut place = 0;
    let mut gate = 0;
    'groups: while gate < sectors {
        match next_step(device, start, sectors, gate)? {
            Step::Group(next, behind) => {
                groups += 1;
                place = behind;
                gate = next;
            }
            Step::End(end) => {
                return Ok(Walk {
                    groups,
                    place,
                    gate,
                    end,
                });
            }
        }
    }
    Ok(Walk {
        groups,
        place,
        gate,
        end: End::Past,
    })
}

/// What follows a gate.
#[derive(Clone, Copy)]
enum Step {
    /// A group: the next gate, and the place after the group.
    Group(u64, u64),
    End(End),
}

/// Reads a gate, and where it is open the header after it.
fn next_step<D: Device>(
    device: &mut D,
    start: u64,
    sectors: u64,
    gate: u64,
) -> Result<Step, DevError>
    requires within { gate < sectors }
    requires room { start + sectors ≤ (D.disk device.old).sectors }
    ensures looks { LooksAt result (D.disk device.old) (D.disk device.new) }
    ensures on { IfOk result (GoesOnBehind gate) }
{
    if !is_open(&read_sector(device, start + gate)?) {
        return Ok(Step::End(End::Closed));
    }
    if sectors - gate < 2 {
        return Ok(Step::End(End::Past));
    }
    let header = read_sector(device, start + gate + 1)?;
    Ok(step_behind(&header, gate))
}

/// The step that the header after an open gate leads to.
fn step_behind(header: &[u8; 512], gate: u64) -> Step
    requires { gate < 2 ^ 63 }
    ensures { GoesOnBehind gate result }
{
    match header[0] {
        GROUP => {
            let payload = payload_sectors(u64::from(read_u32(header, SIZE_AT)));
            let behind = read_u64(header, PLACE_AT).saturating_add(u64::from(header[COUNT_AT]));
            Step::Group(gate + 1 + payload, behind)
        }
        SEAL => Step::End(End::Sealed),
        _ => Step::End(End::Broken),
    }
}
