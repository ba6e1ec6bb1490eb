//! Sector 0 of a store, as it is read and made, and the first checkpoint of a new store.

ghost use Rattle.std.specs.Prelude.{◌≡◌, ℕ, ◌≤◌, List, length, IfOk};
ghost use Rattle.std.specs.Option.{option_map, IfSome};
ghost use Rattle.byte_lists.specs.Content.{part};
ghost use Rattle.byte_lists.specs.Sectors.{whole_sectors, padded};
ghost use Rattle.byte_lists.specs.declared.format.TheConstants.{SECTOR};
ghost use Rattle.sector_dev.specs.Disk.{IsHonest, reads_of};
ghost use Rattle.sector_dev.specs.Calls.{Keeps, count_after};
ghost use Rattle.store_layout.specs.FirstSector.{geometry_in};
ghost use Rattle.store_layout.specs.Layout.{IsGeometry, image_sectors};
ghost use Rattle.store_layout.specs.Geometry.{geometry_view};
ghost use Rattle.store_open.specs.Looking.{LooksAt};
ghost use Rattle.store_open.specs.NewStore.{DeviceHasRoomFor};
ghost use Rattle.store_open.specs.Titles.{has_title, sizes_told, titled_sizes};
ghost use Rattle.store_layout.specs.FirstSector as laws;
ghost use Rattle.store_open.specs.NewStore as written;

use crate::scanning::read_sector;
use byte_lists::{put, read_u32, read_u64};
use ckpt_pair::checkpoint_front;
use sector_dev::{DevError, Device, SECTOR};
use store_layout::Geometry;

/// The eight letters SCPATHDB as one big-endian number, at the front of sector 0.
pub(crate) const STORE_MAGIC: u64 = 0x5343504154484442;
/// The number of the layout.
pub(crate) const LAYOUT: u32 = 1;
/// The offset of the number of the layout, four bytes.
pub(crate) const LAYOUT_AT: usize = 8;
/// The offset of the number of sectors of a checkpoint area, four bytes.
pub(crate) const CHECKPOINT_AT: usize = 12;
/// The offset of the number of sectors of a journal, four bytes.
pub(crate) const JOURNAL_AT: usize = 16;

/// The sizes of the store on a device, from its sector 0; `None` where the bytes that reads return
/// are no store. The device is unchanged.
pub fn read_geometry<D: Device>(device: &mut D) -> Result<Option<Geometry>, DevError>
    ensures keeps { Keeps (D.disk device.old) (D.disk device.new) }
    ensures faults { (D.disk device.new).faults ≡ count_after result (D.disk device.old).faults }
    ensures history { IsHonest (D.disk device.old) → (D.disk device.new).history ≡ (D.disk device.old).history }
    ensures room { IfOk result (λ found. IfSome found (λ geometry. DeviceHasRoomFor (geometry_view geometry) (D.disk device.new))) }
    ensures read { IfOk result (λ found. IsHonest (D.disk device.old) → option_map geometry_view found ≡ geometry_in (reads_of (D.disk device.old))) }
{
    let sectors = device.sectors();
    if sectors == 0 {
        return Ok(None);
    }
    let mut sector = [0; SECTOR];
    device.read(0, &mut sector)?;
    Ok(geometry_of(&sector, sectors))
}

/// The sizes in sector 0, where it is that of a store for which this number of sectors is enough.
fn geometry_of(sector: &[u8], sectors: u64) -> Option<Geometry>
    requires { length sector.now ≡ SECTOR }
    ensures room { IfSome result (λ geometry. IsGeometry (geometry_view geometry) × (image_sectors (geometry_view geometry) ≤ sectors)) }
    ensures read { (image : List ℕ) → part 0 SECTOR image ≡ sector.now → whole_sectors image ≡ sectors → option_map geometry_view result ≡ geometry_in image }
{
    let geometry = sizes_of(sector)?;
    if sectors < geometry.sectors() {
        return None;
    }
    Some(geometry)
}

/// Whether sector 0 begins with the name of a store, whatever else is on the device: that of a
/// store that was cut or damaged does too. The device is unchanged.
pub fn has_title<D: Device>(device: &mut D) -> Result<bool, DevError>
    ensures looks { LooksAt result (D.disk device.old) (D.disk device.new) }
    ensures title { IfOk result (λ found. IsHonest (D.disk device.old) → found ≡ has_title (D.disk device.old)) }
{
    if device.sectors() == 0 {
        return Ok(false);
    }
    let sector = read_sector(device, 0)?;
    Ok(read_u64(&sector, 0) == STORE_MAGIC)
}

/// The sizes that sector 0 says of a store, however many sectors the device has; `None` where
/// sector 0 is no store's. The device is unchanged.
pub fn titled_sizes<D: Device>(device: &mut D) -> Result<Option<Geometry>, DevError>
    ensures looks { LooksAt result (D.disk device.old) (D.disk device.new) }
    ensures sizes { IfOk result (λ found. IsHonest (D.disk device.old) → option_map geometry_view found ≡ titled_sizes (D.disk device.old)) }
{
    if device.sectors() == 0 {
        return Ok(None);
    }
    let sector = read_sector(device, 0)?;
    Ok(sizes_of(&sector))
}

/// The sizes in sector 0, where it is that of a store.
fn sizes_of(sector: &[u8]) -> Option<Geometry>
    requires { length sector.now ≡ SECTOR }
    ensures { option_map geometry_view result ≡ sizes_told sector.now }
{
    if read_u64(sector, 0) != STORE_MAGIC || read_u32(sector, LAYOUT_AT) != LAYOUT {
        return None;
    }
    let geometry = Geometry {
        checkpoint: read_u32(sector, CHECKPOINT_AT),
        journal: read_u32(sector, JOURNAL_AT),
    };
    if !geometry.is_allowed() {
        return None;
    }
    Some(geometry)
}

/// Sector 0: the name (8 bytes) and the number of the layout (4), and the two sizes (4 each),
/// big-endian.
pub(crate) fn title_sector(geometry: Geometry) -> [u8; 512]
    ensures { result ≡ laws.first_sector (geometry_view geometry) }
{
    let mut sector = [0; SECTOR];
    put(&mut sector, 0, &STORE_MAGIC.to_be_bytes());
    put(&mut sector, LAYOUT_AT, &LAYOUT.to_be_bytes());
    put(
        &mut sector,
        CHECKPOINT_AT,
        &geometry.checkpoint.to_be_bytes(),
    );
    put(&mut sector, JOURNAL_AT, &geometry.journal.to_be_bytes());
    sector
}

/// The checkpoint of a new store: epoch 1, place 0, no rows.
pub(crate) fn first_checkpoint() -> [u8; 512]
    ensures { result ≡ padded written.first_checkpoint_bytes }
{
    let mut sector = [0; SECTOR];
    put(&mut sector, 0, &checkpoint_front(1, 0, 0, 0));
    sector
}
