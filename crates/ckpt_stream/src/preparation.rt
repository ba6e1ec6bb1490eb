//! Reading a sealed half in pieces, before its checkpoint is begun.

ghost use Rattle.std.specs.Prelude.{◌≡◌, ◌≤◌, ◌-◌, ◌↔◌, IfErr, OnOk, OnErr, IsTrue};
ghost use Rattle.sector_dev.specs.Disk.{IsHonest, reads_of};
ghost use Rattle.store_layout.specs.Layout.{Geometry as GeometryView, IsGeometry, image_sectors};
ghost use Rattle.store_layout.specs.Geometry.{geometry_view};
ghost use Rattle.store_open.specs.Sealed.{LooksAtHalf};
ghost use Rattle.store_open.specs.declared.error.SealedError.TheVariants.{Damaged as IsDamaged};
ghost use Rattle.ckpt_stream.specs.Preparation.{SealedContents, HasSealed, IsUnread, is_whole, calls_left, IsPreparedFrom};

use crate::half_read::HalfRead;
use sector_dev::Device;
use std::alloc::Global;
use std::marker::Model;
use std::mem::replace;
use store_layout::{Geometry, Half};
use store_open::SealedError;

/// What is read and settled of a sealed half so far, for the checkpoint that begins from it. It is
/// right as long as nobody writes to that half.
#[derive(Drop)]
pub struct Preparation {
    pub(crate) read: HalfRead,
}

impl Model for Preparation {
    ghost use Rattle.ckpt_stream.specs.Preparation.{PreparationView, preparation_view, IsPreparation};

    ghost Value = { PreparationView };

    ghost view = { preparation_view };

    ghost invariant = { IsPreparation };
}

impl Preparation {
    /// A preparation of which nothing is read yet.
    pub fn new() -> Preparation
        ensures unread { IsUnread result }
        ensures from { (geometry : GeometryView) (contents : SealedContents) → IsPreparedFrom geometry contents result }
    {
        Preparation {
            read: HalfRead::Unread,
        }
    }

    /// Whether everything is read, so that to begin the checkpoint reads no more than the rows of
    /// its first piece.
    pub fn is_whole(&self) -> bool
        ensures is { result ≡ is_whole self.now }
        ensures left { IsTrue result ↔ calls_left self.now ≡ 0 }
    {
        matches!(self.read, HalfRead::Planned(_))
    }

    /// Reads the next piece of a sealed half: 64 sectors, less at the end of the area or of the
    /// journal, and more where the group that ends the piece goes on after them. Once all are read,
    /// a call settles what some of the journal's commands leave, and reads nothing. Where the
    /// device fails, memory is refused or the half is `Damaged`, the preparation begins anew.
    pub fn read_on<D: Device>(
        &mut self,
        alloc: Global,
        device: &mut D,
        geometry: Geometry,
        half: Half,
    ) -> Result<(), SealedError>
        requires allowed { IsGeometry (geometry_view geometry) }
        requires room { image_sectors (geometry_view geometry) ≤ (D.disk device.old).sectors }
        ensures looks { LooksAtHalf result (D.disk device.old) (D.disk device.new) }
        ensures nearer { OnOk result (calls_left self.new ≤ calls_left self.old - 1) }
        ensures anew { OnErr result (IsUnread self.new) }
        ensures from { IsHonest (D.disk device.old) → (contents : SealedContents)
            → HasSealed (geometry_view geometry) half contents (reads_of (D.disk device.old))
            → IsPreparedFrom (geometry_view geometry) contents self.old → IsPreparedFrom (geometry_view geometry) contents self.new }
        ensures damaged { IfErr result (λ e. e ≡ IsDamaged → IsHonest (D.disk device.old) → (contents : SealedContents)
            → HasSealed (geometry_view geometry) half contents (reads_of (D.disk device.old))
            → ¬ IsPreparedFrom (geometry_view geometry) contents self.old) }
    {
        let read = replace(&mut self.read, HalfRead::Unread);
        if !read.is_within(geometry) {
            return Err(SealedError::Damaged);
        }
        self.read = read.read_next(alloc, device, geometry, half)?;
        Ok(())
    }
}
