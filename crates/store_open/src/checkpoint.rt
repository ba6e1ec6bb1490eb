//! A checkpoint at rest.

ghost use Rattle.sector_dev.specs.Image.{IsFromImage};
ghost use Rattle.sector_dev.specs.Stretch.{Stretch};
ghost use Rattle.store_open.specs.Allowing.{AllowsCheckpoint};
ghost use Rattle.store_open.specs.Behind.{SameBehind};
ghost use Rattle.store_open.specs.Store.{Checkpoints, OpensToStore};

use crate::error::StoreError;
use crate::laying::BUFFER;
use crate::store::Store;
use crate::taking_over::take_over;
use ckpt_pair::{Head, area_room, checkpoint_head};
use path_records::written_rows_are_counted;
use sector_dev::Device;
use store_layout::LATEST;

impl<D: Device> Store<D> {
    /// Writes all rows to the other half, with the next epoch, in version `LATEST`, piece by piece,
    /// and syncs. Then it opens that half, syncs, closes the old half and its journal in one write,
    /// and syncs. A store whose device fails in between is broken for good.
    pub fn checkpoint(&mut self) -> Result<(), StoreError>
        ensures answer { Checkpoints result self.old self.new }

        // At every moment each image that a stop may leave opens to these rows at this place.
        ensures any_moment { Stretch self.old.disk self.new.disk (OpensToStore self.old) }

        // At every moment the bytes after the store are unchanged.
        ensures behind { Stretch self.old.disk self.new.disk (IsFromImage self.old.disk.history.now (SameBehind self.old.geometry)) }
    {
        written_rows_are_counted();
        self.may_checkpoint()?;
        let (epoch, place) = (self.head.epoch + 1, self.place);
        let Ok(mut buffer) = vec![in self.alloc; 0; BUFFER] else {
            return Err(StoreError::NoMemory);
        };
        let head = checkpoint_head(&self.db, epoch, place);
        match take_over(
            &mut self.device,
            self.geometry,
            self.chosen,
            &head,
            &self.db,
            &mut buffer,
        ) {
            Ok(()) => {
                self.chosen = self.chosen.other();
                self.head = Head {
                    version: LATEST,
                    epoch,
                    place,
                };
                self.gate = 0;
                self.sealed_len = self.db.encoded_len();
                Ok(())
            }
            Err(_) => {
                self.broken = true;
                Err(StoreError::Fault)
            }
        }
    }

    /// Whether a checkpoint may be made. The error is the first reason why not.
    fn may_checkpoint(&self) -> Result<(), StoreError>
        ensures { AllowsCheckpoint result self.now }
    {
        if self.broken {
            return Err(StoreError::Broken);
        }
        if self.sealed {
            return Err(StoreError::Sealed);
        }
        if self.head.epoch == u64::MAX {
            return Err(StoreError::Exhausted);
        }
        if self.db.encoded_len() > area_room(self.geometry.checkpoint) {
            return Err(StoreError::Unfit);
        }
        Ok(())
    }
}
