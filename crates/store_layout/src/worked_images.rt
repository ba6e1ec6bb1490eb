//! Worked values of regions, first sectors, checkpoints and openings. Each function does nothing,
//! and the values are in its contract.

ghost use Rattle.std.specs.Prelude.{◌≡◌, ℕ, List, [], ◌∷◌, replicate, Ok, Err, Some, None};
ghost use Rattle.store_layout.specs.declared.half.Half.TheVariants.{First, Second};
ghost use Rattle.store_layout.specs.Layout.{area_at, gate_at, journal_at, image_sectors};
ghost use Rattle.store_layout.specs.FirstSector.{title_encoding, geometry_in};
ghost use Rattle.store_layout.specs.Checkpoint.{checkpoint_encoding, first_checkpoint};
ghost use Rattle.store_layout.specs.CheckpointReading.{NoHalf, SameEpoch, BadCheckpoint, NewerFormat, head_in, checkpoint_in};
ghost use Rattle.store_layout.specs.Opening.{OpensTo};
ghost use Rattle.store_layout.specs.OpeningReading.{choice};
ghost use Rattle.store_layout.specs.WorkedImages.{raw_rows, raw_store, small, small_title, empty_area, head_with, area_with_size, checkpoint_with, small_image};

/// The sectors of the regions of the smallest store.
pub fn worked_regions()
    ensures gate { gate_at small First ≡ 3 }
    ensures journal { journal_at small First ≡ 4 }
    ensures second { area_at small Second ≡ 520 }
    ensures second_gate { gate_at small Second ≡ 522 }
    ensures second_journal { journal_at small Second ≡ 523 }
    ensures all { image_sectors small ≡ 1039 }
{}

/// The first bytes of the sector 0 of that store, and that zeros are no store.
pub fn worked_titles()
    ensures title { title_encoding small ≡ small_title }
    ensures zeros { geometry_in (replicate 512 0) ≡ None }
{}

/// A checkpoint without rows, and how areas are read where version 2 is the greatest that is known.
pub fn worked_checkpoints()
    ensures empty { checkpoint_encoding raw_rows (first_checkpoint raw_store 2) ≡ empty_area 2 1 0 }
    ensures head { head_in 2 (empty_area 2 7 5) ≡ Ok (head_with 2 7 5) }
    ensures older { head_in 2 (empty_area 1 7 5) ≡ Ok (head_with 1 7 5) }
    ensures newer { head_in 2 (empty_area 3 7 5) ≡ Err (NewerFormat 3) }
    ensures zero { head_in 2 (empty_area 0 7 5) ≡ Err BadCheckpoint }
    ensures magic { head_in 2 (replicate 512 0) ≡ Err BadCheckpoint }
    ensures no_rows { checkpoint_in raw_rows 2 (area_with_size 0 0) ≡ checkpoint_with (head_with 2 1 0) 0 [] }
    ensures rows { checkpoint_in raw_rows 2 (area_with_size 1 224) ≡ checkpoint_with (head_with 2 1 0) 0 (replicate 480 0) }
    ensures long { checkpoint_in raw_rows 2 (area_with_size 1 225) ≡ Err BadCheckpoint }
{}

/// The half that is chosen, by the heads of both.
pub fn worked_choices()
    ensures none { choice None None ≡ Err NoHalf }
    ensures one { choice (Some (head_with 2 1 0)) None ≡ Ok First }
    ensures newer { choice (Some (head_with 2 1 0)) (Some (head_with 2 2 9)) ≡ Ok Second }
    ensures older { choice (Some (head_with 2 2 9)) (Some (head_with 2 1 0)) ≡ Ok First }
    ensures same { choice (Some (head_with 2 1 0)) (Some (head_with 2 1 9)) ≡ Err SameEpoch }
{}

/// An image of the smallest size, zeros from sector 4 on, is a new store.
pub fn worked_opening()
    ensures { (behind : List ℕ) → behind ≡ replicate 529920 0 → OpensTo raw_store 2 (small_image behind) (record { db = raw_store.empty; place = 0 }) }
{}
