//! The history of a device, which only proofs use. A trail takes no memory, and its functions do
//! nothing.
ghost use Rattle.std.specs.Prelude.{◌≡◌, List, [], ◌∷◌, ◌++◌};
ghost use Rattle.std.specs.Borrow.{ftrue};
ghost use Rattle.sector_dev.specs.Disk.{ByteRange, Moment};

use crate::PositionedFile;
use ghost_note::{Note, NoteSource};
use std::marker::Model;

/// A type whose values have bytes that contracts can name.
pub trait HoldsBytes {
    ghost use Rattle.std.specs.Prelude.{ℕ, List};

    ghost bytes: { Self → List ℕ };
}

impl HoldsBytes for Vec<u8> {
    ghost bytes = { λ v. v.items };
}

/// The moments of a device before now, and what is dirty now. No value of this type is made.
pub struct History {
    pub ghost past: { List Moment },
    pub ghost dirty: { List ByteRange },
}

impl Model for History {
    ghost also_owns = { λ _. ftrue };
}

/// The history of a device that contracts name and that no code keeps.
pub type Trail = Note<History>;

const _: () = prove!(size_of::<Trail>() == 0);

// No past moments, and nothing is dirty.
struct FreshStart;

impl NoteSource<History> for FreshStart {
    ghost value = { λ _. record { past = []; dirty = [] } };
}

// No past moments, and the dirty ranges of a file.
#[derive(Drop)]
struct FileStart<'a, F> {
    file: &'a F,
}

impl<'a, F: PositionedFile> NoteSource<History> for FileStart<'a, F> {
    ghost value = { λ start. record { past = []; dirty = (F.state start.file.now).dirty } };
}

// A write of a range, where these were the bytes before.
#[derive(Drop)]
struct WriteStep<'a, B> {
    trail: &'a Trail,
    before: &'a B,
    start: u64,
    len: usize,
}

impl<'a, B: HoldsBytes> NoteSource<History> for WriteStep<'a, B> {
    ghost value = { λ step. record { past = step.trail.now.value.past ++ record { reads = B.bytes step.before.now; dirty = step.trail.now.value.dirty } ∷ []; dirty = record { start = step.start; len = step.len } ∷ step.trail.now.value.dirty } };
}

// A sync, where these are the bytes.
#[derive(Drop)]
struct SyncStep<'a, B> {
    trail: &'a Trail,
    held: &'a B,
}

impl<'a, B: HoldsBytes> NoteSource<History> for SyncStep<'a, B> {
    ghost value = { λ step. record { past = step.trail.now.value.past ++ record { reads = B.bytes step.held.now; dirty = step.trail.now.value.dirty } ∷ []; dirty = [] } };
}

/// A trail without past moments, where nothing is dirty.
pub fn fresh_trail() -> Trail
    ensures { (result.value.past ≡ []) × (result.value.dirty ≡ []) }
{
    Note::of(&FreshStart)
}

/// A trail without past moments, with the dirty ranges of a file.
pub fn trail_over<F: PositionedFile>(file: &F) -> Trail
    ensures { (result.value.past ≡ []) × (result.value.dirty ≡ (F.state file.now).dirty) }
{
    Note::of(&FileStart { file })
}

/// The trail after a write of a range, where these were the bytes before.
pub fn trail_wrote<B: HoldsBytes>(trail: &Trail, before: &B, start: u64, len: usize) -> Trail
    ensures { (result.value.past ≡ trail.now.value.past ++ record { reads = B.bytes before.now; dirty = trail.now.value.dirty } ∷ [])
        × (result.value.dirty ≡ record { start = start; len = len } ∷ trail.now.value.dirty) }
{
    Note::of(&WriteStep {
        trail,
        before,
        start,
        len,
    })
}

/// The trail after a sync, where these are the bytes.
pub fn trail_synced<B: HoldsBytes>(trail: &Trail, held: &B) -> Trail
    ensures { (result.value.past ≡ trail.now.value.past ++ record { reads = B.bytes held.now; dirty = trail.now.value.dirty } ∷ [])
        × (result.value.dirty ≡ []) }
{
    Note::of(&SyncStep { trail, held })
}
