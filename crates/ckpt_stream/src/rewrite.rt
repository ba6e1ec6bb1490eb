//! The records after commands in pieces, from pieces of the records before.

ghost use Rattle.std.specs.Prelude.{◌≡◌, ◌<◌, ◌≤◌, ◌∷◌, true, false, length, drop};
ghost use Rattle.ckpt_stream.specs.declared.plan.Edit.TheVariants.{Keep};
ghost use Rattle.path_records.specs.declared.format.TheConstants.{PIECE};
ghost use Rattle.ckpt_stream.specs.declared.rewrite.TheConstants.{BUFFER};

use crate::plan::Edit;
use crate::rewrite_buffer::{cut_front, put_if_any, put_part};
use byte_lists::put;
use path_records::PIECE;
use row_map::{MOST_ROW_BYTES, Row};
use std::alloc::{AllocError, Global};
use std::marker::Model;
use std::mem::replace;

/// The bytes of the buffer: a piece, and the greatest record of a row.
const BUFFER: usize = PIECE + MOST_ROW_BYTES;

/// Turns the records before commands into the records after them, in pieces. The records before are
/// given in windows, which may be cut anywhere, and the bytes that are made are taken from the
/// buffer. The buffer has 147,461 bytes; after `new` a rewrite takes no memory. A row is dropped as
/// its record is made, so that the end of a rewrite drops no rows that were put.
#[derive(Drop)]
pub struct Rewrite {
    edits: Vec<Edit>,
    at: usize,
    kept: u32,
    rows: Vec<Option<Row>>,
    next: usize,
    position: u64,
    buffer: Vec<u8>,
    used: usize,
}

impl Model for Rewrite {
    ghost use Rattle.ckpt_stream.specs.Rewriting.{RewriteView, rewrite_view, IsRewrite};

    ghost Value = { RewriteView };

    ghost view = { rewrite_view };

    ghost invariant = { IsRewrite };
}

impl Rewrite {
    ghost use Rattle.std.specs.Prelude.{◌^◌, ◌⊎◌, None, IfOk, List, ℕ};
    ghost use Rattle.std.specs.Option.{ForSome};
    ghost use Rattle.ckpt_stream.specs.Edits.{bytes_in, views_if_any};
    ghost use Rattle.ckpt_stream.specs.Rewriting.{Rewrites, WhyStopped, IsOutside, left_to_keep, with_edit, with_next_row, untaken, untaken_len, edits_end, steps_left};

    /// A rewrite of the 32 bytes of a head, and of what the edits write with the rows that they
    /// put. It takes the memory of its buffer.
    pub fn new(
        alloc: Global,
        head: &[u8; 32],
        edits: Vec<Edit>,
        rows: Vec<Option<Row>>,
    ) -> Result<Rewrite, AllocError>
        requires { bytes_in edits.items < 2 ^ 33 }
        ensures { IfOk result (λ rewrite. rewrite ≡ record { out = head.now; edits = Keep 0 ∷ edits.items; rows = views_if_any rows.items; position = 0 }) }
    {
        let mut buffer = vec![in alloc; 0; BUFFER]?;
        put(&mut buffer, 0, head);
        Ok(Rewrite {
            edits,
            at: 0,
            kept: 0,
            rows,
            next: 0,
            position: 0,
            buffer,
            used: 32,
        })
    }

    /// Makes what it can from a window: the bytes of the records before from offset `from` on. It
    /// stops where a piece or more is made and not taken, where nothing is left to be made, or
    /// where it needs a byte that is not in the window.
    pub fn rewrite(&mut self, from: u64, window: &[u8])
        ensures rewrites { Rewrites from window.now self.old self.new }
        ensures stops { WhyStopped from (length window.now) self.new }
    {
        while self.step(from, window) {}
    }

    /// The offset of the next byte that is wanted, where less than a piece is made and not taken,
    /// and bytes are to be kept.
    pub fn wanted(&self) -> Option<u64>
        ensures some { ForSome result (λ at. (at ≡ self.now.position) × (0 < left_to_keep self.now) × (length self.now.out < PIECE)) }
        ensures none { result ≡ None → (PIECE ≤ length self.now.out) ⊎ (left_to_keep self.now ≡ 0) }
    {
        if self.used < PIECE && self.kept > 0 {
            return Some(self.position);
        }
        None
    }

    /// The number of bytes that are still to be kept of the edit that was begun: those from the
    /// next byte that is wanted on.
    pub fn left_to_keep(&self) -> u32
        ensures { result ≡ left_to_keep self.now }
    {
        self.kept
    }

    /// The length of the buffer in bytes.
    pub fn buffer_len(&self) -> usize
        ensures { result ≡ BUFFER }
    {
        self.buffer.len()
    }

    /// The bytes that are made and not taken.
    pub fn made(&self) -> &[u8]
        ensures { result.now ≡ self.now.out }
    {
        &self.buffer[..self.used]
    }

    /// Takes this number of bytes from the front of those that are made.
    pub fn take(&mut self, count: usize)
        requires { count ≤ length self.old.out }
        ensures { self.new ≡ record self.old { out = drop count self.old.out } }
    {
        self.used = cut_front(&mut self.buffer, self.used, count);
    }

    /// Takes one step, and returns whether another one may follow.
    fn step(&mut self, from: u64, window: &[u8]) -> bool
        ensures rewrites { Rewrites from window.now self.old self.new }
        ensures goes_on { result ≡ true → steps_left self.new < steps_left self.old }
        ensures stops { result ≡ false → WhyStopped from (length window.now) self.new }
    {
        if self.used >= PIECE {
            return false;
        }
        if self.kept > 0 {
            return self.keep(from, window);
        }
        if self.at == self.edits.len() {
            return false;
        }
        self.next_edit();
        true
    }

    /// Keeps bytes of the window: as many as the edit that was begun, the window and the room
    /// allow. Returns whether another step may follow.
    fn keep(&mut self, from: u64, window: &[u8]) -> bool
        requires room { length self.old.out < PIECE }
        requires some { 0 < left_to_keep self.old }
        ensures rewrites { Rewrites from window.now self.old self.new }
        ensures goes_on { result ≡ true → steps_left self.new < steps_left self.old }
        ensures stops { result ≡ false → (self.new ≡ self.old) × IsOutside from (length window.now) self.old.position }
    {
        if self.position < from {
            return false;
        }
        let start = self.position - from;
        if start >= window.len() as u64 {
            return false;
        }
        let start = start as usize;
        let count = (self.kept as usize)
            .min(window.len() - start)
            .min(PIECE - self.used);
        self.used = put_part(&mut self.buffer, self.used, window, start, count);
        self.position += count as u64;
        self.kept -= count as u32;
        true
    }

    /// Begins the next edit, where no bytes are left to be kept of the last one.
    fn next_edit(&mut self)
        requires room { length self.old.out < PIECE }
        requires none { left_to_keep self.old ≡ 0 }
        requires more { 1 < length self.old.edits }
        ensures same { (bytes : List ℕ) → untaken self.new bytes ≡ untaken self.old bytes }
        ensures len { untaken_len self.new ≡ untaken_len self.old }
        ensures end { edits_end self.new ≡ edits_end self.old }
        ensures forward { self.old.position ≤ self.new.position }
        ensures smaller { steps_left self.new < steps_left self.old }
    {
        let edit = self.edits[self.at];
        self.at += 1;
        self.enter(edit);
    }

    /// Begins an edit.
    fn enter(&mut self, edit: Edit)
        requires room { length self.old.out < PIECE }
        requires none { left_to_keep self.old ≡ 0 }
        requires end { edits_end (with_edit edit self.old) < 2 ^ 33 }
        ensures same { (bytes : List ℕ) → untaken self.new bytes ≡ untaken (with_edit edit self.old) bytes }
        ensures len { untaken_len self.new ≡ untaken_len (with_edit edit self.old) }
        ensures end { edits_end self.new ≡ edits_end (with_edit edit self.old) }
        ensures forward { self.old.position ≤ self.new.position }
        ensures edits { length self.new.edits ≡ length self.old.edits }
        ensures out { length self.old.out ≤ length self.new.out }
    {
        match edit {
            Edit::Keep(count) => self.kept = count,
            Edit::Pass(count) => self.position += u64::from(count),
            Edit::Put => self.put_next(),
        }
    }

    /// Puts the next row, where there is one, and drops it.
    fn put_next(&mut self)
        requires { length self.old.out < PIECE }
        ensures { self.new ≡ with_next_row self.old.rows self.old }
    {
        if self.next < self.rows.len() {
            let row = replace(&mut self.rows[self.next], None);
            self.used = put_if_any(&mut self.buffer, self.used, &row);
            self.next += 1;
        }
    }
}
