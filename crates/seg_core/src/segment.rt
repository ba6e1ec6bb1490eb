//! Path segments.

ghost use Rattle.std.specs.Prelude.{◌≡◌, ◌+◌, ◌≤◌, ◌++◌, length, All, IfOk, IfErr, IsOk};
ghost use Rattle.std.specs.Arc.{arc_value};
ghost use Rattle.std.specs.List.{sum_by};
ghost use Rattle.pw_wire.specs.Field.{bytes_field_encoding};
ghost use Rattle.pw_wire.specs.Fields.{fields};
ghost use Rattle.seg_core.specs.declared.error.SegError.TheVariants.{NoMemory};
ghost use Rattle.seg_core.specs.declared.format.TheConstants.{MOST_SEGMENT_BYTES};
ghost use Rattle.seg_core.specs.Steps.{GivesSegment, each};
ghost use Rattle.seg_core.specs.Message.{bytes_fields};
ghost use Rattle.seg_core.specs.Pieces.{AreWithin};
ghost use Rattle.seg_core.specs.Entry.{as_entry_decoding};
ghost use Rattle.seg_core.specs.Digest.{segment_digest};
ghost use Rattle.seg_core.specs.EntryView.{entry_views, marked_view, marked_views};
ghost use Rattle.seg_core.specs.Segment.{segment_decoding, segment_outline};
ghost use Rattle.seg_core.specs.Encoding.{as_entry_encoding, entries_encoding, segment_encoding, IsSegment};

use crate::bytes_fields::BytesFields;
use crate::digest::digest_of;
use crate::entry::{Entry, MarkedEntry, read_as_entry};
use crate::error::SegError;
use crate::format::MOST_SEGMENT_BYTES;
use crate::limits::check;
use crate::outline::read_outline;
use crate::path::{has_no_loop, is_chain};
use crate::pieces::Span;
use crate::putting::{put_bytes, put_entry};
use std::alloc::{AllocError, Global};
use std::fmt;
use std::marker::Model;
use std::sync::Arc;

/// The fields of a segment, which its copies share. Its information and the pieces of its entries
/// are in its encoding.
#[derive(Drop)]
struct Parts {
    timestamp: u32,
    segment_id: u16,
    digest: [u8; 32],
    encoding: Arc<Vec<u8>>,
    info: Span,
    entries: Vec<Entry>,
}

/// A path segment: 1 to 64 entries that are one path without a loop, and pieces of the message from
/// which it was read.
#[derive(Drop)]
pub struct Segment {
    shared: Arc<Parts>,
}

impl Model for Segment {
    ghost use Rattle.std.specs.Arc.{arc_value};
    ghost use Rattle.seg_core.specs.SegmentView.{SegmentView};
    ghost use Rattle.seg_core.specs.EntryView.{segment_view};
    ghost use Rattle.seg_core.specs.Kept.{IsKept};

    ghost Value = { SegmentView };

    ghost view = { λ s. segment_view (arc_value s.shared) };

    ghost invariant = { λ s. IsKept (arc_value s.shared) };
}

impl Segment {
    /// When the segment was made, in seconds since 1970.
    pub fn timestamp(&self) -> u32
        ensures { result ≡ self.now.timestamp }
    {
        self.shared.timestamp
    }

    /// The id that the AS which made the segment has chosen.
    pub fn segment_id(&self) -> u16
        ensures { result ≡ self.now.segment_id }
    {
        self.shared.segment_id
    }

    /// SHA-256 (FIPS 180-4) over 12 bytes for each entry in order: its ISD-AS, ingress and egress,
    /// big-endian. The digest was computed when the segment was read.
    pub fn digest(&self) -> &[u8; 32]
        ensures { result.now ≡ segment_digest self.now }
    {
        &self.shared.digest
    }

    /// The segment's information as received.
    pub fn segment_info(&self) -> &[u8]
        ensures { result.now ≡ self.now.info }
    {
        self.shared.info.of(&self.shared.encoding)
    }

    /// The segment's one encoding, at most 16,384 bytes.
    pub fn encoding(&self) -> &[u8]
        ensures same { result.now ≡ segment_encoding self.now }
        ensures whole { IsSegment self.now }
    {
        &self.shared.encoding
    }

    /// The entries, in the direction in which the segment was built.
    pub fn entries(&self) -> &[Entry]
        ensures same { entry_views result.now ≡ self.now.entries }
        ensures whole { IsSegment self.now }
    {
        &self.shared.entries
    }

    /// An equal segment that shares the memory of this one. The call takes no memory. An error
    /// means that 2^63 segments share it already.
    pub fn try_clone(&self) -> Result<Segment, AllocError>
        ensures same { IfOk result (λ copy. copy ≡ self.now) }
        ensures whole { IsSegment self.now }
    {
        let shared = Arc::try_clone(&self.shared)?;
        Ok(Segment { shared })
    }
}

impl fmt::Debug for Segment {
    fn fmt<W: fmt::Write>(&self, f: &mut fmt::Formatter<W>) -> fmt::Result {
        f.debug_struct("Segment")
            .field("timestamp", &self.timestamp())
            .field("segment_id", &self.segment_id())
            .field("entries", &self.shared.entries)
            .finish()
    }
}

/// Reads an entry, and appends its encoding.
fn read_entry(message: &[u8], out: &mut Vec<u8>) -> Result<MarkedEntry, SegError>
    requires { length out.old.items + length (bytes_field_encoding 2 message.now) ≤ MOST_SEGMENT_BYTES }
    ensures decoding { GivesSegment (λ e. marked_view out.new.items e) result (as_entry_decoding message.now) }
    ensures put { IfOk result (λ e. out.new.items ≡ out.old.items ++ bytes_field_encoding 2 (as_entry_encoding (marked_view out.new.items e))) }
    ensures within { IfOk result (λ e. AreWithin out.new.items e.spans) }
    ensures short { IfOk result (λ _. length out.new.items ≤ length out.old.items + length (bytes_field_encoding 2 message.now)) }
{
    let entry = read_as_entry(message)?;
    let spans = put_entry(out, &entry)?;
    Ok(MarkedEntry {
        body: entry.body,
        spans,
    })
}

/// Reads the entries of a segment, in order, and appends their encodings.
fn read_entries(
    alloc: Global,
    messages: BytesFields<'_>,
    out: &mut Vec<u8>,
) -> Result<Vec<MarkedEntry>, SegError>
    requires { length out.old.items + sum_by (λ t. length (bytes_field_encoding 2 t)) (bytes_fields messages.field_number (fields messages.rest.now)) ≤ MOST_SEGMENT_BYTES }
    ensures decoding { GivesSegment (λ v. marked_views out.new.items v.items) result
        (each as_entry_decoding (bytes_fields messages.entry.field_number (fields messages.entry.rest.now))) }
    ensures put { IfOk result (λ v. out.new.items ≡ out.old.items ++ entries_encoding (marked_views out.new.items v.items)) }
    ensures within { IfOk result (λ v. All (λ e. AreWithin out.new.items e.spans) v.items) }
{
    let mut marked = Vec::new(alloc);
    for message in messages {
        marked.push(read_entry(message, out)?)?;
    }
    Ok(marked)
}

/// The entries whose pieces are in this encoding. The marked entries are consumed.
fn entries_in(
    alloc: Global,
    encoding: &Arc<Vec<u8>>,
    marked: Vec<MarkedEntry>,
) -> Result<Vec<Entry>, AllocError>
    requires { All (λ e. AreWithin (arc_value encoding.now).items e.spans) marked.items }
    ensures { IfOk result (λ entries. entry_views entries.items ≡ marked_views (arc_value encoding.now).items marked.items) }
{
    let mut entries = Vec::with_capacity(alloc, marked.len())?;
    for entry in &marked {
        entries.push(Entry::new(encoding, *entry)?)?;
    }
    Ok(entries)
}

/// Reads a `PathSegment` from all of the bytes. Its outline is checked before memory is taken.
#[tactic(auto, unfolding(crate::specs::Segment::segment_decoding))]
pub fn read_segment(alloc: Global, message: &[u8]) -> Result<Segment, SegError>
    ensures decoding { GivesSegment (λ s. s) result (segment_decoding message.now) }
    ensures whole { IfOk result IsSegment }
    ensures memory { IfErr result (λ e. e ≡ NoMemory → IsOk (segment_outline message.now)) }
{
    let outline = read_outline(message)?;
    let mut bytes = Vec::with_capacity(alloc, message.len())?;
    let info = put_bytes(&mut bytes, 1, outline.info_bytes)?;
    let marked = read_entries(alloc, outline.entries, &mut bytes)?;
    bytes.shrink_to_fit();
    let encoding = Arc::new(alloc, bytes)?;
    let entries = entries_in(alloc, &encoding, marked)?;
    check(is_chain(&entries), SegError::Chain)?;
    check(has_no_loop(&entries), SegError::Loop)?;
    let parts = Parts {
        timestamp: outline.info.timestamp,
        segment_id: outline.info.segment_id,
        digest: digest_of(&entries),
        encoding,
        info,
        entries,
    };
    let shared = Arc::new(alloc, parts)?;
    Ok(Segment { shared })
}
