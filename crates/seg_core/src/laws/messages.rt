//! Laws of the definitions that the crate's contracts cite. Each law is the contract of a function
//! that does nothing, so that the law is proved with the crate.

ghost use Rattle.std.specs.Prelude.{◌≡◌, ◌↔◌, ◌≤◌, ◌+◌, ◌*◌, ℕ, List, length, Ok, IsTrue};
ghost use Rattle.pw_wire.specs.Decoding.{IsBytes};
ghost use Rattle.seg_core.specs.SegmentView.{EntryView, SegmentView};
ghost use Rattle.seg_core.specs.WellFormed.{is_entry_count, is_chain, has_no_loop, HasEntryCount, IsEntryChain, HasNoLoop, IsWellFormed};
ghost use Rattle.seg_core.specs.Segment.{segment_decoding};
ghost use Rattle.seg_core.specs.Registration.{registration_decoding};
ghost use Rattle.seg_core.specs.Encoding.{segment_encoding, IsSegment, response_encoding, by_type};
ghost use Rattle.seg_core.specs.declared.format.TheConstants.{MOST_REGISTERED_BYTES, MOST_REGISTERED};
ghost use Rattle.seg_core.specs.declared.seg_type.SegType.{SegType};
ghost use Rattle.std.specs.List.{AllByRecursion, sum_by};

/// Each segment that is read from bytes is whole.
pub fn read_segments_are_whole()
    ensures { (message : List ℕ) (s : SegmentView) → IsBytes message → segment_decoding message ≡ Ok s → IsSegment s }
{}

/// The encoding of a segment that is read from bytes is no longer than these bytes.
pub fn encodings_are_shortest()
    ensures { (message : List ℕ) (s : SegmentView) → IsBytes message → segment_decoding message ≡ Ok s
        → length (segment_encoding s) ≤ length message }
{}

/// Whole segments with the same encoding are the same.
pub fn encodings_are_injective()
    ensures { (s t : SegmentView) → IsSegment s → IsSegment t → segment_encoding s ≡ segment_encoding t → s ≡ t }
{}

/// A registration that is read from bytes has at most 16 segments. Each is whole, and their
/// encodings have together at most 131,072 bytes.
pub fn read_registrations_are_whole()
    ensures few { (message : List ℕ) (rows : List (SegType × SegmentView)) → IsBytes message
        → registration_decoding message ≡ Ok rows → length rows ≤ MOST_REGISTERED }
    ensures whole { (message : List ℕ) (rows : List (SegType × SegmentView)) → IsBytes message
        → registration_decoding message ≡ Ok rows → AllByRecursion (λ row. IsSegment row.1) rows }
    ensures short { (message : List ℕ) (rows : List (SegType × SegmentView)) → IsBytes message
        → registration_decoding message ≡ Ok rows → sum_by (λ row. length (segment_encoding row.1)) rows ≤ MOST_REGISTERED_BYTES }
{}

/// The encoding of a whole segment is bytes, and is read as that segment.
pub fn written_segments_are_read()
    ensures bytes { (s : SegmentView) → IsSegment s → IsBytes (segment_encoding s) }
    ensures read { (s : SegmentView) → IsSegment s → segment_decoding (segment_encoding s) ≡ Ok s }
{}

/// A whole segment is well-formed: 1 to 64 entries that are one path without a loop, and numbers in
/// their ranges.
pub fn whole_segments_are_well_formed()
    ensures { (s : SegmentView) → IsSegment s → IsWellFormed s }
{}

/// The tests of a path decide their definitions, in both directions.
pub fn path_tests_are_exact()
    ensures counted { (entries : List EntryView) → (IsTrue (is_entry_count (length entries))) ↔ HasEntryCount entries }
    ensures chain { (entries : List EntryView) → (IsTrue (is_chain entries)) ↔ IsEntryChain entries }
    ensures no_loop { (entries : List EntryView) → (IsTrue (has_no_loop entries)) ↔ HasNoLoop entries }
{}

/// A response of at most 16 whole segments, in at most 131,072 bytes, is read as these segments,
/// ordered by type.
pub fn written_responses_are_read()
    ensures { (rows : List (SegType × SegmentView)) → AllByRecursion (λ row. IsSegment row.1) rows → length rows ≤ MOST_REGISTERED
        → length (response_encoding rows) ≤ MOST_REGISTERED_BYTES → registration_decoding (response_encoding rows) ≡ Ok (by_type rows) }
{}

/// The response of up to 127 whole segments of one type has at most 16,388 bytes for each and 10
/// more, which for 64 segments is 1,048,842 bytes. The response of segments of any types has at
/// most 30 bytes more than 16,388 for each.
pub fn responses_are_short()
    ensures one_type { (kind : SegType) (rows : List (SegType × SegmentView)) → AllByRecursion (λ row. row.0 ≡ kind) rows
        → AllByRecursion (λ row. IsSegment row.1) rows → length rows ≤ 127 → length (response_encoding rows) ≤ 16388 * length rows + 10 }
    ensures any { (rows : List (SegType × SegmentView)) → AllByRecursion (λ row. IsSegment row.1) rows → length rows ≤ 127
        → length (response_encoding rows) ≤ 16388 * length rows + 30 }
{}
