//! The rows of an index by their index keys, and the bounds of its ranges.

ghost use Rattle.std.specs.Prelude.{◌≡◌, ◌+◌, ◌-◌, ◌*◌, ◌^◌, ◌<◌, ◌≤◌, true, take, IfOk, IfSome, length, refl};
ghost use Rattle.std.specs.Option.{option_map};
ghost use Rattle.std.specs.Ordering.{nat_cmp, eq_by_cmp, as_partial_cmp};
ghost use Rattle.std.specs.Cmp.{eq_by_cmp_equiv, partial_equiv_from_equiv, partial_order_from_total};
ghost use Rattle.std.specs.Cmp.Lexicographic.{slice_cmp};
ghost use Rattle.seg_core.specs.Registration.{type_number};
ghost use Rattle.seg_core.specs.Digest.{segment_digest};
ghost use Rattle.row_map.specs.IndexKey.{IndexKey, index_key_cmp, is_same};
ghost use Rattle.seg_check.specs.Expiry.{expiry_of};
ghost use Rattle.row_map.specs.Places.{key_of_place, second_of, HasHead};
ghost use Rattle.row_map.specs.Order.{index_key_total};

use seg_check::expiry;
use seg_core::{SegType, Segment};
use std::alloc::{AllocError, Global};
use std::cmp::Ordering;
use std::marker::Model;

/// The number of bytes of an id that are kept beside a segment.
const HEAD: usize = 3;

/// How an index row is kept, in 24 bytes. A row has a variant for each type, with the first bytes
/// of its id, the second at which it has expired, its number and its segment. The first bytes
/// decide most comparisons, so that these don't read the segment.
#[derive(Drop)]
enum Place {
    /// Below all rows of a type and a number.
    Below(SegType, u64),
    /// Where the row of a type, a number and an id would be.
    After(SegType, u64, Box<[u8; 32]>),
    /// An up segment's row.
    Up([u8; HEAD], u32, u64, Segment),
    /// A down segment's row.
    Down([u8; HEAD], u32, u64, Segment),
    /// A core segment's row.
    Core([u8; HEAD], u32, u64, Segment),
}

/// A row of an index with its index key, or a bound of a range, which has an index key alone.
#[derive(Drop)]
pub struct IndexRow {
    place: Place,
}

impl Model for IndexRow {
    ghost use Rattle.row_map.specs.IndexKey.{IndexKey};
    ghost use Rattle.row_map.specs.Places.{key_of_place, HasHead};

    ghost Value = { IndexKey };

    ghost view = { λ s. key_of_place s.place };

    ghost invariant = { λ s. HasHead s.place };
}

impl IndexRow {
    ghost use Rattle.std.specs.Prelude.{[], Some, None};

    /// The row of a type and a segment by a number.
    pub fn new(kind: SegType, number: u64, segment: Segment) -> IndexRow
        ensures { result ≡ record {
          kind = type_number kind;
          isd_as = number;
          id = segment_digest segment;
          row = Some (kind, segment);
        } }
    {
        let head = head_of(segment.digest());
        let second = second_of(&segment);
        IndexRow {
            place: place_of(kind, head, second, number, segment),
        }
    }

    /// The bound below all rows of a type and a number.
    pub(crate) fn below(kind: SegType, number: u64) -> IndexRow
        ensures { result ≡ record { kind = type_number kind; isd_as = number; id = []; row = None } }
    {
        IndexRow {
            place: Place::Below(kind, number),
        }
    }

    /// The bound where the row of a type, a number and an id would be. An error means that memory
    /// was refused.
    pub(crate) fn after(
        alloc: Global,
        kind: SegType,
        number: u64,
        id: &[u8; 32],
    ) -> Result<IndexRow, AllocError>
        ensures { IfOk result (λ bound. bound ≡ record { kind = type_number kind; isd_as = number; id = id.now; row = None }) }
    {
        let id = Box::new(alloc, *id)?;
        Ok(IndexRow {
            place: Place::After(kind, number, id),
        })
    }

    /// The number of the type.
    fn kind(&self) -> u64
        ensures { result ≡ self.now.kind }
    {
        match &self.place {
            Place::Below(kind, _) => kind.number(),
            Place::After(kind, _, _) => kind.number(),
            Place::Up(_, _, _, _) => SegType::Up.number(),
            Place::Down(_, _, _, _) => SegType::Down.number(),
            Place::Core(_, _, _, _) => SegType::Core.number(),
        }
    }

    /// The number by which the index has the row.
    pub fn number(&self) -> u64
        ensures { result ≡ self.now.isd_as }
    {
        match &self.place {
            Place::Below(_, number) => *number,
            Place::After(_, number, _) => *number,
            Place::Up(_, _, number, _) => *number,
            Place::Down(_, _, number, _) => *number,
            Place::Core(_, _, number, _) => *number,
        }
    }

    /// The row's type and its segment. `None` for a bound.
    pub fn row(&self) -> Option<(SegType, &Segment)>
        ensures row { option_map (λ row. (row.0, row.1.now)) result ≡ self.now.row }
        ensures kind { IfSome result (λ row. self.now.kind ≡ type_number row.0) }
        ensures id { IfSome result (λ row. self.now.id ≡ segment_digest row.1.now) }
    {
        match &self.place {
            Place::Up(_, _, _, segment) => Some((SegType::Up, segment)),
            Place::Down(_, _, _, segment) => Some((SegType::Down, segment)),
            Place::Core(_, _, _, segment) => Some((SegType::Core, segment)),
            _ => None,
        }
    }

    /// Whether the row is known to expire at this moment or before, in half seconds since 1970. Its
    /// segment is not read. `false` says nothing of a row that expires at the moment itself, or
    /// after 2^32 - 2 seconds.
    pub fn expires_by(&self, moment: u64) -> bool
        ensures expired { result ≡ true → IfSome self.now.row (λ row. expiry_of row.1 ≤ moment) }
        ensures told { IfSome self.now.row (λ row. expiry_of row.1 < moment → expiry_of row.1 ≤ 2 * (2 ^ 32 - 2) → result ≡ true) }
    {
        match &self.place {
            Place::Up(_, second, _, _) => is_by(*second, moment),
            Place::Down(_, second, _, _) => is_by(*second, moment),
            Place::Core(_, second, _, _) => is_by(*second, moment),
            _ => false,
        }
    }

    /// An equal index row, which shares the segment. For a row the call takes no memory, and an
    /// error means that 2^63 rows share the segment already.
    pub fn try_clone(&self) -> Result<IndexRow, AllocError>
        ensures { IfOk result (λ copy. copy ≡ self.now) }
    {
        let place = match &self.place {
            Place::Below(kind, number) => Place::Below(*kind, *number),
            Place::After(kind, number, id) => Place::After(*kind, *number, id.clone()?),
            Place::Up(head, second, number, segment) => {
                Place::Up(*head, *second, *number, segment.try_clone()?)
            }
            Place::Down(head, second, number, segment) => {
                Place::Down(*head, *second, *number, segment.try_clone()?)
            }
            Place::Core(head, second, number, segment) => {
                Place::Core(*head, *second, *number, segment.try_clone()?)
            }
        };
        Ok(IndexRow { place })
    }
}

impl Clone for IndexRow {
    ghost is_clone = { λ row copy. copy ≡ row };

    fn clone(&self) -> Result<IndexRow, AllocError> {
        self.try_clone()
    }
}

impl PartialEq for IndexRow {
    ghost eq = { is_same };

    ghost laws = { partial_equiv_from_equiv (eq_by_cmp_equiv index_key_total) };

    fn eq(&self, other: &IndexRow) -> bool {
        self.cmp(other).is_eq()
    }
}

impl Eq for IndexRow {
    ghost laws = { eq_by_cmp_equiv index_key_total };
}

impl PartialOrd for IndexRow {
    ghost partial_cmp = { as_partial_cmp index_key_cmp };

    ghost laws = { partial_order_from_total index_key_total };

    fn partial_cmp(&self, other: &IndexRow) -> Option<Ordering> {
        Some(self.cmp(other))
    }
}

impl Ord for IndexRow {
    ghost cmp = { index_key_cmp };

    ghost total = { index_key_total };

    ghost matches_partial_cmp = { λ p q. refl };

    ghost matches_eq = { λ p q. refl };

    fn cmp(&self, other: &IndexRow) -> Ordering {
        match self.kind().cmp(&other.kind()) {
            Ordering::Equal => match self.number().cmp(&other.number()) {
                Ordering::Equal => cmp_ids(&self.place, &other.place),
                unequal => unequal,
            },
            unequal => unequal,
        }
    }
}

/// The first bytes of an id.
fn head_of(id: &[u8; 32]) -> [u8; HEAD]
    ensures { result ≡ take 3 id.now }
{
    [id[0], id[1], id[2]]
}

/// The first second since 1970 at which a segment has expired, at most 2^32 - 1.
fn second_of(segment: &Segment) -> u32
    ensures { result ≡ second_of segment.now }
{
    let expires = expiry(segment);
    (expires / 2 + expires % 2).min(u64::from(u32::MAX)) as u32
}

/// Whether a second that is kept, and not the last one, is at this moment or before, in half
/// seconds since 1970.
fn is_by(second: u32, moment: u64) -> bool
    ensures by { result ≡ true → (second < 2 ^ 32 - 1) × (2 * second ≤ moment) }
    ensures told { second < 2 ^ 32 - 1 → 2 * second ≤ moment → result ≡ true }
{
    second < u32::MAX && 2 * u64::from(second) <= moment
}

/// The place of a row.
fn place_of(kind: SegType, head: [u8; HEAD], second: u32, number: u64, segment: Segment) -> Place
    requires head { head ≡ take 3 (segment_digest segment) }
    requires second { second ≡ second_of segment }
    ensures key { key_of_place result ≡ record {
      kind = type_number kind;
      isd_as = number;
      id = segment_digest segment;
      row = Some (kind, segment);
    } }
    ensures head { HasHead result }
{
    match kind {
        SegType::Up => Place::Up(head, second, number, segment),
        SegType::Down => Place::Down(head, second, number, segment),
        SegType::Core => Place::Core(head, second, number, segment),
    }
}

/// The first bytes of a row's id, and its segment. `None` for a bound.
fn row_of(place: &Place) -> Option<(&[u8; HEAD], &Segment)>
    requires { HasHead place.now }
    ensures head { IfSome result (λ row. row.0.now ≡ take 3 (segment_digest row.1.now)) }
    ensures id { IfSome result (λ row. segment_digest row.1.now ≡ (key_of_place place.now).id) }
{
    match place {
        Place::Up(head, _, _, segment) => Some((head, segment)),
        Place::Down(head, _, _, segment) => Some((head, segment)),
        Place::Core(head, _, _, segment) => Some((head, segment)),
        _ => None,
    }
}

/// The order of the ids of two places.
fn cmp_ids(place: &Place, other: &Place) -> Ordering
    requires head { HasHead place.now }
    requires other_head { HasHead other.now }
    ensures { result ≡ slice_cmp nat_cmp (key_of_place place.now).id (key_of_place other.now).id }
{
    if let Some((head, segment)) = row_of(place) {
        if let Some((other_head, other_segment)) = row_of(other) {
            return match head[0].cmp(&other_head[0]) {
                Ordering::Equal => match head[1].cmp(&other_head[1]) {
                    Ordering::Equal => cmp_heads(head, segment, other_head, other_segment),
                    unequal => unequal,
                },
                unequal => unequal,
            };
        }
    }
    id_of(place).cmp(&id_of(other))
}

/// The order of the ids of two segments by their first bytes, and by all where these are the same.
fn cmp_heads(
    head: &[u8; HEAD],
    segment: &Segment,
    other_head: &[u8; HEAD],
    other_segment: &Segment,
) -> Ordering
    requires head { head.now ≡ take 3 (segment_digest segment.now) }
    requires other_head { other_head.now ≡ take 3 (segment_digest other_segment.now) }
    ensures { result ≡ slice_cmp nat_cmp (segment_digest segment.now) (segment_digest other_segment.now) }
{
    match head.as_slice().cmp(&other_head.as_slice()) {
        Ordering::Equal => {
            let other_id = other_segment.digest().as_slice();
            segment.digest().as_slice().cmp(&other_id)
        }
        unequal => unequal,
    }
}

/// The id of a place, which is empty below all rows.
fn id_of(place: &Place) -> &[u8]
    ensures { result.now ≡ (key_of_place place.now).id }
{
    match place {
        Place::Below(_, _) => &[],
        Place::After(_, _, id) => id.as_slice(),
        Place::Up(_, _, _, segment) => segment.digest().as_slice(),
        Place::Down(_, _, _, segment) => segment.digest().as_slice(),
        Place::Core(_, _, _, segment) => segment.digest().as_slice(),
    }
}
