//! The database.

ghost use Rattle.std.specs.Prelude.{◌≡◌, ◌+◌, ◌-◌, ◌*◌, ◌^◌, ◌<◌, ◌≤◌, [], ◌∷◌, ◌++◌, true, false, None, length, min, max, not, count_by, if◌then◌else◌, IfOk, IfErr, OnOk, OnErr};
ghost use Rattle.std.specs.List.{AllByRecursion};
ghost use Rattle.std.specs.Option.{option_copied, option_map, is_some, ForSome};
ghost use Rattle.path_db.specs.declared.error.ApplyError.TheVariants.{Full};
ghost use Rattle.row_map.specs.Database.{IsDatabase, AreWhole, key, row_under, rows_len};
ghost use Rattle.row_map.specs.Put.{database_after_puts, changes_of};
ghost use Rattle.path_db.specs.Outcome.{outcome_of_puts, outcome_of_drops};
ghost use Rattle.path_db.specs.Command.{database_after, outcome_of, TakesMemory};
ghost use Rattle.row_map.specs.Drops.{database_after_purge, database_after_removal, is_valid_beyond};
ghost use Rattle.row_map.specs.declared.bucket_walk.BucketWalk.{BucketWalk};
ghost use Rattle.row_map.specs.Buckets.{bucket_count};
ghost use Rattle.row_map.specs.Purge.{HasPassed, AllOutlast, HasPassedBuckets};
ghost use Rattle.row_map.specs.Row.{row_view, row_views};
ghost use Rattle.path_db.specs.Answer.{answer_of, answer_above, segments_of};
ghost use Rattle.row_map.specs.Ranges.{is_of_type};
ghost use Rattle.path_db.specs.Wanted.{answer_to_wanted};
ghost use Rattle.seg_core.specs.Encoding.{IsSegment};
ghost use Rattle.isd_as.specs.IsdAs.{isd_as_number};

use crate::all_puts::{put_after, put_all};
use crate::answers::Wanted;
use crate::command::Command;
use crate::error::ApplyError;
use crate::indexing::{index_of_isds_and_copies, indexes_of_ends};
use crate::outcome::Outcome;
use crate::renewing::renew_indexed;
use crate::visits::Visits;
use crate::ways::{Indexes, shown_by_index, shown_by_rows};
use isd_as::IsdAs;
use row_map::{
    BUCKETS, BucketWalk, By, End, EndIndex, PurgeWalk, Row, RowMap, Rows, add_all, map_of, rows_of,
    saved_rows, sweep, take_out, touched_rows,
};
use seg_core::{SegType, Segment};
use std::alloc::{AllocError, Global};
use std::marker::Model;
use std::thread::{Threads, join};

/// A finite map from keys to segments. A key is a type and an id, and keys are ordered by the
/// type's number and then by the id's bytes. The database keeps the allocator with which it was
/// made.
#[derive(Drop)]
pub struct PathDb {
    alloc: Global,
    rows: RowMap,
    /// Whether the three indexes are kept.
    indexed: bool,
    by_first: EndIndex,
    by_last: EndIndex,
    by_isds: EndIndex,
    bytes: u128,
    /// How many rows purges have visited, or 2^64 - 1 for more.
    visited: u64,
}

impl Model for PathDb {
    ghost use Rattle.std.specs.Prelude.{List};
    ghost use Rattle.row_map.specs.Database.{RowView};
    ghost use Rattle.path_db.specs.Table.{rows_of_table, IsTable};

    ghost Value = { List RowView };

    ghost view = { rows_of_table };

    ghost invariant = { IsTable };
}

impl PathDb {
    /// An empty database.
    pub fn new(alloc: Global) -> PathDb
        ensures { result ≡ [] }
    {
        PathDb {
            alloc,
            rows: RowMap::new(alloc),
            indexed: true,
            by_first: EndIndex::new(alloc),
            by_last: EndIndex::new(alloc),
            by_isds: EndIndex::new(alloc),
            bytes: 0,
            visited: 0,
        }
    }

    /// An equal database that keeps no index of its rows by their ends: it takes less memory, and a
    /// command less time, but `matching` visits all rows of the type. The call takes no memory.
    pub fn without_indexes(self) -> PathDb
        ensures { result ≡ self }
    {
        let PathDb {
            alloc,
            rows,
            indexed: _indexed,
            by_first: _by_first,
            by_last: _by_last,
            by_isds: _by_isds,
            bytes,
            visited,
        } = self;
        PathDb {
            alloc,
            rows,
            indexed: false,
            by_first: EndIndex::new(alloc),
            by_last: EndIndex::new(alloc),
            by_isds: EndIndex::new(alloc),
            bytes,
            visited,
        }
    }

    /// The database of these rows, whose keys rise. It keeps no index of its rows by their ends. An
    /// error means that memory was refused. An empty list takes no memory.
    pub fn of_rows(alloc: Global, rows: Vec<Row>) -> Result<PathDb, AllocError>
        requires { IsDatabase (row_views rows.items) }
        ensures same { IfOk result (λ db. db ≡ row_views rows.items) }
        ensures memory { OnErr result (0 < length rows.items) }
    {
        if rows.is_empty() {
            return Ok(PathDb::new(alloc).without_indexes());
        }
        let (rows, bytes) = map_of(alloc, rows)?;
        Ok(PathDb {
            alloc,
            rows,
            indexed: false,
            by_first: EndIndex::new(alloc),
            by_last: EndIndex::new(alloc),
            by_isds: EndIndex::new(alloc),
            bytes,
            visited: 0,
        })
    }

    /// Two equal databases that keep the indexes of their rows by their ends, and share the
    /// segments. Up to four threads make them, the calling one among them. An error means that
    /// memory was refused. Copies of an empty database take no memory.
    pub fn indexed_pair<R: Threads + Sync>(&self, rt: &R) -> Result<(PathDb, PathDb), AllocError>
        ensures first { IfOk result (λ pair. pair.0 ≡ self.now) }
        ensures second { IfOk result (λ pair. pair.1 ≡ self.now) }
        ensures memory { OnErr result (0 < length self.now) }
        ensures whole { IfOk result (λ pair. IsDatabase pair.0) }
    {
        let alloc = self.alloc;
        if self.rows.len() == 0 {
            return Ok((PathDb::new(alloc), PathDb::new(alloc)));
        }
        let rows = &self.rows;
        let ((by_first, by_last), (by_isds, rows)) = join(
            rt,
            || indexes_of_ends(rt, alloc, rows),
            || index_of_isds_and_copies(rt, alloc, rows),
        );
        let (by_first, by_last, by_isds, rows) = (by_first?, by_last?, by_isds?, rows?);
        let bytes = self.bytes;
        Ok((
            PathDb {
                alloc,
                rows: rows.0,
                indexed: true,
                by_first: by_first.0,
                by_last: by_last.0,
                by_isds: by_isds.0,
                bytes,
                visited: 0,
            },
            PathDb {
                alloc,
                rows: rows.1,
                indexed: true,
                by_first: by_first.1,
                by_last: by_last.1,
                by_isds: by_isds.1,
                bytes,
                visited: 0,
            },
        ))
    }

    /// Applies a command, or changes nothing where memory is refused. A purge, a removal and a
    /// registration of no segments take no memory. A registered segment is shared with its row.
    pub fn apply(&mut self, command: &Command) -> Result<Outcome, AllocError>
        ensures database { OnOk result (self.new ≡ database_after self.old command.now) }
        ensures outcome { IfOk result (λ outcome. outcome ≡ outcome_of self.old command.now) }
        ensures refused { OnErr result (self.new ≡ self.old) }
        ensures memory { OnErr result (TakesMemory command.now) }
        ensures whole { IsDatabase self.new }
    {
        match self.apply_up_to(command, u128::MAX) {
            Ok(outcome) => Ok(outcome),
            Err(_) => Err(AllocError),
        }
    }

    /// Applies a command, or changes nothing where memory is refused or the rows would take more
    /// than `most` bytes as records. A purge, a removal and a registration of no segments never add
    /// bytes, and are applied whatever the limit.
    pub fn apply_within(&mut self, command: &Command, most: u64) -> Result<Outcome, ApplyError>
        ensures database { OnOk result (self.new ≡ database_after self.old command.now) }
        ensures outcome { IfOk result (λ outcome. outcome ≡ outcome_of self.old command.now) }
        ensures within { OnOk result (rows_len self.new ≤ max most (rows_len self.old)) }
        ensures fits { OnOk result (TakesMemory command.now → rows_len self.new ≤ most) }
        ensures refused { OnErr result (self.new ≡ self.old) }
        ensures full { IfErr result (λ e. e ≡ Full → most < rows_len (database_after self.old command.now)) }
        ensures registers { OnErr result (TakesMemory command.now) }
        ensures whole { IsDatabase self.new }
    {
        self.apply_up_to(command, u128::from(most))
    }

    /// Applies a command, or changes nothing. `most` counts bytes.
    #[tactic(auto, unfolding(crate::specs::Command::database_after, crate::specs::Command::outcome_of))]
    fn apply_up_to(&mut self, command: &Command, most: u128) -> Result<Outcome, ApplyError>
        ensures database { OnOk result (self.new ≡ database_after self.old command.now) }
        ensures outcome { IfOk result (λ outcome. outcome ≡ outcome_of self.old command.now) }
        ensures within { OnOk result (rows_len self.new ≤ max most (rows_len self.old)) }
        ensures fits { OnOk result (TakesMemory command.now → rows_len self.new ≤ most) }
        ensures refused { OnErr result (self.new ≡ self.old) }
        ensures full { IfErr result (λ e. e ≡ Full → most < rows_len (database_after self.old command.now)) }
        ensures registers { OnErr result (TakesMemory command.now) }
        ensures whole { IsDatabase self.new }
    {
        match command {
            Command::Register(registration) => self.register(registration.as_slice(), most),
            Command::Purge(moment) => Ok(self.purge(*moment)),
            Command::Remove(kind, id) => Ok(self.remove(*kind, id)),
        }
    }

    /// Puts segments one after the other, or none of them.
    fn register(&mut self, new: &[(SegType, Segment)], most: u128) -> Result<Outcome, ApplyError>
        ensures database { OnOk result (self.new ≡ database_after_puts self.old new.now) }
        ensures outcome { IfOk result (λ outcome. outcome ≡ outcome_of_puts (changes_of self.old new.now)) }
        ensures within { OnOk result (rows_len self.new ≤ max most (rows_len self.old)) }
        ensures fits { OnOk result (0 < length new.now → rows_len self.new ≤ most) }
        ensures refused { OnErr result (self.new ≡ self.old) }
        ensures full { IfErr result (λ e. e ≡ Full → most < rows_len (database_after_puts self.old new.now)) }
        ensures memory { OnErr result (0 < length new.now) }
        ensures whole { IsDatabase self.new }
    {
        if let [one] = new {
            if let Some(outcome) = self.renew(one, most) {
                return Ok(outcome);
            }
        }
        let new = rows_of(self.alloc, new)?;
        self.put(new, most)
    }

    /// Puts a segment, where there is a row under its key with the same ends, and all rows with the
    /// new one have at most `most` bytes. Otherwise nothing changes.
    fn renew(&mut self, new: &(SegType, Segment), most: u128) -> Option<Outcome>
        ensures database { ForSome result (λ _. self.new ≡ database_after_puts self.old (new.now ∷ [])) }
        ensures outcome { ForSome result (λ outcome. outcome ≡ outcome_of_puts (changes_of self.old (new.now ∷ []))) }
        ensures within { ForSome result (λ _. rows_len self.new ≤ most) }
        ensures whole { ForSome result (λ _. IsDatabase self.new) }
        ensures none { result ≡ None → self.new ≡ self.old }
    {
        let Ok(segment) = new.1.try_clone() else {
            return None;
        };
        let row = Row::new(new.0, segment);
        if most.saturating_sub(self.bytes) < u128::from(row.len()) {
            return None;
        }
        let (change, indexed) = if self.indexed {
            let change = renew_indexed(
                &mut self.rows,
                &mut self.bytes,
                &mut self.by_first,
                &mut self.by_last,
                &mut self.by_isds,
                row,
            )?;
            (change, true)
        } else {
            (self.rows.renew(&mut self.bytes, row)?, false)
        };
        self.indexed = indexed;
        let mut outcome = Outcome::nothing();
        outcome.count(change);
        Some(outcome)
    }

    /// Puts rows one after the other, or none of them where memory is refused or the rows would
    /// take more than `most` bytes.
    fn put(&mut self, new: Vec<Row>, most: u128) -> Result<Outcome, ApplyError>
        requires { AreWhole (row_views new.items) }
        ensures database { OnOk result (self.new ≡ database_after_puts self.old (row_views new.items)) }
        ensures outcome { IfOk result (λ outcome. outcome ≡ outcome_of_puts (changes_of self.old (row_views new.items))) }
        ensures within { OnOk result (rows_len self.new ≤ max most (rows_len self.old)) }
        ensures fits { OnOk result (0 < length new.items → rows_len self.new ≤ most) }
        ensures refused { OnErr result (self.new ≡ self.old) }
        ensures full { IfErr result (λ e. e ≡ Full → most < rows_len (database_after_puts self.old (row_views new.items))) }
        ensures memory { OnErr result (0 < length new.items) }
        ensures whole { IsDatabase self.new }
    {
        let saved = saved_rows(self.alloc, &self.rows, &new)?;
        if new.is_empty() {
            return Ok(Outcome::nothing());
        }
        if !self.indexed {
            return put_all(&mut self.rows, &mut self.bytes, new, saved, most);
        }
        let firsts = touched_rows(self.alloc, By::OneEnd(End::First), &new, &saved)?;
        let lasts = touched_rows(self.alloc, By::OneEnd(End::Last), &new, &saved)?;
        let isds = touched_rows(self.alloc, By::BothEnds, &new, &saved)?;
        let added = add_all(
            &mut self.by_first,
            &firsts,
            &mut self.by_last,
            &lasts,
            &mut self.by_isds,
            &isds,
        );
        let put = put_after(added, &mut self.rows, &mut self.bytes, new, saved, most);
        let first = sweep(
            By::OneEnd(End::First),
            &mut self.by_first,
            &self.rows,
            &firsts,
        );
        let last = sweep(By::OneEnd(End::Last), &mut self.by_last, &self.rows, &lasts);
        let isds = sweep(By::BothEnds, &mut self.by_isds, &self.rows, &isds);
        self.indexed = first && last && isds;
        put
    }

    /// Drops every row that expires at the moment or before. The moment is in half seconds since
    /// 1970.
    fn purge(&mut self, moment: u64) -> Outcome
        ensures database { self.new ≡ database_after_purge self.old moment }
        ensures fewer { rows_len self.new ≤ rows_len self.old }
        ensures outcome { result ≡ outcome_of_drops (count_by (λ row. not (is_valid_beyond moment row)) self.old) }
        ensures whole { IsDatabase self.new }
    {
        if self.rows.outlasts(moment) {
            return Outcome::dropped(0);
        }
        let before = self.rows.len();
        let mut walk = BucketWalk::new(moment);
        while self.purge_next(&mut walk) {}
        Outcome::dropped(before - self.len())
    }

    /// Drops the rows of the next buckets that expire at the walk's moment or before. `false` means
    /// that all buckets were passed.
    fn purge_next(&mut self, walk: &mut BucketWalk) -> bool
        requires passed { HasPassedBuckets walk.old self.old }
        requires within { walk.old.bucket ≤ bucket_count }
        ensures others { database_after_purge self.new walk.old.moment ≡ database_after_purge self.old walk.old.moment }
        ensures none { result ≡ false → database_after_purge self.new walk.old.moment ≡ self.new }
        ensures passed { HasPassedBuckets walk.new self.new }
        ensures onwards { result ≡ true → walk.old.bucket < walk.new.bucket }
        ensures within { walk.new.bucket ≤ bucket_count }
        ensures moment { walk.new.moment ≡ walk.old.moment }
        ensures whole { IsDatabase self.new }
    {
        let end = self.rows.pass_lasting(walk);
        if walk.bucket == BUCKETS {
            self.rows.keep_least_expiry(walk.least);
            return false;
        }
        let mut rows = PurgeWalk::new(walk.moment, walk.bucket, end);
        self.purge_among(&mut rows);
        walk.pass(&rows);
        self.visited = self.visited.saturating_add(rows.visited);
        true
    }

    /// Drops the rows of a walk's buckets that expire at its moment or before.
    fn purge_among(&mut self, walk: &mut PurgeWalk)
        requires passed { HasPassed walk.old self.old }
        requires high { walk.old.high ≤ bucket_count }
        ensures others { database_after_purge self.new walk.old.moment ≡ database_after_purge self.old walk.old.moment }
        ensures outlast { AllOutlast walk.new self.new }
        ensures buckets { (buckets : BucketWalk) → HasPassedBuckets buckets self.old → HasPassedBuckets buckets self.new }
        ensures moment { walk.new.moment ≡ walk.old.moment }
        ensures low { walk.new.low ≡ walk.old.low }
        ensures high { walk.new.high ≡ walk.old.high }
        ensures whole { IsDatabase self.new }
    {
        while self.drop_next(walk) {}
        self.rows.keep_found(walk);
    }

    /// Drops the next row of a walk that expires at the walk's moment or before. `false` means that
    /// no such row is left.
    fn drop_next(&mut self, walk: &mut PurgeWalk) -> bool
        requires passed { HasPassed walk.old self.old }
        requires high { walk.old.high ≤ bucket_count }
        ensures others { database_after_purge self.new walk.old.moment ≡ database_after_purge self.old walk.old.moment }
        ensures dropped { result ≡ true → length self.new < length self.old }
        ensures none { result ≡ false → AllOutlast walk.new self.new }
        ensures passed { HasPassed walk.new self.new }
        ensures moment { walk.new.moment ≡ walk.old.moment }
        ensures low { walk.new.low ≡ walk.old.low }
        ensures high { walk.new.high ≡ walk.old.high }
        ensures buckets { (buckets : BucketWalk) → HasPassedBuckets buckets self.old → HasPassedBuckets buckets self.new }
        ensures whole { IsDatabase self.new }
    {
        let Some(row) = walk.next_expired(&self.rows) else {
            return false;
        };
        let kind = row.kind;
        let id = *row.id();
        self.remove(kind, &id);
        true
    }

    /// Drops the row of a type and an id, where there is one.
    fn remove(&mut self, kind: SegType, id: &[u8; 32]) -> Outcome
        ensures database { self.new ≡ database_after_removal self.old (key kind id.now) }
        ensures fewer { rows_len self.new ≤ rows_len self.old }
        ensures outcome { result ≡ outcome_of_drops (if is_some (row_under (key kind id.now) self.old) then 1 else 0) }
        ensures whole { IsDatabase self.new }
    {
        let Some(row) = self.rows.remove(kind, id) else {
            return Outcome::dropped(0);
        };
        if self.indexed {
            let first = take_out(By::OneEnd(End::First), &mut self.by_first, &row);
            let last = take_out(By::OneEnd(End::Last), &mut self.by_last, &row);
            let isds = take_out(By::BothEnds, &mut self.by_isds, &row);
            self.indexed = first && last && isds;
        }
        self.bytes -= u128::from(row.len());
        Outcome::dropped(1)
    }

    /// The segment of the row with this type and id. `None` where there is no such row.
    pub fn get(&self, kind: SegType, id: &[u8; 32]) -> Option<&Segment>
        ensures same { option_copied result ≡ option_map (λ row. row.1) (row_under (key kind id.now) self.now) }
        ensures whole { IsDatabase self.now }
    {
        match self.rows.get(kind, id) {
            Some(row) => Some(&row.segment),
            None => None,
        }
    }

    /// All rows, in the order of their keys.
    pub fn rows(&self) -> Rows<'_>
        ensures same { result ≡ self.now }
        ensures whole { IsDatabase self.now }
    {
        self.rows.rows()
    }

    /// The segments of the first rows by key, at most `limit`, that are of this type, whose first
    /// entry `start` covers and whose last entry `end` covers (a part that is 0 covers all), and
    /// that expire after `now`, in half seconds since 1970. The segments are shared, not copied. An
    /// error means that memory was refused. An answer without segments takes no memory.
    pub fn matching(
        &self,
        kind: SegType,
        start: IsdAs,
        end: IsdAs,
        now: u64,
        limit: usize,
    ) -> Result<Vec<Segment>, AllocError>
        ensures same { IfOk result (λ found. found.items ≡ segments_of (answer_of limit self.now kind (isd_as_number start) (isd_as_number end) now)) }
        ensures memory { OnErr result (0 < length (answer_of limit self.now kind (isd_as_number start) (isd_as_number end) now)) }
        ensures few { IfOk result (λ found. length found.items ≤ limit) }
        ensures whole { IfOk result (λ found. AllByRecursion IsSegment found.items) }
    {
        let wanted = Wanted {
            kind,
            start,
            end,
            moment: now,
            after: None,
        };
        self.shown(wanted, limit, &mut Visits::none())
    }

    /// The same as `matching`, of the rows whose ids are above this one.
    pub fn matching_after(
        &self,
        kind: SegType,
        id: &[u8; 32],
        start: IsdAs,
        end: IsdAs,
        now: u64,
        limit: usize,
    ) -> Result<Vec<Segment>, AllocError>
        ensures same { IfOk result (λ found.
            found.items ≡ segments_of (answer_above limit self.now kind id.now (isd_as_number start) (isd_as_number end) now)) }
        ensures memory { OnErr result (0 < length (answer_above limit self.now kind id.now (isd_as_number start) (isd_as_number end) now)) }
        ensures few { IfOk result (λ found. length found.items ≤ limit) }
        ensures whole { IfOk result (λ found. AllByRecursion IsSegment found.items) }
    {
        let wanted = Wanted {
            kind,
            start,
            end,
            moment: now,
            after: Some(*id),
        };
        self.shown(wanted, limit, &mut Visits::none())
    }

    /// The same as `matching`, and how many rows were visited.
    pub fn matching_counted(
        &self,
        kind: SegType,
        start: IsdAs,
        end: IsdAs,
        now: u64,
        limit: usize,
    ) -> Result<(Vec<Segment>, usize), AllocError>
        ensures same { IfOk result (λ it. it.0.items ≡ segments_of (answer_of limit self.now kind (isd_as_number start) (isd_as_number end) now)) }
        ensures memory { OnErr result (0 < length (answer_of limit self.now kind (isd_as_number start) (isd_as_number end) now)) }
        ensures few { IfOk result (λ it. length it.0.items ≤ limit) }
        ensures whole { IfOk result (λ it. AllByRecursion IsSegment it.0.items) }
        ensures visited { IfOk result (λ it. it.1 ≤ 6 * (limit + 64) + 3 * length self.now) }
    {
        let wanted = Wanted {
            kind,
            start,
            end,
            moment: now,
            after: None,
        };
        let mut visits = Visits::none();
        let found = self.shown(wanted, limit, &mut visits)?;
        Ok((found, visits.count))
    }

    /// The segments of the first rows that the lookup asks for, at most `limit`.
    fn shown(
        &self,
        wanted: Wanted,
        limit: usize,
        visits: &mut Visits,
    ) -> Result<Vec<Segment>, AllocError>
        requires { visits.old.count ≡ 0 }
        ensures same { IfOk result (λ found. found.items ≡ segments_of (answer_to_wanted limit self.now wanted)) }
        ensures memory { OnErr result (0 < length (answer_to_wanted limit self.now wanted)) }
        ensures few { IfOk result (λ found. length found.items ≤ limit) }
        ensures whole { IfOk result (λ found. AllByRecursion IsSegment found.items) }
        ensures visited { visits.new.count ≤ 6 * (limit + 64) + 3 * length self.now }
    {
        if limit == 0 {
            return Ok(Vec::new(self.alloc));
        }
        if self.indexed {
            let found = shown_by_index(
                self.alloc,
                &self.rows,
                Indexes {
                    by_first: &self.by_first,
                    by_last: &self.by_last,
                    by_isds: &self.by_isds,
                },
                wanted,
                limit,
                visits,
            )?;
            if let Some(found) = found {
                return Ok(found);
            }
        }
        shown_by_rows(self.alloc, &self.rows, wanted, limit, visits)
    }

    /// The number of rows. The call takes constant time.
    pub fn len(&self) -> usize
        ensures count { result ≡ length self.now }
        ensures whole { IsDatabase self.now }
    {
        self.rows.len()
    }

    /// The number of rows of a type. The call takes constant time.
    pub fn len_of(&self, kind: SegType) -> usize
        ensures { result ≡ count_by (is_of_type kind) self.now }
    {
        self.rows.len_of(kind)
    }

    /// How many rows the purges of this database have visited since it was made, or 2^64 - 1 for
    /// more. No call depends on it, and no clause says which number this is.
    pub fn visited_by_purges(&self) -> u64 {
        self.visited
    }

    /// The bytes of all rows as records: for each the type (1), the length (4), and the segment's
    /// encoding. The result is 2^64 - 1 for a greater count. The call takes constant time, as the
    /// count is kept up to date.
    pub fn encoded_len(&self) -> u64
        ensures { result ≡ min (rows_len self.now) (2 ^ 64 - 1) }
    {
        u64::try_from(self.bytes).unwrap_or(u64::MAX)
    }

    /// An equal database, which shares the segments. An error means that memory was refused. A copy
    /// of an empty database takes no memory.
    pub fn try_clone(&self) -> Result<PathDb, AllocError>
        ensures same { IfOk result (λ copy. copy ≡ self.now) }
        ensures memory { OnErr result (0 < length self.now) }
        ensures whole { IfOk result (λ copy. IsDatabase copy) }
    {
        if self.rows.len() == 0 {
            return Ok(PathDb::new(self.alloc));
        }
        Ok(PathDb {
            alloc: self.alloc,
            rows: self.rows.try_clone(self.alloc)?,
            indexed: self.indexed,
            by_first: self.by_first.try_clone()?,
            by_last: self.by_last.try_clone()?,
            by_isds: self.by_isds.try_clone()?,
            bytes: self.bytes,
            visited: 0,
        })
    }
}
