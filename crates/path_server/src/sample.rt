//! When rows expire, by some of them.

ghost use Rattle.std.specs.Prelude.{◌≡◌, ◌<◌, ◌*◌, Some, max, unwrap_or, length};
ghost use Rattle.path_server.specs.Pacing.{stride_of};

use crate::pace::MANY;
use hub_claims::HubName;
use hub_readers::{HubReader, ReaderError};
use isd_as::IsdAs;
use seg_check::expiry;
use seg_core::{SegType, Segment};
use seg_lookup::{ANSWER_LIMIT, Query};
use std::alloc::Global;

/// The most pages of a type that are read, of 64 rows each.
const PAGES: u32 = 64;

// The pages say some 4,000 rows of each type.
const _: () = prove!(PAGES as usize * ANSWER_LIMIT == 4_096);

/// The most steps of a purge.
const MOST_STEPS: u64 = 2_048;

/// The first rows of each type by their ids, at most 4,096 of each. An id is a digest, so these are
/// as good as rows by chance. No clause says which rows they are: a purge by any moment is right
/// that is not after the clock's, and the steps are a matter of time.
#[derive(Drop)]
pub(crate) struct Sample {
    /// The number of these rows.
    seen: u64,
    /// The newest timestamp of these rows, in half seconds since 1970, or `None` where there are
    /// none. That of the store is no less.
    newest: Option<u64>,
    /// When those of them expired that have expired, in half seconds since 1970, in this order.
    moments: Vec<u64>,
}

impl Sample {
    /// A sample of the rows that a reader is shown, of which those have expired that expire at this
    /// moment or before, in half seconds since 1970.
    pub(crate) fn of<N: HubName>(
        alloc: Global,
        reader: &mut HubReader<N>,
        until: u64,
    ) -> Result<Sample, ReaderError> {
        let mut sample = Sample {
            seen: 0,
            newest: None,
            moments: Vec::new(alloc),
        };
        for kind in [SegType::Up, SegType::Down, SegType::Core] {
            sample.add_type(reader, kind, until)?;
        }
        sample.moments.sort_unstable();
        Ok(sample)
    }

    /// Adds the first rows of a type.
    fn add_type<N: HubName>(
        &mut self,
        reader: &mut HubReader<N>,
        kind: SegType,
        until: u64,
    ) -> Result<(), ReaderError> {
        let any = IsdAs::from_u64(0);
        let query = Query {
            kind,
            start: any,
            end: any,
        };
        let mut after = None;
        for _ in 0..PAGES {
            let page = reader.page(&query, after.as_ref(), 0)?;
            for segment in &page.segments {
                self.add(segment, until)?;
            }
            if !page.more {
                break;
            }
            after = page.segments.last().map(|segment| *segment.digest());
        }
        Ok(())
    }

    /// Adds a row.
    fn add(&mut self, segment: &Segment, until: u64) -> Result<(), ReaderError> {
        self.seen = self.seen.saturating_add(1);
        self.newest = newest_with(self.newest, segment);
        let moment = expiry(segment);
        if moment <= until && self.moments.push(moment).is_err() {
            return Err(ReaderError::NoMemory);
        }
        Ok(())
    }

    /// The newest timestamp of its rows, in half seconds since 1970, or `None` where it has none.
    /// As the store's newest one is no less, a clock that is at most a day after this one is at
    /// most a day after that one, too.
    pub(crate) fn newest(&self) -> Option<u64>
        ensures { result ≡ self.now.newest }
    {
        self.newest
    }

    /// When rows of the sample expired, by rising moments.
    pub(crate) fn moments(&self) -> &[u64]
        ensures { result.now ≡ self.now.moments.items }
    {
        &self.moments
    }

    /// After how many of its moments each a purge drops about 250 rows of a store that has this
    /// many.
    #[tactic(auto, unfolding(crate::specs::Pacing::stride_of))]
    pub(crate) fn stride(&self, rows: u64) -> usize
        ensures same { result ≡ stride_of self.now.seen (length self.now.moments.items) rows }
        ensures some { 0 < result }
    {
        let part = self
            .seen
            .saturating_mul(MANY)
            .checked_div(rows)
            .unwrap_or(u64::MAX);
        let least = self.moments.len() as u64 / MOST_STEPS + 1;
        usize::try_from(part.max(least)).unwrap_or(usize::MAX)
    }
}

/// The newest timestamp, with that of one more segment, in half seconds since 1970.
fn newest_with(newest: Option<u64>, segment: &Segment) -> Option<u64>
    ensures { result ≡ Some (max (unwrap_or newest 0) (2 * segment.now.timestamp)) }
{
    let moment = 2 * u64::from(segment.timestamp());
    Some(newest.unwrap_or(0).max(moment))
}
