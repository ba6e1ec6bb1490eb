//! Readers that wait for nobody.

ghost use Rattle.std.specs.Prelude.{◌≡◌, ◌⊎◌, ◌≤◌, ◌<◌, true, None, length, max, IfOk, IfErr, IfSome, OnOk, OnErr};
ghost use Rattle.std.specs.List.{AllByRecursion};
ghost use Rattle.std.specs.Option.{option_copied};
ghost use mathlib.Core.List.{IsPrefix};
ghost use Rattle.seg_core.specs.Encoding.{IsSegment};
ghost use Rattle.path_db.specs.Answer.{segments_of};
ghost use Rattle.store_layout.specs.Journal.{all_of};
ghost use Rattle.left_right.specs.Sides.{view};
ghost use Rattle.hub_readers.specs.declared.error.ReaderError.TheVariants.{NoMemory, NoReader};
ghost use Rattle.hub_readers.specs.Sight.{answer_shown, shown_within, page_shown, more_shown, place_after};
ghost use Rattle.hub_readers.specs.Learnt.{learnt};
ghost use Rattle.hub_readers.specs.Shown.{shown_log};

use crate::entry::{Entry, HubSeat};
use crate::error::ReaderError;
use crate::ghosts::name::ReaderName;
use crate::look::Look;
use crate::note::{HubNote, HubReceipt};
use core::mem::replace_with;
use log_history::PastLog;
use seg_core::Segment;
use seg_lookup::{ANSWER_LIMIT, Page, Query, first_after};
use std::alloc::AllocError;
use std::marker::Model;

/// A reader of the hub of this name. Contracts see the groups after which it has looked last, and
/// the greatest place that a lookup or a receipt has shown it.
#[derive(Drop)]
pub struct HubReader<N: ReaderName> {
    seat: HubSeat<N>,
    entry: Entry<N>,
    seen: u64,
    /// The past log of what it has looked at last.
    past: PastLog,
}

impl<N: ReaderName> Model for HubReader<N> {
    ghost use Rattle.std.specs.Prelude.{◌≡◌};
    ghost use Rattle.left_right.specs.Sides.{view as seat_view};
    ghost use Rattle.store_layout.specs.Journal.{all_of};
    ghost use Rattle.hub_readers.specs.Shown.{shown_log};
    ghost use Rattle.hub_readers.specs.Sight.{Sight};

    ghost Value = { Sight };

    ghost view = { λ r. record { groups = (seat_view r.seat.place).groups; seen = r.seen } };

    ghost invariant = { λ r. r.past ≡ shown_log N.shown (all_of (seat_view r.seat.place).groups) };
}

impl<N: ReaderName> HubReader<N> {
    /// A reader at this seat, which has been shown nothing.
    pub(crate) fn over(seat: HubSeat<N>, past: PastLog) -> HubReader<N>
        requires past { past ≡ shown_log N.shown (all_of (view seat.place).groups) }
        requires shut { N.shut ≡ true }
        ensures groups { result.groups ≡ (view seat.place).groups }
        ensures seen { result.seen ≡ 0 }
    {
        HubReader {
            seat,
            entry: Entry::new(),
            seen: 0,
            past,
        }
    }

    /// The segments that a query asks for, at a moment in half seconds since 1970. The answer is
    /// from what is published at one moment within the call, which is no older than what this
    /// reader was shown before or has learnt. The call takes no lock and waits for nobody. The
    /// segments are shared with the published rows, not copied.
    pub fn lookup(&mut self, query: &Query, now: u64) -> Result<Vec<Segment>, ReaderError>
        ensures answer { IfOk result (λ found. found.items ≡ segments_of (answer_shown N.opening self.new.groups query.now now)) }
        ensures few { IfOk result (λ found. length found.items ≤ ANSWER_LIMIT) }
        ensures whole { IfOk result (λ found. AllByRecursion IsSegment found.items) }

        // What is published has all groups that this reader was shown before, and its place is at
        // least what the reader has seen.
        ensures later { IsPrefix self.old.groups self.new.groups }
        ensures fresh { OnOk result (self.old.seen ≤ place_after N.opening self.new.groups) }
        ensures seen { OnOk result (self.new.seen ≡ place_after N.opening self.new.groups) }

        // Memory is refused only for an answer that is not empty, after the reader has looked.
        // NoReader is returned only where the library let the reader's seat not in, or where what is
        // published is older than what the reader has seen. That is then unchanged.
        ensures why { IfErr result (λ e. (e ≡ NoMemory) ⊎ (e ≡ NoReader)) }
        ensures memory { IfErr result (λ e. e ≡ NoMemory → 1 ≤ length (answer_shown N.opening self.new.groups query.now now)) }
        ensures looked { IfErr result (λ e. e ≡ NoMemory → self.new.seen ≡ place_after N.opening self.new.groups) }
        ensures kept { IfErr result (λ e. e ≡ NoReader → self.new.seen ≡ self.old.seen) }
        ensures unshown { IfErr result (λ e. e ≡ NoReader → ((N.shut ≡ true) × (self.new.groups ≡ self.old.groups)) ⊎ (place_after N.opening self.new.groups < self.old.seen)) }
        ensures grows { self.old.seen ≤ self.new.seen }
    {
        self.look_for(query, None, now, ANSWER_LIMIT)
    }

    /// The first 64 segments that a query asks for, of those whose ids are above the given one, if
    /// any, and whether further ones follow. The moment is in half seconds since 1970. A page is
    /// answered as a lookup is: from what is published at one moment within the call, which is no
    /// older than what this reader was shown before or has learnt, without a lock.
    pub fn page(
        &mut self,
        query: &Query,
        after: Option<&[u8; 32]>,
        now: u64,
    ) -> Result<Page, ReaderError>
        ensures answer { IfOk result (λ page. page.segments.items
            ≡ segments_of (page_shown N.opening self.new.groups query.now (option_copied after.entry) now)) }
        ensures more { IfOk result (λ page. page.more ≡ more_shown N.opening self.new.groups query.now (option_copied after.entry) now) }
        ensures few { IfOk result (λ page. length page.segments.items ≤ ANSWER_LIMIT) }
        ensures whole { IfOk result (λ page. AllByRecursion IsSegment page.segments.items) }

        // What is published has all groups that this reader was shown before, and its place is at
        // least what the reader has seen.
        ensures later { IsPrefix self.old.groups self.new.groups }
        ensures fresh { OnOk result (self.old.seen ≤ place_after N.opening self.new.groups) }
        ensures seen { OnOk result (self.new.seen ≡ place_after N.opening self.new.groups) }

        // Memory is refused only for a page that is not empty, after the reader has looked.
        // NoReader is returned only where the library let the reader's seat not in, or where what is
        // published is older than what the reader has seen. That is then unchanged.
        ensures why { IfErr result (λ e. (e ≡ NoMemory) ⊎ (e ≡ NoReader)) }
        ensures memory { IfErr result (λ e. e ≡ NoMemory
            → 1 ≤ length (page_shown N.opening self.new.groups query.now (option_copied after.entry) now)) }
        ensures looked { IfErr result (λ e. e ≡ NoMemory → self.new.seen ≡ place_after N.opening self.new.groups) }
        ensures kept { IfErr result (λ e. e ≡ NoReader → self.new.seen ≡ self.old.seen) }
        ensures unshown { IfErr result (λ e. e ≡ NoReader → ((N.shut ≡ true) × (self.new.groups ≡ self.old.groups)) ⊎ (place_after N.opening self.new.groups < self.old.seen)) }
        ensures grows { self.old.seen ≤ self.new.seen }
    {
        match self.look_for(query, after, now, ANSWER_LIMIT + 1) {
            Ok(found) => Ok(Page::of(found)),
            Err(refused) => Err(refused),
        }
    }

    /// At most `limit` segments that a query asks for, of those whose ids are above the given one,
    /// if any, as `lookup` answers them.
    fn look_for(
        &mut self,
        query: &Query,
        after: Option<&[u8; 32]>,
        now: u64,
        limit: usize,
    ) -> Result<Vec<Segment>, ReaderError>
        ensures answer { IfOk result (λ found. found.items
            ≡ segments_of (shown_within limit N.opening self.new.groups query.now (option_copied after.entry) now)) }
        ensures few { IfOk result (λ found. length found.items ≤ limit) }
        ensures whole { IfOk result (λ found. AllByRecursion IsSegment found.items) }
        ensures later { IsPrefix self.old.groups self.new.groups }
        ensures fresh { OnOk result (self.old.seen ≤ place_after N.opening self.new.groups) }
        ensures seen { OnOk result (self.new.seen ≡ place_after N.opening self.new.groups) }
        ensures why { IfErr result (λ e. (e ≡ NoMemory) ⊎ (e ≡ NoReader)) }
        ensures memory { IfErr result (λ e. e ≡ NoMemory
            → 1 ≤ length (shown_within limit N.opening self.new.groups query.now (option_copied after.entry) now)) }
        ensures looked { IfErr result (λ e. e ≡ NoMemory → self.new.seen ≡ place_after N.opening self.new.groups) }
        ensures kept { IfErr result (λ e. e ≡ NoReader → self.new.seen ≡ self.old.seen) }
        ensures unshown { IfErr result (λ e. e ≡ NoReader → ((N.shut ≡ true) × (self.new.groups ≡ self.old.groups)) ⊎ (place_after N.opening self.new.groups < self.old.seen)) }
        ensures grows { self.old.seen ≤ self.new.seen }
    {
        let Some(sight) = look_in(&self.entry, &mut self.seat, query, after, now, limit) else {
            return Err(ReaderError::NoReader);
        };
        self.past = sight.past;
        if sight.place < self.seen {
            return Err(ReaderError::NoReader);
        }
        self.seen = sight.place;
        Ok(sight.found?)
    }

    /// The look of the last lookup that has looked, or of no command where there was none. That
    /// lookup was answered, was refused memory for its answer, or has found what is older than what
    /// the reader had seen.
    pub fn last_look(&self) -> Look<N>
        ensures { result ≡ all_of self.now.groups }
    {
        Look::of(self.past.again())
    }

    /// Takes the note out of a receipt: from then on this reader is shown nothing older than the
    /// receipt's command. Where no note is left nothing changes.
    pub fn learn(&mut self, receipt: &mut HubReceipt<N>)
        ensures groups { self.new.groups ≡ self.old.groups }
        ensures seen { self.new.seen ≡ learnt self.old.seen receipt.old.note }
        ensures receipt { receipt.new ≡ record receipt.old { note = None } }
    {
        if let Some(note) = receipt.take_note() {
            self.learn_note(note);
        }
    }

    /// Takes a note: from then on this reader is shown nothing older than the note's place.
    pub fn learn_note(&mut self, note: HubNote<N>)
        ensures groups { self.new.groups ≡ self.old.groups }
        ensures seen { self.new.seen ≡ max self.old.seen note }
    {
        self.seen = self.seen.max(note.shown());
    }
}

/// The result of one look at what is published.
#[derive(Drop)]
struct Found {
    found: Result<Vec<Segment>, AllocError>,
    place: u64,
    past: PastLog,
}

/// Looks at what is published, once.
fn look_in<N: ReaderName>(
    entry: &Entry<N>,
    seat: &mut HubSeat<N>,
    query: &Query,
    after: Option<&[u8; 32]>,
    now: u64,
    limit: usize,
) -> Option<Found>
    ensures later { IsPrefix (view seat.old.place).groups (view seat.new.place).groups }
    ensures place { IfSome result (λ f. f.place ≡ place_after N.opening (view seat.new.place).groups) }
    ensures past { IfSome result (λ f. f.past ≡ shown_log N.shown (all_of (view seat.new.place).groups)) }
    ensures found { IfSome result (λ f. IfOk f.found (λ found. found.items
        ≡ segments_of (shown_within limit N.opening (view seat.new.place).groups query.now (option_copied after.entry) now))) }
    ensures few { IfSome result (λ f. IfOk f.found (λ found. length found.items ≤ limit)) }
    ensures whole { IfSome result (λ f. IfOk f.found (λ found. AllByRecursion IsSegment found.items)) }
    ensures memory { IfSome result (λ f. OnErr f.found
        (1 ≤ length (shown_within limit N.opening (view seat.new.place).groups query.now (option_copied after.entry) now))) }
    ensures gone { result ≡ None → (N.shut ≡ true) × ((view seat.new.place).groups ≡ (view seat.old.place).groups) }
{
    replace_with(
        seat,
        (entry, query, after, now, limit),
        |seat, asked| look(asked.0, seat, asked.1, asked.2, asked.3, asked.4),
    )
}

/// Looks at what is published from a seat, and returns the seat.
fn look<N: ReaderName>(
    entry: &Entry<N>,
    seat: HubSeat<N>,
    query: &Query,
    after: Option<&[u8; 32]>,
    now: u64,
    limit: usize,
) -> (HubSeat<N>, Option<Found>)
    ensures later { IsPrefix (view seat.place).groups (view result.0.place).groups }
    ensures place { IfSome result.1 (λ f. f.place ≡ place_after N.opening (view result.0.place).groups) }
    ensures past { IfSome result.1 (λ f. f.past ≡ shown_log N.shown (all_of (view result.0.place).groups)) }
    ensures found { IfSome result.1 (λ f. IfOk f.found (λ found. found.items
        ≡ segments_of (shown_within limit N.opening (view result.0.place).groups query.now (option_copied after.entry) now))) }
    ensures few { IfSome result.1 (λ f. IfOk f.found (λ found. length found.items ≤ limit)) }
    ensures whole { IfSome result.1 (λ f. IfOk f.found (λ found. AllByRecursion IsSegment found.items)) }
    ensures memory { IfSome result.1 (λ f. OnErr f.found
        (1 ≤ length (shown_within limit N.opening (view result.0.place).groups query.now (option_copied after.entry) now))) }
    ensures gone { result.1 ≡ None → (N.shut ≡ true) × ((view result.0.place).groups ≡ (view seat.place).groups) }
{
    match entry.enter(seat) {
        Ok(reading) => {
            let published = reading.get();
            let found = first_after(published.db(), query, after, now, limit);
            let place = published.place();
            let past = published.past();
            (reading.leave(), Some(Found { found, place, past }))
        }
        Err(seat) => (seat, None),
    }
}
